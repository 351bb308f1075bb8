//! What a round is written to: the report and the trace of a run, or the comparison of the modes.

ghost use Rattle.report.specs.calls.Columns.{IsFormat};

use crate::rounds::RoundWriter;
use bench_types::{Fault, Mode, Sink};
use played_rounds::Round;
use report::{write_compare_row, write_report_row, write_trace_rows};
use std::alloc::Global;

/// A report and a trace behind their headers.
#[derive(Drop)]
pub(crate) struct ReportAndTrace<'a, 'b, W, X> {
    pub(crate) alloc: Global,
    pub(crate) format: u32,
    pub(crate) writer: &'a mut W,
    pub(crate) trace: &'b mut X,
    ghost known: { IsFormat format },
}

impl<'a, 'b, W: Sink, X: Sink> RoundWriter for ReportAndTrace<'a, 'b, W, X> {
    ghost use Rattle.runs.specs.inner.Outputs.{WritesTexts, StopsInTexts};

    ghost wrote = { WritesTexts W.Sink X.Sink };

    ghost stops = { StopsInTexts W.Sink X.Sink };

    // (the lines of the trace first, so that the trace is never behind the report)
    fn write(&mut self, round: &Round) -> Result<(), Fault> {
        let row = round.row();
        write_trace_rows(
            self.alloc,
            self.trace,
            row.round,
            round.list(),
            round.records(),
        )?;
        write_report_row(self.alloc, self.writer, self.format, &row)
    }
}

/// A comparison behind its header, and the mode whose rows come next.
#[derive(Drop)]
pub(crate) struct ModeRows<'a, W> {
    pub(crate) alloc: Global,
    pub(crate) format: u32,
    pub(crate) mode: Mode,
    pub(crate) writer: &'a mut W,
    ghost known: { IsFormat format },
}

impl<'a, W: Sink> RoundWriter for ModeRows<'a, W> {
    ghost use Rattle.runs.specs.inner.Outputs.{WritesRow, StopsInRow};

    ghost wrote = { WritesRow W.Sink };

    ghost stops = { StopsInRow W.Sink };

    fn write(&mut self, round: &Round) -> Result<(), Fault> {
        write_compare_row(
            self.alloc,
            self.writer,
            self.format,
            self.mode,
            &round.row(),
        )
    }
}
