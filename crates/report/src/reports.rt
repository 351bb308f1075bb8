//! The report: a header, and then a row for each round.

ghost use Rattle.report.specs.calls.Columns.{IsFormat};
ghost use Rattle.report.specs.calls.Writing.{WritesText};
ghost use Rattle.report.specs.Report.{report_header_line, report_line};

use crate::columns::{FormatLine, Told, write_columns};
use bench_types::{Fault, Row, Sink};
use std::alloc::Global;

/// Writes the header of the report in a format, the names of its columns, and flushes. An error is
/// lack of memory (`OutOfMemory`), before anything is written, or that the sink failed (`WriteFailed`).
pub fn report_header<W: Sink>(alloc: Global, writer: &mut W, format: u32) -> Result<(), Fault>
    requires { IsFormat format }
    ensures { WritesText W.Sink writer.old writer.new (report_header_line format) result }
{
    let told = Told::Names;
    write_columns(alloc, writer, &[], FormatLine { format, told })
}

/// Writes the row of one round in a format, and flushes. An error is
/// lack of memory (`OutOfMemory`), before anything is written, or that the sink failed (`WriteFailed`).
pub fn write_report_row<W: Sink>(
    alloc: Global,
    writer: &mut W,
    format: u32,
    row: &Row,
) -> Result<(), Fault>
    requires { IsFormat format }
    ensures { WritesText W.Sink writer.old writer.new (report_line format row.now) result }
{
    let told = Told::Numbers(row);
    write_columns(alloc, writer, &[], FormatLine { format, told })
}
