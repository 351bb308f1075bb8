//! The columns of the report, in one list: its header, its rows and the comparison go by it.

ghost use Rattle.std.specs.Prelude.{◌≡◌, ◌++◌, map, true, IsTrue, OnOk, IsOkUnless};
ghost use Rattle.std.specs.List.{list_all};
ghost use Rattle.report.specs.inner.Cells.{cell_text, is_plain_cell, AddsCells};
ghost use Rattle.report.specs.Columns.{rule_of};
ghost use Rattle.report.specs.calls.Columns.{IsFormat};
ghost use Rattle.report.specs.Line.{line_of};
ghost use Rattle.report.specs.inner.Told.{text_told, texts_told};
ghost use Rattle.report.specs.calls.Writing.{WritesText};

use crate::cells::Cell;
use crate::outputs::write_line;
use bench_types::{Fault, Row, Sink};
use std::alloc::Global;

/// A column of the report.
#[derive(Clone, Copy)]
pub(crate) enum Column {
    Round,
    Exchanges,
    Unreached,
    Lost,
    Entries,
    Cut,
    Stale,
    Greatest,
    Leftover,
}

impl Column {
    /// All columns, in order.
    pub(crate) const ALL: [Column; 9] = [
        Column::Round,
        Column::Exchanges,
        Column::Unreached,
        Column::Lost,
        Column::Entries,
        Column::Cut,
        Column::Stale,
        Column::Greatest,
        Column::Leftover,
    ];

    fn name(self) -> &'static str
        ensures { result.now ≡ (rule_of self).name }
    {
        match self {
            Column::Round => "round",
            Column::Exchanges => "exchanges",
            Column::Unreached => "unreached",
            Column::Lost => "lost",
            Column::Entries => "entries",
            Column::Cut => "cut",
            Column::Stale => "stale",
            Column::Greatest => "greatest",
            Column::Leftover => "leftover",
        }
    }

    fn since(self) -> u32
        ensures { result ≡ (rule_of self).since }
    {
        match self {
            Column::Round
            | Column::Exchanges
            | Column::Unreached
            | Column::Lost
            | Column::Entries
            | Column::Cut
            | Column::Stale
            | Column::Greatest => 1,
            Column::Leftover => 2,
        }
    }

    fn number(self, row: &Row) -> u64
        ensures { result ≡ (rule_of self).number row.now }
    {
        match self {
            Column::Round => row.round.into(),
            Column::Exchanges => row.exchanges.into(),
            Column::Unreached => row.unreached.into(),
            Column::Lost => row.lost.into(),
            Column::Entries => row.entries,
            Column::Cut => row.cut,
            Column::Stale => row.stale,
            Column::Greatest => row.greatest.into(),
            Column::Leftover => row.leftover,
        }
    }
}

/// What a line tells of each column.
#[derive(Clone, Copy)]
pub(crate) enum Told<'a> {
    Names,
    Numbers(&'a Row),
}

impl Told<'_> {
    fn cell(self, column: Column) -> Cell<'static>
        ensures text { cell_text result ≡ text_told self.entry column }
        ensures plain { is_plain_cell result ≡ true }
    {
        match self {
            Told::Names => Cell::Text(column.name()),
            Told::Numbers(row) => Cell::Number(column.number(row)),
        }
    }
}

/// What a line tells, and the format whose columns it has.
#[derive(Clone, Copy)]
pub(crate) struct FormatLine<'a> {
    pub(crate) format: u32,
    pub(crate) told: Told<'a>,
    ghost known: { IsFormat format },
}

/// Writes a line of these cells and of what is told of a format's columns, and flushes.
pub(crate) fn write_columns<W: Sink>(
    alloc: Global,
    writer: &mut W,
    front: &[Cell<'static>],
    line: FormatLine,
) -> Result<(), Fault>
    requires plain { IsTrue (list_all is_plain_cell front.now) }
    ensures { WritesText W.Sink writer.old writer.new
        (line_of (map cell_text front.now ++ texts_told line.entry.told line.entry.format)) result }
{
    let mut cells = Vec::from_slice(alloc, front)?;
    push_columns(&mut cells, line)?;
    write_line(alloc, writer, &cells)
}

fn push_columns(cells: &mut Vec<Cell<'static>>, line: FormatLine) -> Result<(), Fault>
    requires plain { IsTrue (list_all is_plain_cell cells.old.items) }
    ensures added { OnOk result
        (AddsCells cells.old.items cells.new.items (texts_told line.entry.told line.entry.format)) }
    ensures only { IsOkUnless result Fault.OutOfMemory }
{
    let FormatLine { format, told } = line;
    for column in Column::ALL {
        if column.since() <= format {
            cells.push(told.cell(column))?;
        }
    }
    Ok(())
}
