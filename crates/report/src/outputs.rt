//! Writing a line to a sink.

ghost use Rattle.std.specs.Prelude.{◌<◌, length, map, IsTrue};
ghost use Rattle.std.specs.List.{list_all};
ghost use Rattle.report.specs.inner.Cells.{cell_text, is_plain_cell};
ghost use Rattle.report.specs.Line.{line_of};
ghost use Rattle.report.specs.calls.Writing.{WritesText};

use crate::cells::{Cell, make_line};
use bench_types::{Fault, Sink, write_text};
use std::alloc::Global;

/// Makes a line of these cells, writes all of it, and flushes.
pub(crate) fn write_line<W: Sink>(
    alloc: Global,
    writer: &mut W,
    cells: &[Cell],
) -> Result<(), Fault>
    requires some { 0 < length cells.now }
    requires plain { IsTrue (list_all is_plain_cell cells.now) }
    ensures { WritesText W.Sink writer.old writer.new (line_of (map cell_text cells.now)) result }
{
    let line = make_line(alloc, cells)?;
    write_text(writer, line.as_slice())
}
