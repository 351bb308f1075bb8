//! The comparison of the modes: a header, and then for each mode a row for each round.

ghost use Rattle.report.specs.calls.Columns.{IsFormat};
ghost use Rattle.report.specs.Compare.{compare_header_line, compare_line};
ghost use Rattle.report.specs.calls.Writing.{WritesText};

use crate::cells::Cell;
use crate::columns::{FormatLine, Told, write_columns};
use bench_types::{Fault, Mode, Row, Sink};
use std::alloc::Global;

/// Writes the header of a comparison in a format, the names of its columns, and flushes. An error is
/// lack of memory (`OutOfMemory`), before anything is written, or that the sink failed (`WriteFailed`).
pub fn compare_header<W: Sink>(alloc: Global, writer: &mut W, format: u32) -> Result<(), Fault>
    requires { IsFormat format }
    ensures { WritesText W.Sink writer.old writer.new (compare_header_line format) result }
{
    let told = Told::Names;
    write_columns(
        alloc,
        writer,
        &[Cell::Text("mode")],
        FormatLine { format, told },
    )
}

/// Writes the row of one round under a mode in a format, and flushes. An error is
/// lack of memory (`OutOfMemory`), before anything is written, or that the sink failed (`WriteFailed`).
pub fn write_compare_row<W: Sink>(
    alloc: Global,
    writer: &mut W,
    format: u32,
    mode: Mode,
    row: &Row,
) -> Result<(), Fault>
    requires { IsFormat format }
    ensures { WritesText W.Sink writer.old writer.new (compare_line format mode row.now) result }
{
    let told = Told::Numbers(row);
    write_columns(
        alloc,
        writer,
        &[Cell::Text(mode.name())],
        FormatLine { format, told },
    )
}
