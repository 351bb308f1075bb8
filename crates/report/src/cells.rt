//! Lines made of cells, in memory. A writer over a vector fails only where memory runs out.

ghost use Rattle.std.specs.Prelude.{◌≡◌, ◌<◌, ◌++◌, length, map, decimal, IsTrue, IfOk, OnOk, IsOkUnless};
ghost use Rattle.std.specs.List.{list_all};
ghost use Rattle.csv.specs.Writing.{default_writer, writer_setup};
ghost use Rattle.report.specs.Line.{line_of};
ghost use Rattle.report.specs.inner.Cells.{cell_text, is_plain_cell, bytes_written, AddsField, IsBetweenLines};

use bench_types::Fault;
use csv::{Writer, WriterBuilder};
use std::alloc::Global;

/// What stands between two commas of a line.
#[derive(Clone, Copy)]
pub(crate) enum Cell<'a> {
    Text(&'a str),
    Number(u64),
}

/// A line of these cells.
pub(crate) fn make_line(alloc: Global, cells: &[Cell]) -> Result<Vec<u8>, Fault>
    requires some { 0 < length cells.now }
    requires plain { IsTrue (list_all is_plain_cell cells.now) }
    ensures line { IfOk result (λ line. line.items ≡ line_of (map cell_text cells.now)) }
    ensures only { IsOkUnless result Fault.OutOfMemory }
{
    let mut lines = WriterBuilder::new().from_writer(Vec::new(alloc));
    put_line(alloc, &mut lines, cells)?;
    bytes_of(lines)
}

/// The bytes of these lines.
pub(crate) fn bytes_of(lines: Writer<Vec<u8>>) -> Result<Vec<u8>, Fault>
    ensures bytes { IfOk result (λ bytes. bytes.items ≡ bytes_written lines) }
    ensures only { IsOkUnless result Fault.OutOfMemory }
{
    lines.into_inner().ok().ok_or(Fault::OutOfMemory)
}

/// Adds a line of these cells to the lines so far.
pub(crate) fn put_line(
    alloc: Global,
    lines: &mut Writer<Vec<u8>>,
    cells: &[Cell],
) -> Result<(), Fault>
    requires between { IsBetweenLines lines.old }
    requires some { 0 < length cells.now }
    requires plain { IsTrue (list_all is_plain_cell cells.now) }
    ensures between { OnOk result (IsBetweenLines lines.new) }
    ensures line { OnOk result
        (bytes_written lines.new ≡ bytes_written lines.old ++ line_of (map cell_text cells.now)) }
    ensures only { IsOkUnless result Fault.OutOfMemory }
{
    for cell in cells {
        put_cell(alloc, lines, *cell)?;
    }
    lines.end_record().ok().ok_or(Fault::OutOfMemory)
}

fn put_cell(alloc: Global, lines: &mut Writer<Vec<u8>>, cell: Cell) -> Result<(), Fault>
    requires setup { writer_setup lines.old ≡ default_writer }
    requires plain { IsTrue (is_plain_cell cell) }
    ensures added { OnOk result (AddsField lines.old lines.new (cell_text cell.entry)) }
    ensures only { IsOkUnless result Fault.OutOfMemory }
{
    match cell {
        Cell::Text(text) => lines
            .write_field(text.as_bytes())
            .ok()
            .ok_or(Fault::OutOfMemory),
        Cell::Number(number) => put_number(alloc, lines, number),
    }
}

fn put_number(alloc: Global, lines: &mut Writer<Vec<u8>>, number: u64) -> Result<(), Fault>
    requires { writer_setup lines.old ≡ default_writer }
    ensures added { OnOk result (AddsField lines.old lines.new (decimal number)) }
    ensures only { IsOkUnless result Fault.OutOfMemory }
{
    lines
        .write_field(number.to_string(alloc)?.as_bytes())
        .ok()
        .ok_or(Fault::OutOfMemory)
}
