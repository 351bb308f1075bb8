//! The trace: a header, and then for each round a row for each of its exchanges.

ghost use Rattle.std.specs.Prelude.{◌≡◌, ◌≤◌, length, map, IsTrue, IfOk, IsOkUnless};
ghost use Rattle.std.specs.List.{list_all};
ghost use Rattle.report.specs.inner.Cells.{cell_text, is_plain, is_plain_cell};
ghost use Rattle.report.specs.Line.{line_of};
ghost use Rattle.report.specs.calls.Writing.{WritesText};
ghost use Rattle.model.specs.declared.lists.TheConstants.{MOST_EXCHANGES};
ghost use Rattle.report.specs.Trace.{trace_header_line, fate_name, trace_line, trace_lines};

use crate::cells::{Cell, bytes_of, put_line};
use crate::outputs::write_line;
use bench_types::{Exchange, Fate, Fault, Record, Sink, write_text};
use csv::WriterBuilder;
use model::RoundList;
use std::alloc::Global;

// How many columns the trace has.
const COLUMNS: usize = 11;

// Their names, in order.
const HEADER: [Cell<'static>; COLUMNS] = [
    Cell::Text("round"),
    Cell::Text("index"),
    Cell::Text("initiator"),
    Cell::Text("responder"),
    Cell::Text("fate"),
    Cell::Text("digest1"),
    Cell::Text("digest2"),
    Cell::Text("back"),
    Cell::Text("forth"),
    Cell::Text("back_cut"),
    Cell::Text("forth_cut"),
];

/// Writes the header of the trace, the names of its columns, and flushes. An error is
/// lack of memory (`OutOfMemory`), before anything is written, or that the sink failed (`WriteFailed`).
pub fn trace_header<W: Sink>(alloc: Global, writer: &mut W) -> Result<(), Fault>
    ensures { WritesText W.Sink writer.old writer.new trace_header_line result }
{
    write_line(alloc, writer, &HEADER)
}

/// Writes the rows of one round, one for each exchange of its list, in order, and flushes. All rows
/// are made in memory first, and none for a sink that drops all. An error is
/// lack of memory (`OutOfMemory`), before anything is written, or that the sink failed (`WriteFailed`).
pub fn write_trace_rows<W: Sink>(
    alloc: Global,
    writer: &mut W,
    round: u32,
    list: &RoundList,
    records: &[Record],
) -> Result<(), Fault>
    requires one_each { length records.now ≡ length list.now.exchanges }
    ensures { WritesText W.Sink writer.old writer.new (trace_lines round list.now.exchanges records.now) result }
{
    if writer.drops_all() {
        return Ok(());
    }
    let rows = make_rows(alloc, round, list.exchanges(), records)?;
    write_text(writer, rows.as_slice())
}

// The rows of exchanges with their records, which have the places 0 and up.
fn make_rows(
    alloc: Global,
    round: u32,
    exchanges: &[Exchange],
    records: &[Record],
) -> Result<Vec<u8>, Fault>
    requires one_each { length records.now ≡ length exchanges.now }
    requires few { length exchanges.now ≤ MOST_EXCHANGES }
    ensures rows { IfOk result (λ rows. rows.items ≡ trace_lines round exchanges.now records.now) }
    ensures only { IsOkUnless result Fault.OutOfMemory }
{
    let mut lines = WriterBuilder::new().from_writer(Vec::new(alloc));
    for (index, exchange) in exchanges.iter().enumerate() {
        let cells = cells_of(round, index, exchange, &records[index]);
        put_line(alloc, &mut lines, &cells)?;
    }
    bytes_of(lines)
}

// The cells of a row.
fn cells_of(
    round: u32,
    index: usize,
    exchange: &Exchange,
    sent: &Record,
) -> [Cell<'static>; COLUMNS]
    ensures plain { IsTrue (list_all is_plain_cell result) }
    ensures line { line_of (map cell_text result) ≡ trace_line round index exchange.now sent.now }
{
    [
        Cell::Number(round.into()),
        Cell::Number(index as u64),
        Cell::Number(exchange.initiator.into()),
        Cell::Number(exchange.responder.into()),
        Cell::Text(name(sent.fate)),
        Cell::Number(sent.digest1.into()),
        Cell::Number(sent.digest2.into()),
        Cell::Number(sent.back.into()),
        Cell::Number(sent.forth.into()),
        Cell::Number(sent.back_cut.into()),
        Cell::Number(sent.forth_cut.into()),
    ]
}

fn name(fate: Fate) -> &'static str
    ensures name { result.now ≡ fate_name fate }
    ensures plain { IsTrue (is_plain result.now) }
{
    match fate {
        Fate::Ok => "ok",
        Fate::Lost1 => "lost1",
        Fate::Lost2 => "lost2",
        Fate::Lost3 => "lost3",
    }
}
