//! The lines of the report, the trace and the comparison.

use crate::failures::{Failure, check, pass, refused, retried};
use bench_types::{Fault, Mode, Push, Record, Row};
use fixtures::{list_of, row, sent};
use report::{
    compare_header, report_header, trace_header, write_compare_row, write_report_row,
    write_trace_rows,
};
use round_plan::RoundList;
use std::alloc::Global;

// What a writer holds at first, and more room than a line takes.
const HELD: &[u8] = b"held\n";

const ROOM: usize = 200;

// The row and the records of two nodes that write one key once.
const ROW: Row = row!(round: 1, exchanges: 2, entries: 2);

const RECORDS: [Record; 2] = [sent!(1, 1, 1, 1, 0, 0), sent!(2, 2, 0, 0, 0, 0)];

#[derive(Clone, Copy)]
enum Line {
    ReportHeader,
    ReportRow,
    TraceHeader,
    TraceRows,
    CompareHeader,
    CompareRow,
}

// Each call, by its name, and what stands then behind what was held.
const LINES: [(Line, &str, &[u8]); 6] = [
    (
        Line::ReportHeader,
        "report_header",
        b"held\nround,exchanges,unreached,lost,entries,cut,stale,greatest\n",
    ),
    (
        Line::ReportRow,
        "write_report_row",
        b"held\n1,2,0,0,2,0,0,0\n",
    ),
    (
        Line::TraceHeader,
        "trace_header",
        b"held\nround,index,initiator,responder,fate,digest1,digest2,back,forth,back_cut,forth_cut\n",
    ),
    (
        Line::TraceRows,
        "write_trace_rows",
        b"held\n1,0,0,1,ok,1,1,1,1,0,0\n1,1,1,0,ok,2,2,0,0,0,0\n",
    ),
    (
        Line::CompareHeader,
        "compare_header",
        b"held\nmode,round,exchanges,unreached,lost,entries,cut,stale,greatest\n",
    ),
    (
        Line::CompareRow,
        "write_compare_row",
        b"held\nscuttle-breadth,1,2,0,0,2,0,0,0\n",
    ),
];

// Writes a line behind what is held, and answers all that stands there.
fn written(
    alloc: Global,
    line: Line,
    list: &RoundList,
    room: Vec<u8>,
) -> (Result<(), Failure>, Vec<u8>) {
    let mut writer = Push::new(room);
    let done = write(alloc, line, list, &mut writer);
    (done, writer.into_inner())
}

fn write(
    alloc: Global,
    line: Line,
    list: &RoundList,
    writer: &mut Push<Vec<u8>>,
) -> Result<(), Failure> {
    match line {
        Line::ReportHeader => report_header(alloc, writer, 1)?,
        Line::ReportRow => write_report_row(alloc, writer, 1, &ROW)?,
        Line::TraceHeader => trace_header(alloc, writer)?,
        Line::TraceRows => {
            check(list.len() == 2)?;
            write_trace_rows(alloc, writer, 1, list, &RECORDS)?;
        }
        Line::CompareHeader => compare_header(alloc, writer, 1)?,
        Line::CompareRow => write_compare_row(alloc, writer, 1, Mode::ScuttleBreadth, &ROW)?,
    }
    Ok(())
}

// Room for a line behind what is held.
fn held(alloc: Global) -> Result<Vec<u8>, Fault> {
    let mut room = Vec::with_capacity(alloc, ROOM)?;
    room.extend_from_slice(HELD)?;
    Ok(room)
}

fn try_line<R: Eprint + AllocGlobal>(
    rt: &R,
    list: &RoundList,
    (line, name, wanted): (Line, &'static str, &'static [u8]),
) -> Result<(), Failure> {
    let alloc = rt.alloc();
    let room = retried!(rt, "room", held(alloc));
    let (mut done, mut text) = written(alloc, line, list, room);
    if let Err(failure) = done {
        refused(rt, name, failure)?;
        check(text.starts_with(HELD))?;
        (done, text) = written(alloc, line, list, held(alloc)?);
    }
    done?;
    check(text.as_slice() == wanted)
}

pub(crate) fn try_lines<R: Print + Eprint + AllocGlobal>(rt: &R) -> Result<(), Failure> {
    let alloc = rt.alloc();
    let list = retried!(rt, "RoundList::of", list_of(alloc, 2, &[(0, 1), (1, 0)]));
    try_all(rt, &list)
}

fn try_all<R: Print + Eprint + AllocGlobal>(rt: &R, list: &RoundList) -> Result<(), Failure> {
    for (line, name, wanted) in LINES {
        try_line(rt, list, (line, name, wanted))?;
        pass(rt, name)?;
    }
    Ok(())
}
