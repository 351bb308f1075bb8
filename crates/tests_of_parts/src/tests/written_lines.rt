//! Lines that are written to memory.

use crate::tests::comparing::{check, expect, expect_at};
use crate::tests::exchange_lists::{PAIR, list_of};
use bench_types::{Fate, Mode, Push, Record, Row};
use fixtures::row;
use report::{
    compare_header, report_header, trace_header, write_compare_row, write_report_row,
    write_trace_rows,
};
use std::alloc::AllocGlobal;
use std::process::Abort;

const TRACE_HEADER: &[u8] =
    b"round,index,initiator,responder,fate,digest1,digest2,back,forth,back_cut,forth_cut\n";

// The row of a run of two nodes with one key and one write each.
const TWO_NODES: Row = row!(round: 1, exchanges: 2, entries: 2, leftover: 7);

// The trace of that run.
const TWO_NODES_TRACE: &[u8] = b"1,0,0,1,ok,1,1,1,1,0,0\n1,1,1,0,ok,2,2,0,0,0,0\n";

// What was sent where no entry was cut: the sizes of the digests, and the entries back and forth.
fn sent(fate: Fate, digests: (u32, u32), entries: (u32, u32)) -> Record {
    Record {
        digest1: digests.0,
        digest2: digests.1,
        back: entries.0,
        forth: entries.1,
        back_cut: 0,
        forth_cut: 0,
        fate,
    }
}

// The records of that trace.
fn two_nodes_records() -> [Record; 2] {
    [
        sent(Fate::Ok, (1, 1), (1, 1)),
        sent(Fate::Ok, (2, 2), (0, 0)),
    ]
}

// Compares the row of a report, behind its header or alone, with this text.
fn expect_report(
    rt: &(impl Abort + AllocGlobal),
    format: u32,
    with_header: bool,
    row: &Row,
    text: &[u8],
) {
    check!(rt; format == 1 || format == 2);
    let mut report = Push::new(Vec::new(rt.alloc()));
    if with_header {
        expect(rt, report_header(rt.alloc(), &mut report, format), Ok(()));
    }
    let answer = write_report_row(rt.alloc(), &mut report, format, row);
    expect(rt, answer, Ok(()));
    expect(rt, report.into_inner().as_slice(), text);
}

// Compares the rows of two nodes that each begin an exchange in a round with this text.
fn expect_trace(rt: &(impl Abort + AllocGlobal), round: u32, records: &[Record; 2], text: &[u8]) {
    let list = list_of(rt, 2, PAIR);
    check!(rt; list.len() == 2);
    let mut trace = Push::new(Vec::new(rt.alloc()));
    let answer = write_trace_rows(rt.alloc(), &mut trace, round, &list, records);
    expect(rt, answer, Ok(()));
    expect(rt, trace.into_inner().as_slice(), text);
}

#[test]
fn two_nodes(rt: HostRuntime) {
    let text = b"round,exchanges,unreached,lost,entries,cut,stale,greatest\n1,2,0,0,2,0,0,0\n";
    expect_report(&rt, 1, true, &TWO_NODES, text);
    let text =
        b"round,exchanges,unreached,lost,entries,cut,stale,greatest,leftover\n1,2,0,0,2,0,0,0,7\n";
    expect_report(&rt, 2, true, &TWO_NODES, text);
}

#[test]
fn greatest_numbers(rt: HostRuntime) {
    let row = Row {
        round: 100_000,
        exchanges: u32::MAX,
        unreached: u32::MAX - 1,
        lost: u32::MAX - 2,
        entries: u64::MAX,
        cut: u64::MAX - 1,
        stale: u64::MAX - 2,
        greatest: u32::MAX - 3,
        leftover: u64::MAX - 4,
    };
    let text = b"100000,4294967295,4294967294,4294967293,18446744073709551615,18446744073709551614,\
        18446744073709551613,4294967292\n";
    expect_report(&rt, 1, false, &row, text);
    let text = b"100000,4294967295,4294967294,4294967293,18446744073709551615,18446744073709551614,\
        18446744073709551613,4294967292,18446744073709551611\n";
    expect_report(&rt, 2, false, &row, text);
}

#[test]
fn trace_of_two_nodes(rt: HostRuntime) {
    let mut trace = Push::new(Vec::new(rt.alloc()));
    expect(&rt, trace_header(rt.alloc(), &mut trace), Ok(()));
    expect(&rt, trace.into_inner().as_slice(), TRACE_HEADER);
    expect_trace(&rt, 1, &two_nodes_records(), TWO_NODES_TRACE);
}

#[test]
fn every_message_lost(rt: HostRuntime) {
    let record = sent(Fate::Lost1, (1, 0), (0, 0));
    let text = b"1,0,0,1,lost1,1,0,0,0,0,0\n1,1,1,0,lost1,1,0,0,0,0,0\n";
    expect_trace(&rt, 1, &[record, record], text);
}

#[test]
fn lost_messages_of_one_exchange(rt: HostRuntime) {
    let second = sent(Fate::Lost2, (1, 1), (1, 0));
    let third = Record {
        forth_cut: u32::MAX,
        ..sent(Fate::Lost3, (1, 1), (1, 1))
    };
    let text = b"100000,0,0,1,lost2,1,1,1,0,0,0\n100000,1,1,0,lost3,1,1,1,1,0,4294967295\n";
    expect_trace(&rt, 100_000, &[second, third], text);
}

// Compares the comparison of two nodes with this text.
fn expect_comparison(rt: &(impl Abort + AllocGlobal), format: u32, text: &[u8]) {
    check!(rt; format == 1 || format == 2);
    let mut comparison = Push::new(Vec::new(rt.alloc()));
    let answer = compare_header(rt.alloc(), &mut comparison, format);
    expect(rt, answer, Ok(()));
    for mode in Mode::ALL {
        let answer = write_compare_row(rt.alloc(), &mut comparison, format, mode, &TWO_NODES);
        expect_at(rt, answer, Ok(()), mode);
    }
    expect(rt, comparison.into_inner().as_slice(), text);
}

#[test]
fn comparison_of_two_nodes(rt: HostRuntime) {
    expect_comparison(
        &rt,
        1,
        b"mode,round,exchanges,unreached,lost,entries,cut,stale,greatest\n\
        scuttle-breadth,1,2,0,0,2,0,0,0\n\
        scuttle-depth,1,2,0,0,2,0,0,0\n\
        precise-oldest,1,2,0,0,2,0,0,0\n\
        precise-newest,1,2,0,0,2,0,0,0\n",
    );
    expect_comparison(
        &rt,
        2,
        b"mode,round,exchanges,unreached,lost,entries,cut,stale,greatest,leftover\n\
        scuttle-breadth,1,2,0,0,2,0,0,0,7\n\
        scuttle-depth,1,2,0,0,2,0,0,0,7\n\
        precise-oldest,1,2,0,0,2,0,0,0,7\n\
        precise-newest,1,2,0,0,2,0,0,0,7\n",
    );
}
