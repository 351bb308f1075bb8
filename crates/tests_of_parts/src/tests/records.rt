//! Records that come in another order than they go out.

use crate::tests::comparing::{check, expect};
use bench_types::{Fate, Fault, Record};
use collector::{Collector, Stamped};
use std::process::Abort;

// The record of an exchange in which this many entries were sent back.
fn stamped(index: u32, back: u32) -> Stamped {
    let outcome = Record {
        digest1: 2,
        digest2: 2,
        back,
        forth: 0,
        back_cut: 0,
        forth_cut: 0,
        fate: Fate::Ok,
    };
    Stamped { index, outcome }
}

// Compares the answer to a record.
fn expect_put(
    rt: &impl Abort,
    collector: &mut Collector,
    index: u32,
    back: u32,
    wanted: Result<(), Fault>,
) {
    let answer = collector.put(stamped(index, back));
    expect(rt, answer, wanted);
}

// A record is missing: compares the fault, and gives the collector back.
fn expect_missing(rt: &impl Abort, collector: Collector, index: u32) -> Collector {
    let Err((fault, collector)) = collector.finish() else {
        panic!(rt; "a record is missing");
    };
    expect(rt, fault, Fault::NoRecord(index));
    collector
}

// No record is missing: compares them all.
fn expect_finished(rt: &impl Abort, collector: Collector, wanted: &[Record]) {
    let Ok(records) = collector.finish() else {
        panic!(rt; "no record is missing");
    };
    expect(rt, records.as_slice(), wanted);
}

#[test]
fn collector_of_two(rt: HostRuntime) {
    let mut collector = Collector::new(rt.alloc(), 2).expect(&rt, "memory");
    check!(&rt; collector.len() == 2);
    expect_put(&rt, &mut collector, 1, 1, Ok(()));
    expect_put(&rt, &mut collector, 1, 2, Err(Fault::Double));
    expect_put(&rt, &mut collector, 2, 2, Err(Fault::Stranger));
    let mut collector = expect_missing(&rt, collector, 0);
    expect_put(&rt, &mut collector, 0, 3, Ok(()));
    let in_order = [stamped(0, 3).outcome, stamped(1, 1).outcome];
    expect_finished(&rt, collector, &in_order);
}

#[test]
fn empty_list_has_no_records(rt: HostRuntime) {
    let mut collector = Collector::new(rt.alloc(), 0).expect(&rt, "memory");
    check!(&rt; collector.len() == 0);
    expect_put(&rt, &mut collector, 0, 1, Err(Fault::Stranger));
    expect_finished(&rt, collector, &[]);
}
