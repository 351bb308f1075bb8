//! What the exchanges of small lists wait for.

use crate::tests::comparing::{check, expect, expect_at};
use crate::tests::exchange_lists::{CROSSING, PAIR, TWICE, between, list_of};
use planner::{After, Deps, Schedule};
use std::alloc::AllocGlobal;
use std::process::Abort;

// By what is finished, whether the second exchange of a pair may start.
const STARTS_OF_THE_SECOND: &[(&[u32], bool)] = &[(&[], false), (&[0], true)];

// By what is finished, whether the last exchange of a crossing list may start.
const STARTS_OF_THE_LAST: &[(&[u32], bool)] = &[
    (&[], false),
    (&[0], false),
    (&[1], false),
    (&[0, 1], true),
];

fn deps_of(rt: &(impl Abort + AllocGlobal), nodes: u32, pairs: &[(u32, u32)]) -> Deps {
    let list = list_of(rt, nodes, pairs);
    Deps::new(rt.alloc(), &list).expect(rt, "memory")
}

pub(crate) fn schedule_of(
    rt: &(impl Abort + AllocGlobal),
    nodes: u32,
    pairs: &[(u32, u32)],
) -> Schedule {
    let deps = deps_of(rt, nodes, pairs);
    Schedule::new(rt.alloc(), deps).expect(rt, "memory")
}

// Compares how many each exchange waits for, in list order.
fn expect_pending(rt: &impl Abort, deps: &Deps, wanted: &[u32]) {
    assert_eq!(rt; deps.len() as usize, wanted.len());
    for i in 0..deps.len() {
        expect_at(rt, deps.pending(i), wanted[i as usize], i);
    }
}

// Compares that, which exchanges wait for the first one, and which wait for none.
fn expect_deps(
    rt: &impl Abort,
    deps: &Deps,
    pending: &[u32],
    after: (Option<u32>, Option<u32>),
    ready: &[u32],
) {
    expect_pending(rt, deps, pending);
    check!(rt; deps.len() > 0);
    let (first, second) = after;
    expect(rt, deps.after(0), After { first, second });
    expect(rt, deps.first_ready(), ready);
}

// Compares whether an exchange may start once these others, and no more, are finished.
fn expect_start(rt: &impl Abort, mut schedule: Schedule, finished: &[u32], i: u32, wanted: bool) {
    for earlier in finished {
        expect_at(rt, schedule.start(*earlier), Ok(()), *earlier);
        expect_at(rt, schedule.finish(*earlier), Ok(()), *earlier);
    }
    expect_at(rt, schedule.may_start(i), wanted, finished);
}

#[test]
fn two_nodes_that_meet_twice(rt: HostRuntime) {
    let deps = deps_of(&rt, 2, PAIR);
    expect_deps(&rt, &deps, &[0, 1], (Some(1), None), &[0]);
    check!(&rt; deps.len() == 2);
    expect(&rt, deps.exchange(1), between(1, 0));
    for (finished, starts) in STARTS_OF_THE_SECOND {
        expect_start(&rt, schedule_of(&rt, 2, PAIR), finished, 1, *starts);
    }
}

// The last exchange waits for the first two, for both of them, and for no other.
#[test]
fn dependencies_of_a_crossing_list(rt: HostRuntime) {
    let deps = deps_of(&rt, 4, CROSSING);
    expect_deps(&rt, &deps, &[0, 0, 2, 2], (Some(3), Some(2)), &[0, 1]);
    for (finished, starts) in STARTS_OF_THE_LAST {
        expect_start(&rt, schedule_of(&rt, 4, CROSSING), finished, 3, *starts);
    }
}

#[test]
fn two_pairs_that_meet_twice(rt: HostRuntime) {
    expect_pending(&rt, &deps_of(&rt, 4, TWICE), &[0, 0, 1, 1]);
}

#[test]
fn ring_of_four(rt: HostRuntime) {
    let deps = deps_of(&rt, 4, &[(0, 1), (1, 2), (2, 3), (3, 0)]);
    expect_pending(&rt, &deps, &[0, 1, 1, 2]);
}
