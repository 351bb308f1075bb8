//! Schedules of lists of four nodes, carried out.

use crate::tests::comparing::{check, expect, expect_at};
use crate::tests::exchange_lists::{CROSSING, TWICE, list_of};
use bench_types::{Budget, Fate, Fault, Mode, Record, Rules};
use fixtures::{WRITTEN, Writers, tables_of};
use node_table::NodeTable;
use planner::Event::{self, Finish, Start};
use planner::play;
use round_plan::RoundList;
use std::alloc::AllocGlobal;
use std::process::Abort;

const CROSSING_EVENTS: &[Event] = &[
    Start(1),
    Start(0),
    Finish(0),
    Finish(1),
    Start(3),
    Start(2),
    Finish(2),
    Finish(3),
];

const TWICE_EVENTS: &[Event] = &[
    Start(0),
    Finish(0),
    Start(2),
    Start(1),
    Finish(2),
    Finish(1),
    Start(3),
    Finish(3),
];

// Schedules of the crossing list that are refused, and by which fault.
const REFUSED: &[(&[Event], Fault)] = &[
    (&[Start(0), Finish(0), Start(2)], Fault::NotAllowed),
    (&[Finish(0)], Fault::NotRunning),
    (&[], Fault::Unfinished),
    (&[Start(4)], Fault::NotAllowed),
];

// Plays a schedule of a list of four nodes, each of which has written its one key once, in scuttle-breadth with a
// budget for all entries.
fn played(
    rt: &(impl Abort + AllocGlobal),
    list: &RoundList,
    events: &[Event],
) -> Result<(Vec<NodeTable>, Vec<Record>), Fault> {
    check!(rt; list.nodes() == 4);
    let rules = Rules {
        mode: Mode::ScuttleBreadth,
        budget: Budget::Entries(10),
    };
    let tables = tables_of(rt.alloc(), Writers::all(4, 1))?;
    play(rt.alloc(), list, tables, events, &rules)
}

// An exchange in which nothing is lost or cut: the size of either digest, and the entries each way.
fn whole(digest: u32, entries: u32) -> Record {
    Record {
        digest1: digest,
        digest2: digest,
        back: entries,
        forth: entries,
        back_cut: 0,
        forth_cut: 0,
        fate: Fate::Ok,
    }
}

// Compares all that a table holds: what these owners have written.
fn expect_owners(rt: &impl Abort, table: &NodeTable, owners: &[u32]) {
    for owner in owners {
        expect_at(rt, table.get(*owner, 0), Some(WRITTEN), table.node());
    }
    expect(rt, table.count() as usize, owners.len());
}

// Plays a schedule, and compares the records, in list order, and by node the owners of what it then holds.
fn expect_play(
    rt: &(impl Abort + AllocGlobal),
    list: &RoundList,
    events: &[Event],
    records: [Record; 4],
    owners: [&[u32]; 4],
) {
    let (tables, found) = played(rt, list, events).expect(rt, "a whole play");
    expect(rt, found.as_slice(), &records);
    expect(rt, tables.len(), 4);
    for (table, owners) in tables.iter().zip(owners) {
        expect_owners(rt, table, owners);
    }
}

#[test]
fn play_of_a_crossing_list(rt: HostRuntime) {
    let list = list_of(&rt, 4, CROSSING);
    let records = [whole(1, 1), whole(1, 1), whole(2, 2), whole(2, 2)];
    expect_play(&rt, &list, CROSSING_EVENTS, records, [&[0, 1, 2, 3]; 4]);
}

#[test]
fn records_stand_in_list_order(rt: HostRuntime) {
    let list = list_of(&rt, 4, TWICE);
    let records = [whole(1, 1), whole(1, 1), whole(2, 0), whole(2, 0)];
    let (even, odd) = ([0, 2].as_slice(), [1, 3].as_slice());
    expect_play(&rt, &list, TWICE_EVENTS, records, [even, odd, even, odd]);
}

#[test]
fn unlawful_and_unfinished_schedules(rt: HostRuntime) {
    let list = list_of(&rt, 4, CROSSING);
    for (events, fault) in REFUSED {
        let refused = played(&rt, &list, events).err();
        expect_at(&rt, refused.as_ref(), Some(fault), *events);
    }
}
