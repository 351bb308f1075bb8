//! Deltas by hand: what is sent of one table in each mode.

use crate::tests::comparing::{check, expect_at};
use crate::tests::table_fixtures::{Turn, expect_mark, item, lawful, new_table, take};
use bench_types::{Budget, Item, Mode};
use node_table::NodeTable;
use reconcile::{Delta, Digest, delta};
use std::alloc::Global;
use std::process::Abort;

const NODES: u32 = 4;

/// One owner's versions 3 and 5 and another's version 1.
pub(crate) const OLD: Item = item!(1, 0, 3, 0, 2);

pub(crate) const NEW: Item = item!(1, 1, 5, 0, 3);

const OTHER: Item = item!(2, 0, 1, 0, 1);

// In which order each mode sends them.
const ORDERS: [(Mode, [Item; 3]); 4] = [
    (Mode::ScuttleBreadth, [OLD, OTHER, NEW]),
    (Mode::ScuttleDepth, [OLD, NEW, OTHER]),
    (Mode::PreciseOldest, [OTHER, OLD, NEW]),
    (Mode::PreciseNewest, [NEW, OLD, OTHER]),
];

/// The table of node 3 that holds those entries.
pub(crate) fn sender(rt: &impl Abort, alloc: Global) -> NodeTable {
    let mut table = new_table(rt, alloc, 3, NODES, 2);
    take(rt, &mut table, &[OLD, NEW, OTHER]);
    table
}

/// What one table's node sends in answer to the digest of the other's.
pub(crate) fn answer(
    rt: &impl Abort,
    alloc: Global,
    from: &NodeTable,
    to: &NodeTable,
    turn: Turn,
) -> Delta {
    check!(rt; from.nodes() == to.nodes() && from.keys() == to.keys());
    check!(rt; to.node() < from.nodes() && turn.rotation < from.nodes());
    let (mode, rotation, budget) = (turn.mode, turn.rotation, lawful(rt, turn.budget));
    let digest = Digest::of(alloc, to, mode).expect(rt, "memory");
    delta(alloc, from, &digest, to.node(), mode, rotation, budget).expect(rt, "memory")
}

// Compares what the sender sends to the empty table of node 0, and how many entries it cuts.
fn expect_sent(rt: &impl Abort, alloc: Global, turn: Turn, items: &[Item], cut: u32) {
    let to = new_table(rt, alloc, 0, NODES, 2);
    let delta = answer(rt, alloc, &sender(rt, alloc), &to, turn);
    expect_at(rt, delta.items(), items, "sent");
    expect_at(rt, delta.cut(), cut, "cut");
}

/// The order of a mode with no rotation, and so many entries.
pub(crate) fn unturned(mode: Mode, budget: u32) -> Turn {
    Turn {
        mode,
        rotation: 0,
        budget: Budget::Entries(budget),
    }
}

#[test]
fn one_delta_in_four_orders(rt: HostRuntime) {
    for (mode, [first, second, _third]) in ORDERS {
        expect_sent(&rt, rt.alloc(), unturned(mode, 2), &[first, second], 1);
    }
    expect_scuttle_digest(&rt, rt.alloc());
    expect_precise_digest(&rt, rt.alloc());
}

fn expect_scuttle_digest(rt: &impl Abort, alloc: Global) {
    let from = sender(rt, alloc);
    let digest = Digest::of(alloc, &from, Mode::ScuttleDepth).expect(rt, "memory");
    check!(rt; from.nodes() == 4);
    expect_at(rt, digest.size(), 2, "size");
    expect_mark(rt, "greatest of 0", digest.greatest(0), (0, 0));
    expect_mark(rt, "greatest of 1", digest.greatest(1), (0, 5));
}

fn expect_precise_digest(rt: &impl Abort, alloc: Global) {
    let from = sender(rt, alloc);
    let digest = Digest::of(alloc, &from, Mode::PreciseOldest).expect(rt, "memory");
    check!(rt; from.nodes() == 4 && from.keys() == 2);
    expect_at(rt, digest.size(), 3, "size");
    expect_mark(rt, "mark of 1 0", digest.version(1, 0), (0, 3));
    expect_mark(rt, "mark of 2 1", digest.version(2, 1), (0, 0));
}

#[test]
fn rotation_turns_the_order(rt: HostRuntime) {
    for (rotation, first) in [(0, OLD), (2, OTHER)] {
        let turn = Turn {
            mode: Mode::ScuttleBreadth,
            rotation,
            budget: Budget::Entries(1),
        };
        expect_sent(&rt, rt.alloc(), turn, &[first], 2);
    }
}

#[test]
fn budget_cuts_the_rest(rt: HostRuntime) {
    for (mode, order) in ORDERS {
        let [first, second, _third] = order;
        expect_sent(&rt, rt.alloc(), unturned(mode, 3), &order, 0);
        expect_sent(&rt, rt.alloc(), unturned(mode, 2), &[first, second], 1);
        expect_sent(&rt, rt.alloc(), unturned(mode, 65535), &order, 0);
    }
}

// Those entries with the largest one in the middle, and with so many bytes in a message what is sent of
// them, and how many are cut.
const LARGE: Item = item!(1, 1, 5, 999, 3);

const BYTES: [(Mode, u32, &[Item], u32); 6] = [
    (Mode::ScuttleBreadth, 1023, &[OLD, OTHER], 1),
    (Mode::ScuttleBreadth, 1070, &[OLD, OTHER], 1),
    (Mode::ScuttleBreadth, 1071, &[OLD, OTHER, LARGE], 0),
    (Mode::ScuttleDepth, 1023, &[OLD], 2),
    (Mode::PreciseOldest, 1070, &[OTHER, OLD], 1),
    (Mode::PreciseNewest, 1046, &[LARGE], 2),
];

#[test]
fn byte_budget_delta(rt: HostRuntime) {
    let alloc = rt.alloc();
    let mut from = new_table(&rt, alloc, 3, NODES, 2);
    take(&rt, &mut from, &[OLD, LARGE, OTHER]);
    let to = new_table(&rt, alloc, 0, NODES, 2);
    for (mode, bytes, items, cut) in BYTES {
        let turn = Turn {
            mode,
            rotation: 0,
            budget: Budget::Bytes(bytes),
        };
        let delta = answer(&rt, alloc, &from, &to, turn);
        expect_at(&rt, delta.items(), items, "sent");
        expect_at(&rt, delta.cut(), cut, "cut");
    }
}

// The version that is held, 0 for none.
fn version_of(table: &NodeTable, owner: u32, key: u32) -> u32 {
    match table.get(owner, key) {
        Some(entry) => entry.version,
        None => 0,
    }
}

// Compares the versions that an empty table holds of the two keys of owner 1 after one entry was sent.
fn expect_first(rt: &impl Abort, alloc: Global, mode: Mode, versions: [u32; 2]) {
    let mut to = new_table(rt, alloc, 0, NODES, 2);
    let delta = answer(rt, alloc, &sender(rt, alloc), &to, unturned(mode, 1));
    take(rt, &mut to, delta.items());
    let held = [version_of(&to, 1, 0), version_of(&to, 1, 1)];
    expect_at(rt, held, versions, mode);
}

#[test]
fn precise_newest_leaves_a_gap(rt: HostRuntime) {
    expect_first(&rt, rt.alloc(), Mode::PreciseNewest, [0, 5]);
    expect_first(&rt, rt.alloc(), Mode::ScuttleBreadth, [3, 0]);
    expect_first(&rt, rt.alloc(), Mode::ScuttleDepth, [3, 0]);
}
