//! Nodes that forgot: what their tables hold, and which of two generations is sent and kept.

use crate::tests::comparing::{check, expect_at};
use crate::tests::deltas::answer;
use crate::tests::table_fixtures::{
    Turn, expect_entries, expect_held, expect_mark, forget, item, new_table, take, write,
};
use bench_types::{Budget, Item, Mark, Mode};
use node_table::NodeTable;
use reconcile::Digest;
use std::alloc::Global;
use std::process::Abort;

const OLDER: Item = item!(1, 1, 5, 0, 3);

const NEWER: Item = item!(1, 0, generation 1, 1, 0, 4);

// The table of a node of four with two keys that holds an entry.
fn holder(rt: &impl Abort, alloc: Global, node: u32, held: Item) -> NodeTable {
    check!(rt; node < 4);
    let mut table = new_table(rt, alloc, node, 4, 2);
    take(rt, &mut table, &[held]);
    table
}

// Compares what node 2, which holds one of the two, sends to node 0, which holds the other, and what that then
// holds. Nothing is cut.
fn expect_taken(rt: &impl Abort, alloc: Global, mode: Mode, held: [Item; 2], sent: &[Item]) {
    let [from, to] = held;
    let mut receiver = holder(rt, alloc, 0, to);
    let turn = Turn {
        mode,
        rotation: 0,
        budget: Budget::Bytes(1023),
    };
    let delta = answer(rt, alloc, &holder(rt, alloc, 2, from), &receiver, turn);
    expect_at(rt, delta.items(), sent, "sent");
    expect_at(rt, delta.cut(), 0, "cut");
    take(rt, &mut receiver, delta.items());
    expect_held(rt, "taken", &receiver, &[NEWER]);
}

#[test]
fn newer_generation_wins(rt: HostRuntime) {
    for mode in Mode::ALL {
        expect_taken(&rt, rt.alloc(), mode, [OLDER, NEWER], &[]);
        expect_taken(&rt, rt.alloc(), mode, [NEWER, OLDER], &[NEWER]);
    }
    let mut receiver = holder(&rt, rt.alloc(), 0, NEWER);
    take(&rt, &mut receiver, &[OLDER]);
    expect_held(&rt, "after the older", &receiver, &[NEWER]);
}

const OWN: [Item; 2] = [item!(0, 0, 1, 10, 1), item!(0, 1, 2, 11, 1)];

const FIRST: Item = item!(1, 0, 4, 20, 1);

const THIRD: Item = item!(3, 1, generation 2, 1, 30, 1);

const OTHERS: [Item; 2] = [FIRST, THIRD];

const AGAIN: Item = item!(0, 1, generation 1, 1, 12, 2);

// Compares what is left where a node has forgotten so often: nothing, but for the room.
fn expect_forgotten(rt: &impl Abort, table: &NodeTable, times: u32) {
    check!(rt; table.nodes() == 4);
    expect_held(rt, "forgotten", table, &[]);
    expect_at(rt, table.generation(), times, "generation");
    for owner in 0..4 {
        expect_mark(rt, "greatest", table.greatest(owner), (0, 0));
        check!(rt; table.entries_of(owner).is_empty());
    }
    check!(rt; table.may_apply(&OTHERS));
}

// The next write has version 1 of the new generation, and a restart that keeps it keeps the generation.
#[test]
fn forgetting_all(rt: HostRuntime) {
    let mut table = new_table(&rt, rt.alloc(), 0, 4, 2);
    for item in OWN {
        write(&rt, &mut table, item.entry);
    }
    take(&rt, &mut table, &OTHERS);
    expect_at(&rt, table.generation(), 0, "generation");
    forget(&rt, &mut table, 1);
    expect_forgotten(&rt, &table, 1);
    write(&rt, &mut table, AGAIN.entry);
    expect_held(&rt, "written again", &table, &[AGAIN]);
    table.forget_others();
    expect_at(&rt, table.generation(), 1, "generation");
    forget(&rt, &mut table, 1);
    expect_forgotten(&rt, &table, 2);
}

const LAST: Item = item!(1, 0, 9, 1, 3);

const NEXT: Item = item!(1, 1, generation 1, 2, 3, 5);

// Entries of one owner as they come, and its row then: one of a newer generation stands alone at first.
const ENTERING: [(Item, &[Item]); 5] = [
    (OLDER, &[OLDER]),
    (LAST, &[OLDER, LAST]),
    (NEWER, &[NEWER]),
    (item!(1, 0, 10, 2, 5), &[NEWER]),
    (NEXT, &[NEWER, NEXT]),
];

// What of the last row is above a mark, which compares by the generation first.
const ABOVE: [((u32, u32), &[Item]); 6] = [
    ((0, 0), &[NEWER, NEXT]),
    ((0, 9), &[NEWER, NEXT]),
    ((1, 0), &[NEWER, NEXT]),
    ((1, 1), &[NEXT]),
    ((1, 2), &[]),
    ((2, 0), &[]),
];

fn expect_row(rt: &impl Abort, table: &NodeTable, row: &[Item]) {
    check!(rt; table.nodes() == 4);
    expect_entries(rt, "row", table.entries_of(1), row);
}

fn expect_above(rt: &impl Abort, table: &NodeTable) {
    check!(rt; table.nodes() == 4);
    for ((generation, version), entries) in ABOVE {
        let mark = Mark {
            generation,
            version,
        };
        expect_entries(rt, "above", table.above(1, mark), entries);
    }
}

#[test]
fn entries_above_a_mark(rt: HostRuntime) {
    let mut table = new_table(&rt, rt.alloc(), 0, 4, 2);
    for (item, row) in ENTERING {
        take(&rt, &mut table, &[item]);
        expect_row(&rt, &table, row);
    }
    expect_above(&rt, &table);
}

// What node 0 holds in generation 1, and its greatest mark of each owner and that of each key.
const HELD: [Item; 3] = [AGAIN, FIRST, THIRD];

const GREATEST: [(u32, u32); 4] = [(1, 1), (0, 4), (0, 0), (2, 1)];

const MARKS: [[(u32, u32); 2]; 4] = [
    [(0, 0), (1, 1)],
    [(0, 4), (0, 0)],
    [(0, 0), (0, 0)],
    [(0, 0), (2, 1)],
];

#[test]
fn digests_of_generations(rt: HostRuntime) {
    let alloc = rt.alloc();
    let mut table = new_table(&rt, alloc, 0, 4, 2);
    forget(&rt, &mut table, 1);
    write(&rt, &mut table, AGAIN.entry);
    take(&rt, &mut table, &OTHERS);
    expect_held(&rt, "held", &table, &HELD);
    expect_scuttle(&rt, alloc, &table);
    expect_precise(&rt, alloc, &table);
}

fn expect_scuttle(rt: &impl Abort, alloc: Global, table: &NodeTable) {
    let digest = Digest::of(alloc, table, Mode::ScuttleBreadth).expect(rt, "memory");
    check!(rt; table.nodes() == 4);
    expect_at(rt, digest.size(), 3, "size");
    for owner in 0..4 {
        let mark = digest.greatest(owner);
        expect_mark(rt, "greatest", mark, GREATEST[owner as usize]);
        check!(rt; digest.generation(owner) == mark.generation);
    }
}

fn expect_precise(rt: &impl Abort, alloc: Global, table: &NodeTable) {
    let digest = Digest::of(alloc, table, Mode::PreciseNewest).expect(rt, "memory");
    check!(rt; table.nodes() == 4 && table.keys() == 2);
    expect_at(rt, digest.size(), 3, "size");
    for owner in 0..4 {
        let (generation, _version) = GREATEST[owner as usize];
        expect_at(rt, digest.generation(owner), generation, "generation");
        for key in 0..2 {
            let mark = digest.version(owner, key);
            expect_mark(rt, "mark", mark, MARKS[owner as usize][key as usize]);
        }
    }
}
