//! A node that wrote keys round by round, and another that holds some of their versions: how many of
//! those copies are stale, and since when, and how many are left over where the node forgot.

ghost use Rattle.std.specs.Prelude.{◌≡◌, ℕ, None, Some, ◌+◌, ◌<◌, ◌≤◌};
ghost use Rattle.model.specs.calls.OwnerListView.{written};
ghost use Rattle.model.specs.calls.Writes.{AreBornBy};
ghost use Rattle.tests_of_parts.specs.Missed.{missed, missed_in};

use crate::tests::comparing::{check, expect_at};
use crate::tests::table_fixtures::{item, may_take, new_table};
use bench_types::{Figures, Item};
use node_table::NodeTable;
use staleness::{OwnerList, figures};
use std::alloc::Global;
use std::process::Abort;
use std::thread::Threads;

// A node writes a key in a round, to its table and its list.
fn write_both(rt: &impl Abort, table: &mut NodeTable, list: &mut OwnerList, key: u32, born: u32)
    ensures node { table.new.table.node ≡ table.old.table.node }
    ensures nodes { table.new.table.nodes ≡ table.old.table.nodes }
    ensures keys { table.new.table.keys ≡ table.old.table.keys }
    ensures born { (round : ℕ) → born ≤ round
        → AreBornBy round (written list.old) → AreBornBy round (written list.new) }
{
    check!(rt; key < table.keys());
    check!(rt; list.len() < 1000);
    check!(rt; table.greatest(table.node()).version == list.len());
    let _version = table.write_own(key, 7, born).expect(rt, "memory");
    list.push(key, born).expect(rt, "memory");
}

// A node forgets what is in its table, and begins its next generation in both.
fn forget_both(rt: &impl Abort, table: &mut NodeTable, list: &mut OwnerList)
    ensures node { table.new.table.node ≡ table.old.table.node }
    ensures nodes { table.new.table.nodes ≡ table.old.table.nodes }
    ensures keys { table.new.table.keys ≡ table.old.table.keys }
    ensures born { (round : ℕ) → AreBornBy round (written list.new) }
{
    check!(rt; table.generation() < 1000);
    check!(rt; list.generation() < 1000);
    table.forget_all();
    list.begin_generation();
}

// A node of two that has forgotten so often, each time one write, and then wrote these keys in these rounds, and
// the list of its writes.
fn writer(
    rt: &impl Abort,
    alloc: Global,
    node: u32,
    keys: u32,
    forgets: u32,
    writes: &[(u32, u32)],
    round: u32,
) -> (NodeTable, OwnerList)
    requires node { node < 2 }
    requires some_key { 1 ≤ keys }
    requires keys { keys ≤ 64 }
    ensures node { result.0.table.node ≡ node }
    ensures nodes { result.0.table.nodes ≡ 2 }
    ensures keys { result.0.table.keys ≡ keys }
    ensures born { AreBornBy round (written result.1) }
{
    let mut table = new_table(rt, alloc, node, 2, keys);
    let mut list = OwnerList::new(alloc);
    for _ in 0..forgets {
        write_both(rt, &mut table, &mut list, 0, 0);
        forget_both(rt, &mut table, &mut list);
    }
    for (key, born) in writes {
        check!(rt; *born <= round);
        write_both(rt, &mut table, &mut list, *key, *born);
    }
    (table, list)
}

// Node 1 of two, which wrote nothing in its generation and holds these items.
fn reader(
    rt: &impl Abort,
    alloc: Global,
    keys: u32,
    forgets: u32,
    held: &[Item],
    round: u32,
) -> (NodeTable, OwnerList)
    requires some_key { 1 ≤ keys }
    requires keys { keys ≤ 64 }
    ensures node { result.0.table.node ≡ 1 }
    ensures nodes { result.0.table.nodes ≡ 2 }
    ensures keys { result.0.table.keys ≡ keys }
    ensures born { AreBornBy round (written result.1) }
{
    let (mut table, list) = writer(rt, alloc, 1, keys, forgets, &[], round);
    table.reserve_for(held).expect(rt, "memory");
    check!(rt; may_take(1, 2, keys, held));
    table.apply(held);
    (table, list)
}

// How often nodes 0 and 1 forgot, what node 0 then wrote by the end of a round, what node 1 then holds, how
// many keys of that copy are stale, for how many rounds, and how many are left over.
#[derive(Clone, Copy)]
struct Case {
    forgets: [u32; 2],
    writes: &'static [(u32, u32)],
    round: u32,
    held: &'static [Item],
    stale: u64,
    greatest: u32,
    leftover: u64,
}

// Compares the figures of two nodes with so many keys.
fn expect_stale(rt: &(impl Abort + Threads + Sync), alloc: Global, keys: u32, case: Case)
    requires some_key { 1 ≤ keys }
    requires keys { keys ≤ 64 }
{
    let (round, [first, second]) = (case.round, case.forgets);
    check!(rt; round < 1000);
    let (owner, written) = writer(rt, alloc, 0, keys, first, case.writes, round);
    let (copy, unwritten) = reader(rt, alloc, keys, second, case.held, round);
    let found = figures(rt, alloc, &[owner, copy], &[written, unwritten], round);
    expect_figures(rt, found.expect(rt, "memory"), case);
}

fn expect_figures(rt: &impl Abort, found: Figures, case: Case) {
    let Case {
        stale,
        greatest,
        leftover,
        ..
    } = case;
    let wanted = Figures {
        stale,
        greatest,
        leftover,
    };
    expect_at(rt, found, wanted, "figures");
}

// One key, written in each of three rounds.
const IN_EACH_ROUND: Case = Case {
    forgets: [0, 0],
    writes: &[(0, 1), (0, 2), (0, 3)],
    round: 3,
    held: &[item!(0, 0, 1, 7, 1)],
    stale: 1,
    greatest: 2,
    leftover: 0,
};

const AGES: [Case; 4] = [
    IN_EACH_ROUND,
    Case {
        held: &[item!(0, 0, 3, 7, 3)],
        stale: 0,
        greatest: 0,
        ..IN_EACH_ROUND
    },
    Case {
        held: &[],
        greatest: 3,
        ..IN_EACH_ROUND
    },
    Case {
        writes: &[],
        round: 0,
        held: &[],
        stale: 0,
        greatest: 0,
        ..IN_EACH_ROUND
    },
];

#[test]
fn missed_writes_age_from_the_first(rt: HostRuntime) {
    for case in AGES {
        expect_stale(&rt, rt.alloc(), 1, case);
    }
}

// The first write of a key above a version that is held, by the definition that `figures` is proved
// from: its version and its round.
fn first_missed_of_four_writes()
    ensures key_5_none_held { missed 5 0 ≡ Some (1, 2) }
    ensures key_5_first_held { missed 5 1 ≡ Some (3, 4) }
    ensures key_5_version_of_key_3 { missed 5 2 ≡ Some (3, 4) }
    ensures key_5_third_held { missed 5 3 ≡ Some (4, 7) }
    ensures key_5_last_held { missed 5 4 ≡ None }
    ensures key_3_none_held { missed 3 0 ≡ Some (2, 2) }
    ensures key_3_last_held { missed 3 2 ≡ None }
    ensures key_4_not_written { missed 4 0 ≡ None }
    ensures key_5_above_the_last { missed 5 9 ≡ None }
{}

// The writes of two keys, by key and round.
const WRITES: [(u32, u32); 4] = [(5, 2), (3, 2), (5, 4), (5, 7)];

const AT_ROUND_9: Case = Case {
    forgets: [0, 0],
    writes: &WRITES,
    round: 9,
    held: &[],
    stale: 0,
    greatest: 0,
    leftover: 0,
};

// What is held of them at the end of round 9, how many keys are stale, and for how many rounds. One
// key at most is: the other one is held as it was last written.
const STALE: [(&[Item], u64, u32); 7] = [
    (&[item!(0, 3, 2, 7, 2)], 1, 8),
    (&[item!(0, 3, 2, 7, 2), item!(0, 5, 1, 7, 2)], 1, 6),
    (&[item!(0, 3, 2, 7, 2), item!(0, 5, 2, 7, 2)], 1, 6),
    (&[item!(0, 3, 2, 7, 2), item!(0, 5, 3, 7, 4)], 1, 3),
    (&[item!(0, 3, 2, 7, 2), item!(0, 5, 4, 7, 7)], 0, 0),
    (&[item!(0, 5, 4, 7, 7)], 1, 8),
    (&[item!(0, 3, 2, 7, 2), item!(0, 5, 9, 7, 7)], 0, 0),
];

#[test]
fn a_list_keeps_its_writes(rt: HostRuntime) {
    expect_four_writes(&rt, rt.alloc());
    first_missed_of_four_writes();
    for (held, stale, greatest) in STALE {
        let case = Case {
            held,
            stale,
            greatest,
            ..AT_ROUND_9
        };
        expect_stale(&rt, rt.alloc(), 6, case);
    }
}

fn expect_four_writes(rt: &impl Abort, alloc: Global) {
    check!(rt; OwnerList::new(alloc).is_empty());
    let (_table, mut list) = writer(rt, alloc, 0, 6, 0, &WRITES, 9);
    check!(rt; list.len() == 4);
    list.forget();
    check!(rt; list.is_empty());
}

// The first of those writes above a mark, by the definition, where they are of generation 2.
fn first_above_of_four_writes()
    ensures absent { missed_in 2 5 0 0 ≡ Some (1, 2) }
    ensures older_and_greater { missed_in 2 5 1 9 ≡ Some (1, 2) }
    ensures first_held { missed_in 2 5 2 1 ≡ Some (3, 4) }
    ensures last_held { missed_in 2 5 2 4 ≡ None }
    ensures newer { missed_in 2 5 3 1 ≡ None }
{}

// What is held at the end of that round where node 0 has forgotten, or node 1: how often each, the
// entries, how many keys are stale and for how many rounds, and how many are left over.
const LEFT_OVER: [([u32; 2], &[Item], [u64; 2], u32); 9] = [
    // What is of an older generation is left over, and stale where its key was written again. The key 4
    // was not.
    ([1, 0], &[item!(0, 5, 9, 7, 1)], [2, 1], 8),
    ([1, 0], &[item!(0, 4, 1, 7, 1)], [2, 1], 8),
    (
        [2, 0],
        &[
            item!(0, 3, generation 1, 1, 7, 1),
            item!(0, 4, generation 1, 3, 7, 1),
            item!(0, 5, generation 1, 2, 7, 1),
        ],
        [2, 3],
        8,
    ),
    // What is of the current one is not, nor what is absent.
    ([1, 0], &[], [2, 0], 8),
    ([1, 0], &[item!(0, 5, generation 1, 1, 7, 2)], [2, 0], 8),
    (
        [1, 0],
        &[
            item!(0, 3, generation 1, 2, 7, 2),
            item!(0, 5, generation 1, 3, 7, 4),
        ],
        [1, 0],
        3,
    ),
    (
        [1, 0],
        &[
            item!(0, 3, generation 1, 2, 7, 2),
            item!(0, 5, generation 1, 4, 7, 7),
        ],
        [0, 0],
        0,
    ),
    // How often its holder has forgotten doesn't matter.
    (
        [0, 1],
        &[item!(0, 3, 2, 7, 2), item!(0, 5, 4, 7, 7)],
        [0, 0],
        0,
    ),
    ([1, 2], &[item!(0, 5, 4, 7, 7)], [2, 1], 8),
];

#[test]
fn copies_of_nodes_that_forgot(rt: HostRuntime) {
    first_above_of_four_writes();
    for (forgets, held, [stale, leftover], greatest) in LEFT_OVER {
        let case = Case {
            forgets,
            held,
            stale,
            greatest,
            leftover,
            ..AT_ROUND_9
        };
        expect_stale(&rt, rt.alloc(), 6, case);
    }
}

// Nothing is stale of a node that has written nothing since it forgot, and all is left over.
#[test]
fn copies_of_a_node_that_wrote_nothing_since(rt: HostRuntime) {
    let case = Case {
        forgets: [1, 0],
        writes: &[],
        held: &[item!(0, 3, 2, 7, 2), item!(0, 5, 4, 7, 7)],
        leftover: 2,
        ..AT_ROUND_9
    };
    expect_stale(&rt, rt.alloc(), 6, case);
}
