//! Rounds of rings that can be followed by hand: their lists, who is out of reach, and the writes.

use crate::tests::comparing::{check, expect, expect_at};
use crate::tests::exchange_lists::{CROSSING, between, list_of, try_list_of};
use crate::tests::small_scenarios::{
    PLAIN, RING, RING_IN_BYTES, expect_counts, listed, scenario_of,
};
use bench_types::limits::MOST_ROUNDS;
use round_plan::{
    OwnWrite, RoundList, Writes, any_restart_now, forgets_now, is_up, peer, restarts_now,
    separated, writes_in, writes_of,
};
use scenario::Scenario;
use std::alloc::AllocGlobal;
use std::process::Abort;
use std::thread::Threads;

// Lists of so many nodes that no round has.
const REFUSED: &[(u32, &[(u32, u32)])] = &[(2, &[(1, 1)]), (2, &[(0, 2)]), (1, &[(0, 0)])];

// By the round, the peers of four nodes.
const PEERS: &[(u32, [u32; 4])] = &[
    (1, [1, 2, 3, 0]),
    (2, [2, 3, 0, 1]),
    (3, [3, 0, 1, 2]),
    (4, [1, 2, 3, 0]),
];

const WRITES: [OwnWrite; 3] = [
    OwnWrite {
        key: 1,
        value: 1,
        version: 4,
    },
    OwnWrite {
        key: 0,
        value: 2,
        version: 5,
    },
    OwnWrite {
        key: 1,
        value: 2,
        version: 6,
    },
];

const DOWN_FOR_TWO_ROUNDS: &str = "[[restart]]\nnode = 2\nround = 1\ndown = 2\n\
    [[load]]\nfrom = 1\nto = 2\nwrites = 5\n[[load]]\nfrom = 2\nto = 2\nwrites = 0\n";

// By the round, whether that node is up and restarts, and how many writes a node that is up makes.
const STATES: &[(u32, (bool, bool), u32)] = &[
    (1, (false, true), 5),
    (2, (false, false), 0),
    (3, (true, false), 3),
];

// By the round, who meets, and how many reach no other.
const MEETINGS: &[(u32, &[(u32, u32)], u32)] = &[
    (1, &[(0, 1)], 1),
    (2, &[(1, 0)], 1),
    (3, &[(0, 1), (1, 2), (2, 0)], 0),
];

// By the round, whether nodes 0 and 1 are separated, and the counts of the list.
const APART: &[(u32, bool, (u32, u32))] = &[(1, true, (0, 2)), (2, false, (2, 0))];

// By the node and the round, whether it restarts.
const RESTARTS: &[(u32, u32, bool)] = &[(1, 2, true), (0, 2, false), (1, 3, false)];

// Restarts of four nodes, some of which forget.
const FORGETTING: &str = "restart = [\n\
    { node = 1, round = 2, down = 0, forget = true },\n\
    { node = 1, round = 2, down = 0 },\n\
    { node = 2, round = 2, down = 1, forget = false },\n\
    { node = 3, round = 1, down = 2 },\n\
    { node = 3, round = 2, down = 0, forget = true },\n\
    { node = 1, round = 3, down = 0 },\n\
    { node = 1, round = 4, down = 0, forget = true },\n\
    { node = 1, round = 4, down = 0, forget = true }]\n";

// By the node and the round, whether it is up, restarts and forgets.
const FORGOTTEN: &[(u32, u32, [bool; 3])] = &[
    (1, 1, [true, false, false]),
    (1, 2, [true, true, true]),
    (1, 3, [true, true, false]),
    (1, 4, [true, true, true]),
    (2, 2, [false, true, false]),
    (3, 1, [false, true, false]),
    (3, 2, [false, true, true]),
    (3, 3, [true, false, false]),
    (0, 2, [true, false, false]),
];

// By the round, whether any of these restarts begins in it.
const BEGUN: &[(u32, bool)] = &[(1, true), (2, true), (3, true), (4, true), (5, false)];

// The first writes of a generation.
const FIRST_WRITES: [OwnWrite; 3] = [
    OwnWrite {
        key: 0,
        value: 0,
        version: 1,
    },
    OwnWrite {
        key: 1,
        value: 0,
        version: 2,
    },
    OwnWrite {
        key: 0,
        value: 1,
        version: 3,
    },
];

fn expect_peer(rt: &impl Abort, scenario: &Scenario, node: u32, round: u32, wanted: u32) {
    check!(rt; node < scenario.nodes());
    check!(rt; round >= 1 && round <= MOST_ROUNDS);
    expect_at(rt, peer(scenario, node, round), wanted, (node, round));
}

// Whether a node is up, and whether it restarts.
fn expect_node(rt: &impl Abort, scenario: &Scenario, node: u32, round: u32, wanted: (bool, bool)) {
    check!(rt; node < scenario.nodes());
    check!(rt; round >= 1 && round <= MOST_ROUNDS);
    let is_up = is_up(scenario, node, round);
    let restarts = restarts_now(scenario, node, round);
    expect_at(rt, (is_up, restarts), wanted, (node, round));
}

// Whether a node is up, restarts and forgets.
fn expect_forgets(rt: &impl Abort, scenario: &Scenario, node: u32, round: u32, wanted: [bool; 3]) {
    check!(rt; node < scenario.nodes());
    check!(rt; round >= 1 && round <= MOST_ROUNDS);
    let is_up = is_up(scenario, node, round);
    let restarts = restarts_now(scenario, node, round);
    let forgets = forgets_now(scenario, node, round);
    expect_at(rt, [is_up, restarts, forgets], wanted, (node, round));
}

fn expect_any_restart(rt: &impl Abort, scenario: &Scenario, round: u32, wanted: bool) {
    check!(rt; round >= 1 && round <= MOST_ROUNDS);
    expect_at(rt, any_restart_now(scenario, round), wanted, round);
}

fn expect_writes_in(rt: &impl Abort, scenario: &Scenario, round: u32, wanted: u32) {
    check!(rt; round >= 1 && round <= MOST_ROUNDS);
    expect_at(rt, writes_in(scenario, round), wanted, round);
}

// Nodes 0 and 1, either way.
fn expect_separated(rt: &impl Abort, scenario: &Scenario, round: u32, wanted: bool) {
    check!(rt; scenario.nodes() == 2);
    check!(rt; round >= 1 && round <= MOST_ROUNDS);
    let there = separated(scenario, 0, 1, round);
    let back = separated(scenario, 1, 0, round);
    expect_at(rt, (there, back), (wanted, wanted), round);
}

fn expect_meetings(
    rt: &(impl Abort + Threads + AllocGlobal + Sync),
    scenario: &Scenario,
    round: u32,
    pairs: &[(u32, u32)],
    unreached: u32,
) {
    let list = listed(rt, scenario, round);
    let wanted = list_of(rt, scenario.nodes(), pairs);
    expect_at(rt, list.exchanges(), wanted.exchanges(), round);
    expect_at(rt, list.unreached(), unreached, round);
}

// A crossing list of four nodes, one of which was unreached.
fn expect_list(rt: &impl Abort, list: &RoundList) {
    expect_counts(rt, list, (4, 1));
    expect(rt, (list.nodes(), list.is_empty()), (4, false));
}

// Those of a crossing list.
fn expect_exchanges(rt: &impl Abort, list: &RoundList) {
    expect(rt, list.get(2), Some(between(1, 2)));
    expect(rt, list.get(4), None);
    expect(rt, list.exchanges().last().copied(), Some(between(0, 3)));
}

// Those of a cycle.
fn expect_writes(rt: &impl Abort, writes: &Writes) {
    expect(rt, writes.as_slice(), &WRITES);
    expect(rt, writes.get(1), Some(WRITES[1]));
    expect(rt, writes.get(3), None);
}

// Those in round 1 of node 2, which is down then, and of node 1.
fn expect_first_writes(rt: &impl Abort, scenario: &Scenario) {
    check!(rt; scenario.nodes() == 3);
    let down = writes_of(scenario, 2, 1, 0);
    let up = writes_of(scenario, 1, 1, 0);
    expect(rt, (down.is_empty(), up.len()), (true, 5));
}

#[test]
fn dependencies_of_a_crossing_list(rt: HostRuntime) {
    for (nodes, pairs) in REFUSED {
        let list = try_list_of(&rt, *nodes, 0, pairs);
        expect_at(&rt, list.is_none(), true, *pairs);
    }
    let list = try_list_of(&rt, 4, 1, CROSSING).expect(&rt, "four nodes");
    expect_list(&rt, &list);
    expect_exchanges(&rt, &list);
}

#[test]
fn peers_on_a_ring(rt: HostRuntime) {
    let scenario = scenario_of(&rt, &[RING, "nodes = 4\n", PLAIN]);
    expect(&rt, scenario.nodes(), 4);
    for (round, peers) in PEERS {
        for node in 0..4 {
            expect_peer(&rt, &scenario, node, *round, peers[node as usize]);
        }
    }
}

#[test]
fn writes_in_a_cycle(rt: HostRuntime) {
    let scenario = scenario_of(&rt, &[RING, "nodes = 2\n", PLAIN]);
    expect_writes_in(&rt, &scenario, 2, 3);
    check!(&rt; scenario.nodes() > 1);
    let writes = writes_of(&scenario, 1, 2, 3);
    expect(&rt, (writes.len(), writes.is_empty()), (3, false));
    expect_writes(&rt, &writes);
}

#[test]
fn a_node_down_for_two_rounds(rt: HostRuntime) {
    let scenario = scenario_of(&rt, &[RING, "nodes = 3\n", PLAIN, DOWN_FOR_TWO_ROUNDS]);
    for (round, state, writes) in STATES {
        expect_node(&rt, &scenario, 2, *round, *state);
        expect_writes_in(&rt, &scenario, *round, *writes);
    }
    for (round, pairs, unreached) in MEETINGS {
        expect_meetings(&rt, &scenario, *round, pairs, *unreached);
    }
    expect_first_writes(&rt, &scenario);
}

#[test]
fn partitioned_for_a_round(rt: HostRuntime) {
    let partition = "[[partition]]\nfrom = 1\nto = 1\napart = [0]\n";
    let scenario = scenario_of(&rt, &[RING, "nodes = 2\n", PLAIN, partition]);
    for (round, apart, counts) in APART {
        expect_separated(&rt, &scenario, *round, *apart);
        expect_counts(&rt, &listed(&rt, &scenario, *round), *counts);
    }
}

#[test]
fn all_nodes_down(rt: HostRuntime) {
    let restarts =
        "[[restart]]\nnode = 0\nround = 1\ndown = 1\n[[restart]]\nnode = 1\nround = 1\ndown = 1\n";
    let scenario = scenario_of(&rt, &[RING, "nodes = 2\n", PLAIN, restarts]);
    expect_counts(&rt, &listed(&rt, &scenario, 1), (0, 0));
}

#[test]
fn restart_without_downtime(rt: HostRuntime) {
    let restart = "[[restart]]\nnode = 1\nround = 2\ndown = 0\n";
    let scenario = scenario_of(&rt, &[RING, "nodes = 2\n", PLAIN, restart]);
    for (node, round, restarts) in RESTARTS {
        expect_node(&rt, &scenario, *node, *round, (true, *restarts));
    }
}

#[test]
fn nodes_that_forget(rt: HostRuntime) {
    let parts = &[RING_IN_BYTES, "nodes = 4\n", PLAIN, FORGETTING];
    let scenario = scenario_of(&rt, parts);
    for (node, round, wanted) in FORGOTTEN {
        expect_forgets(&rt, &scenario, *node, *round, *wanted);
    }
}

#[test]
fn rounds_in_which_any_restarts(rt: HostRuntime) {
    let parts = &[RING_IN_BYTES, "nodes = 4\n", PLAIN, FORGETTING];
    let scenario = scenario_of(&rt, parts);
    for (round, any) in BEGUN {
        expect_any_restart(&rt, &scenario, *round, *any);
    }
}

#[test]
fn writes_of_the_next_generation(rt: HostRuntime) {
    let parts = &[RING_IN_BYTES, "nodes = 4\n", PLAIN, FORGETTING];
    let scenario = scenario_of(&rt, parts);
    expect(&rt, scenario.nodes(), 4);
    let writes = writes_of(&scenario, 1, 2, 0);
    expect(&rt, writes.as_slice(), &FIRST_WRITES);
}
