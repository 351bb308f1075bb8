//! Simulations of two nodes of which one forgets, round by round.

use crate::tests::comparing::{check, expect};
use crate::tests::steps::{sim_of, step};
use bench::Sim;
use bench_types::{Fault, Figures};
use fixtures::{NO_FIGURES, changed_in_bytes};
use node_table::NodeTable;
use std::alloc::Global;
use std::process::Abort;
use std::sync::Wait;
use std::thread::Threads;

// The simulation of two nodes in format 2 with other lines, where node 1 forgets.
fn forgetting(alloc: Global, lines: &[(&str, &str)], restart: &str) -> Result<Sim, Fault> {
    let text = changed_in_bytes(alloc, lines, restart)?;
    sim_of(alloc, text.as_str())
}

// Compares how often node 1 has forgotten, and how many entries it holds.
fn expect_node(rt: &impl Abort, sim: &Sim, wanted: (u32, u32)) {
    let tables = sim.tables();
    check!(rt; tables.len() == 2);
    expect(rt, (tables[1].generation(), tables[1].count()), wanted);
}

// The next round: its figures, and node 1 after it.
fn expect_step(
    rt: &(impl Threads + Wait + Abort + Sync),
    sim: &mut Sim,
    figures: Figures,
    node: (u32, u32),
) -> Result<(), Fault> {
    let round = step(rt, sim)?;
    expect(rt, round.figures(), figures);
    expect_node(rt, sim, node);
    Ok(())
}

const DOWN_FOR_TWO_ROUNDS: &str = "restart = [{ node = 1, round = 2, down = 2, forget = true }]\n";

const ONE_STALE: Figures = Figures {
    stale: 1,
    greatest: 2,
    leftover: 1,
    ..NO_FIGURES
};

const STILL_STALE: Figures = Figures {
    greatest: 3,
    ..ONE_STALE
};

// By the round the figures, and then the generation of node 1 and how many entries it holds.
const ROUNDS: [(Figures, (u32, u32)); 4] = [
    (NO_FIGURES, (0, 2)),
    (ONE_STALE, (1, 0)),
    (STILL_STALE, (1, 0)),
    (NO_FIGURES, (1, 2)),
];

fn expect_rounds(rt: &(impl Threads + Wait + Abort + Sync), sim: &mut Sim) -> Result<(), Fault> {
    for (figures, node) in ROUNDS {
        expect_step(rt, sim, figures, node)?;
    }
    Ok(())
}

// It lacks what the other has written since the first round, and the other keeps what is left over until it
// comes back.
#[test]
fn a_node_down_while_it_forgets(rt: HostRuntime) -> Result<(), Fault> {
    let lines = [("rounds = 1", "rounds = 4")];
    let mut sim = forgetting(rt.alloc(), &lines, DOWN_FOR_TWO_ROUNDS)?;
    expect_rounds(&rt, &mut sim)
}

const WITHOUT_DOWNTIME: &str = "restart = [{ node = 1, round = 2, down = 0, forget = true }]\n";

// By owner and key, the generation and the version of the last write. Each node makes three writes in each
// of two rounds, to its keys in turn: node 0 goes on with key 1, and node 1 begins anew with key 0.
const LAST_WRITES: [(u32, u32, (u32, u32)); 4] = [
    (0, 0, (0, 5)),
    (0, 1, (0, 6)),
    (1, 0, (1, 3)),
    (1, 1, (1, 2)),
];

fn expect_last_writes(rt: &impl Abort, tables: &[NodeTable]) {
    for table in tables {
        for (owner, key, wanted) in LAST_WRITES {
            expect_last_write(rt, table, (owner, key), wanted);
        }
    }
}

fn expect_last_write(
    rt: &impl Abort,
    table: &NodeTable,
    (owner, key): (u32, u32),
    wanted: (u32, u32),
) {
    let found = table.get(owner, key);
    let mark = found.map(|entry| (entry.generation, entry.version));
    expect(rt, (owner, key, mark), (owner, key, Some(wanted)));
}

#[test]
fn versions_and_keys_begin_anew(rt: HostRuntime) -> Result<(), Fault> {
    let lines = [
        ("keys = 1", "keys = 2"),
        ("rounds = 1", "rounds = 2"),
        ("writes = 1", "writes = 3"),
    ];
    let mut sim = forgetting(rt.alloc(), &lines, WITHOUT_DOWNTIME)?;
    expect_two_rounds(&rt, &mut sim)
}

fn expect_two_rounds(
    rt: &(impl Threads + Wait + Abort + Sync),
    sim: &mut Sim,
) -> Result<(), Fault> {
    step(rt, sim)?;
    step(rt, sim)?;
    expect_node(rt, sim, (1, 4));
    expect_last_writes(rt, sim.tables());
    Ok(())
}
