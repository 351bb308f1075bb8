//! Steps with several workers come to what they come to with one.

ghost use Rattle.model.specs.Runs.{AreWorkers};

use crate::tests::comparing::expect;
use crate::tests::steps::{sim_of, step};
use bench::{FreeGate, Round, Sim};
use bench_types::limits::MOST_WORKERS;
use bench_types::{Fault, Row};
use fixtures::{
    A_NODE_DOWN, RESTART_WITHOUT_DOWNTIME, RING_OF_FOUR, TWO_NODES, TWO_NODES_CUT, changed,
    changed_in_bytes, row,
};
use node_table::NodeTable;
use std::alloc::AllocGlobal;
use std::process::Abort;
use std::sync::Wait;
use std::thread::Threads;

fn expect_same_round(rt: &impl Abort, round: &Round, alone: &Round) {
    expect(rt, round.row(), alone.row());
    expect(rt, round.list().exchanges(), alone.list().exchanges());
    expect(rt, round.records(), alone.records());
}

fn expect_same_table(rt: &impl Abort, table: &NodeTable, alone: &NodeTable) {
    expect(
        rt,
        (table.node(), table.generation(), table.count()),
        (alone.node(), alone.generation(), alone.count()),
    );
    for owner in 0..table.nodes() {
        for key in 0..table.keys() {
            expect(rt, table.get(owner, key), alone.get(owner, key));
        }
    }
}

fn expect_same_tables(rt: &impl Abort, sim: &Sim, alone: &Sim) {
    expect(rt, sim.tables().len(), alone.tables().len());
    for (table, alone) in sim.tables().iter().zip(alone.tables()) {
        expect_same_table(rt, table, alone);
    }
}

// All rounds of two simulations, by so many workers and by one.
fn expect_same_steps(
    rt: &(impl Threads + Wait + Abort + AllocGlobal + Sync),
    sim: &mut Sim,
    alone: &mut Sim,
    workers: u32,
) -> Result<(), Fault>
    requires workers { AreWorkers workers }
{
    for _ in 0..sim.rounds() {
        let round = sim.step(rt, workers, &FreeGate)?;
        expect_same_round(rt, &round, &step(rt, alone)?);
        expect_same_tables(rt, sim, alone);
    }
    Ok(())
}

// All rounds of a text, with so many workers beside one.
fn expect_same(
    rt: &(impl Threads + Wait + Abort + AllocGlobal + Sync),
    text: &str,
    workers: u32,
) -> Result<(), Fault>
    requires workers { AreWorkers workers }
{
    let mut sim = sim_of(rt.alloc(), text)?;
    let mut alone = sim_of(rt.alloc(), text)?;
    expect_same_steps(rt, &mut sim, &mut alone, workers)
}

fn expect_same_with_any(
    rt: &(impl Threads + Wait + Abort + AllocGlobal + Sync),
    text: &str,
) -> Result<(), Fault> {
    for workers in 1..4 {
        expect_same(rt, text, workers)?;
    }
    expect_same(rt, text, MOST_WORKERS)
}

#[test]
fn steps_with_workers(rt: HostRuntime) -> Result<(), Fault> {
    expect_same_with_any(&rt, TWO_NODES)?;
    expect_same_with_any(&rt, RESTART_WITHOUT_DOWNTIME)
}

#[test]
fn a_ring_of_four_with_workers(rt: HostRuntime) -> Result<(), Fault> {
    expect_same_with_any(&rt, RING_OF_FOUR.scenario)
}

#[test]
fn cut_by_the_budget_with_workers(rt: HostRuntime) -> Result<(), Fault> {
    expect_same_with_any(&rt, TWO_NODES_CUT.scenario)
}

#[test]
fn a_node_down_for_two_rounds_with_workers(rt: HostRuntime) -> Result<(), Fault> {
    expect_same_with_any(&rt, A_NODE_DOWN.scenario)
}

// Nodes that forget, one of them twice in one round and while it is down.
const FORGETTING: &str = "restart = [\
    { node = 1, round = 2, down = 2, forget = true }, { node = 1, round = 3, down = 0, forget = true },\
    { node = 1, round = 3, down = 0, forget = true }, { node = 2, round = 3, down = 0, forget = true }]\n";

#[test]
fn nodes_that_forget_with_workers(rt: HostRuntime) -> Result<(), Fault> {
    let lines = [("nodes = 2", "nodes = 4"), ("rounds = 1", "rounds = 5")];
    let text = changed_in_bytes(rt.alloc(), &lines, FORGETTING)?;
    expect_same_with_any(&rt, text.as_str())
}

const BOTH_DOWN: &str =
    "restart = [{ node = 0, round = 1, down = 1 }, { node = 1, round = 1, down = 1 }]\n";

fn first_row(rt: &(impl Threads + Wait + AllocGlobal + Sync), text: &str) -> Result<Row, Fault> {
    let mut sim = sim_of(rt.alloc(), text)?;
    Ok(sim.step(rt, MOST_WORKERS, &FreeGate)?.row())
}

// No node is up, so no exchange is made and nothing is written.
#[test]
fn all_nodes_down_with_workers(rt: HostRuntime) -> Result<(), Fault> {
    let text = changed(rt.alloc(), &[], BOTH_DOWN)?;
    let row = first_row(&rt, text.as_str())?;
    expect(&rt, row, row!(round: 1));
    expect_same(&rt, text.as_str(), MOST_WORKERS)
}
