//! Simulations, step by step.

use crate::tests::comparing::{check, expect};
use bench::{FreeGate, Round, Sim};
use bench_types::{Fault, Mark};
use fixtures::{NO_FIGURES, RING_OF_FOUR, TWO_NODES, between, row, sent};
use node_table::NodeTable;
use scenario::{Scenario, read};
use std::alloc::Global;
use std::process::Abort;
use std::sync::Wait;
use std::thread::Threads;

// The simulation of a scenario, before its first round.
fn begin(alloc: Global, scenario: Scenario) -> Result<Sim, Fault> {
    match Sim::new(alloc, scenario) {
        Ok(sim) => Ok(sim),
        Err((fault, _)) => Err(fault),
    }
}

pub(crate) fn sim_of(alloc: Global, text: &str) -> Result<Sim, Fault> {
    begin(alloc, read(alloc, text.as_bytes())?)
}

// The next round by one worker.
pub(crate) fn step(rt: &(impl Threads + Wait + Sync), sim: &mut Sim) -> Result<Round, Fault> {
    sim.step(rt, 1, &FreeGate)
}

// Two nodes that hold so many entries each.
fn expect_counts(rt: &impl Abort, sim: &Sim, count: u32) {
    expect(rt, sim.tables().len(), 2);
    for table in sim.tables() {
        expect(rt, table.count(), count);
    }
}

fn expect_exchanges(rt: &impl Abort, round: &Round) {
    let list = round.list();
    expect(
        rt,
        list.exchanges(),
        [between(0, 1), between(1, 0)].as_slice(),
    );
    expect(rt, (list.nodes(), list.unreached()), (2, 0));
    let records = [sent!(1, 1, 1, 1, 0, 0), sent!(2, 2, 0, 0, 0, 0)];
    expect(rt, round.records(), records.as_slice());
}

fn expect_round(rt: &impl Abort, round: &Round) {
    expect_exchanges(rt, round);
    expect(rt, round.row(), row!(round: 1, exchanges: 2, entries: 2));
    expect(rt, round.figures(), NO_FIGURES);
}

#[test]
fn two_nodes(rt: HostRuntime) -> Result<(), Fault> {
    let mut sim = sim_of(rt.alloc(), TWO_NODES)?;
    expect(&rt, sim.rounds_done(), 0);
    expect_counts(&rt, &sim, 0);
    expect_round(&rt, &step(&rt, &mut sim)?);
    expect_counts(&rt, &sim, 2);
    Ok(())
}

// No round is left behind the first.
fn expect_finished(rt: &(impl Threads + Wait + Abort + Sync), sim: &mut Sim) {
    expect(rt, step(rt, sim).err(), Some(Fault::Finished));
    expect(rt, sim.rounds_done(), 1);
    check!(rt; !sim.is_broken());
}

#[test]
fn steps_behind_the_last_round(rt: HostRuntime) -> Result<(), Fault> {
    let mut sim = sim_of(rt.alloc(), TWO_NODES)?;
    step(&rt, &mut sim)?;
    for _ in 0..2 {
        expect_finished(&rt, &mut sim);
        expect_counts(&rt, &sim, 2);
    }
    let scenario = sim.into_scenario();
    expect(&rt, (scenario.nodes(), scenario.rounds()), (2, 1));
    Ok(())
}

// A node that holds entries of all owners but one.
fn expect_missed(rt: &impl Abort, table: &NodeTable, missed: u32) {
    let node = table.node();
    for owner in 0..table.nodes() {
        let lacks = table.greatest(owner) == Mark::ABSENT;
        expect(rt, (node, owner, lacks), (node, owner, owner == missed));
    }
}

fn expect_all_missed(rt: &impl Abort, tables: &[NodeTable], missed: &[u32]) {
    expect(rt, tables.len(), missed.len());
    for (table, missed) in tables.iter().zip(missed) {
        expect_missed(rt, table, *missed);
    }
}

// At the end each node misses one owner.
#[test]
fn ring_of_four(rt: HostRuntime) -> Result<(), Fault> {
    let mut sim = sim_of(rt.alloc(), RING_OF_FOUR.scenario)?;
    step(&rt, &mut sim)?;
    expect_finished(&rt, &mut sim);
    expect_all_missed(&rt, sim.tables(), &[2, 3, 1, 2]);
    Ok(())
}
