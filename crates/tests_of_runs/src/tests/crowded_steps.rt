//! Rounds of a simulation by several workers.

use crate::tests::comparing::check;
use crate::tests::gates::Meeting;
use bench::Sim;
use bench_types::Fault;
use fixtures::changed;
use pool::FreeGate;
use scenario::read;
use std::alloc::Global;
use std::process::Abort;
use std::sync::Wait;
use std::thread::Threads;

// In round 2 node 0 meets node 2 and node 1 meets node 3, and then the other way round.
const RING_OF_FOUR: [(&str, &str); 3] = [
    ("nodes = 2", "nodes = 4"),
    ("rounds = 1", "rounds = 2"),
    ("budget = 1", "budget = 10"),
];

fn ring_of_four(alloc: Global) -> Result<Sim, Fault> {
    let text = changed(alloc, &RING_OF_FOUR, "")?;
    let scenario = read(alloc, text.as_bytes())?;
    Sim::new(alloc, scenario).map_err(|(fault, _)| fault)
}

fn expect_meeting(rt: &(impl Abort + Threads + Wait + Sync), sim: &mut Sim) -> Result<(), Fault> {
    let gate = Meeting::new();
    sim.step(rt, 2, &FreeGate)?;
    sim.step(rt, 2, &gate)?;
    check!(rt; gate.has_met());
    Ok(())
}

#[test]
fn two_exchanges_at_once_in_a_step(rt: HostRuntime) -> Result<(), Fault> {
    let mut sim = ring_of_four(rt.alloc())?;
    expect_meeting(&rt, &mut sim)
}
