//! Simulations, step by step.

use crate::cases::Rounds;
use crate::counting::Counter;
use crate::failures::{Failure, check, pass, refused, refused_with, retried};
use crate::trials::Trial;
use bench::Sim;
use bench_types::Fault;
use fixtures::Team;
use scenario::{Partition, Scenario, read};
use std::sync::Wait;
use std::thread::Threads;

fn scenario_of<R: Eprint + AllocGlobal>(rt: &R, rounds: Rounds) -> Result<Scenario, Failure> {
    let alloc = rt.alloc();
    Ok(retried!(rt, "read", read(alloc, rounds.scenario.as_bytes())))
}

// Whether a scenario is that of these rounds.
fn is_of_rounds<R: Eprint + AllocGlobal>(
    rt: &R,
    scenario: &Scenario,
    rounds: Rounds,
) -> Result<bool, Failure> {
    let wanted = scenario_of(rt, rounds)?;
    Ok(
        are_alike(scenario, &wanted)
            && are_same_partitions(scenario.partitions(), wanted.partitions())
            && scenario.restarts() == wanted.restarts()
            && scenario.loads() == wanted.loads(),
    )
}

// Whether the fields are the same that aren't arrays.
fn are_alike(one: &Scenario, other: &Scenario) -> bool {
    (one.format(), one.nodes(), one.keys(), one.rounds())
        == (other.format(), other.nodes(), other.keys(), other.rounds())
        && (one.seed(), one.mode(), one.budget()) == (other.seed(), other.mode(), other.budget())
        && (one.peers(), one.rotation(), one.choice())
            == (other.peers(), other.rotation(), other.choice())
        && (one.loss_ppm(), one.writes()) == (other.loss_ppm(), other.writes())
}

fn are_same_partitions(some: &[Partition], others: &[Partition]) -> bool {
    some.len() == others.len()
        && some.iter().zip(others).all(|(one, other)| {
            (one.from, one.to) == (other.from, other.to)
                && one.apart.as_slice() == other.apart.as_slice()
        })
}

// The simulation of a scenario, which comes back where memory is refused.
fn open<R: Eprint + AllocGlobal>(
    rt: &R,
    rounds: Rounds,
    scenario: Scenario,
) -> Result<Sim, Failure> {
    match Sim::new(rt.alloc(), scenario) {
        Ok(sim) => Ok(sim),
        Err((fault, scenario)) => {
            refused(rt, "Sim::new", fault)?;
            check(is_of_rounds(rt, &scenario, rounds)?)?;
            Ok(Sim::new(rt.alloc(), scenario).map_err(|(fault, _)| fault)?)
        }
    }
}

// All rounds of a simulation, and the step behind them.
fn play<R: Threads + Wait + Sync>(
    rt: &R,
    sim: &mut Sim,
    rounds: Rounds,
    team: Team,
    gate: &Counter,
) -> Result<(), Failure> {
    for row in rounds.rows {
        let round = sim.step(rt, team.workers(), gate)?;
        check(round.row() == *row && round.records().len() == row.exchanges as usize)?;
    }
    let behind = sim.step(rt, team.workers(), gate).err();
    check(behind == Some(Fault::Finished) && !sim.is_broken())
}

// A broken simulation has no tables, and answers so to each further step.
fn check_broken<R: Threads + Wait + Sync>(
    rt: &R,
    sim: &mut Sim,
    team: Team,
    gate: &Counter,
) -> Result<(), Failure> {
    let done = sim.rounds_done();
    check(done < sim.rounds())?;
    for _ in 0..3 {
        check(sim.is_broken() && sim.tables().is_empty())?;
        check(sim.rounds_done() == done)?;
        let answer = sim.step(rt, team.workers(), gate).err();
        check(answer == Some(Fault::Broken))?;
    }
    Ok(())
}

// The rounds of a simulation. Where a step is refused: what stands then, and all rounds of another one.
fn play_at_last<R: Eprint + AllocGlobal + Threads + Wait + Sync>(
    rt: &R,
    mut sim: Sim,
    rounds: Rounds,
    trial: Trial,
) -> Result<(), Failure> {
    let team = trial.team;
    let gate = Counter::new();
    let Err(failure) = play(rt, &mut sim, rounds, team, &gate) else {
        return Ok(());
    };
    refused_with(rt, trial, team.workers(), failure)?;
    let counts = gate.counts();
    check_broken(rt, &mut sim, team, &gate)?;
    play_again(rt, sim.into_scenario(), rounds, team)?;
    check(gate.counts() == counts)
}

// All rounds of another simulation, of the scenario that a broken one had.
fn play_again<R: Eprint + AllocGlobal + Threads + Wait + Sync>(
    rt: &R,
    scenario: Scenario,
    rounds: Rounds,
    team: Team,
) -> Result<(), Failure> {
    check(is_of_rounds(rt, &scenario, rounds)?)?;
    let mut sim = open(rt, rounds, scenario)?;
    play(rt, &mut sim, rounds, team, &Counter::new())
}

pub(crate) fn try_steps<R: Print + Eprint + AllocGlobal + Threads + Wait + Sync>(
    rt: &R,
    rounds: Rounds,
    trial: Trial,
) -> Result<(), Failure> {
    let sim = open(rt, rounds, scenario_of(rt, rounds)?)?;
    play_at_last(rt, sim, rounds, trial)?;
    pass(rt, trial)
}
