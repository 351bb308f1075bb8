//! Which nodes are out of reach in a round.

ghost use Rattle.std.specs.Prelude.{◌≡◌, ◌<◌, ◌≤◌};
ghost use Rattle.std.specs.List.Sorted.{IsStrictlyIncreasing};
ghost use Rattle.round_plan.specs.Outages.{is_between, is_up, restarts_in, restarts_now, forgets_now, separated, separates, takes_down};
ghost use Rattle.round_plan.specs.calls.Outages.{any_restart_now};

use bench_types::limits::MOST_ROUNDS;
use scenario::{Partition, Restart, Scenario};

/// Whether a node is up in a round: no restart of it keeps it down. Costs a step for each restart.
pub fn is_up(scenario: &Scenario, node: u32, round: u32) -> bool
    requires node { node < scenario.now.nodes }
    requires first { 1 ≤ round }
    requires last { round ≤ MOST_ROUNDS }
    ensures { result ≡ is_up scenario.now node round }
{
    !scenario
        .restarts()
        .iter()
        .any(|restart| takes_down(restart, node, round))
}

/// Whether two nodes are kept apart in a round: some partition that covers it lists exactly one of
/// them. Costs two binary searches for each partition.
pub fn separated(scenario: &Scenario, p: u32, q: u32, round: u32) -> bool
    requires p { p < scenario.now.nodes }
    requires q { q < scenario.now.nodes }
    requires first { 1 ≤ round }
    requires last { round ≤ MOST_ROUNDS }
    ensures { result ≡ separated scenario.now p q round }
{
    for partition in scenario.partitions() {
        if separates(partition, p, q, round) {
            return true;
        }
    }
    false
}

/// Whether a node restarts at the beginning of a round, and so loses its copies of all others, and its
/// own entries too if it forgets. Costs a step for each restart.
pub fn restarts_now(scenario: &Scenario, node: u32, round: u32) -> bool
    requires node { node < scenario.now.nodes }
    requires first { 1 ≤ round }
    requires last { round ≤ MOST_ROUNDS }
    ensures { result ≡ restarts_now scenario.now node round }
{
    scenario
        .restarts()
        .iter()
        .any(|restart| restarts_in(restart, node, round))
}

/// Whether any node restarts at the beginning of a round. Costs a step for each restart.
pub fn any_restart_now(scenario: &Scenario, round: u32) -> bool
    requires first { 1 ≤ round }
    requires last { round ≤ MOST_ROUNDS }
    ensures { result ≡ any_restart_now scenario.now round }
{
    scenario
        .restarts()
        .iter()
        .any(|restart| restart.round == round)
}

/// Whether a node forgets all that it holds at the beginning of a round, and so begins its next
/// generation: one of its restarts there says so. Costs a step for each restart.
pub fn forgets_now(scenario: &Scenario, node: u32, round: u32) -> bool
    requires node { node < scenario.now.nodes }
    requires first { 1 ≤ round }
    requires last { round ≤ MOST_ROUNDS }
    ensures { result ≡ forgets_now scenario.now node round }
{
    scenario.restarts().iter().any(|restart| restarts_in(restart, node, round) && restart.forget)
}

fn takes_down(restart: &Restart, node: u32, round: u32) -> bool
    ensures { result ≡ takes_down node round restart.now }
{
    restart.node == node && restart.round <= round && round - restart.round < restart.down
}

fn restarts_in(restart: &Restart, node: u32, round: u32) -> bool
    ensures { result ≡ restarts_in node round restart.now }
{
    restart.node == node && restart.round == round
}

fn separates(partition: &Partition, p: u32, q: u32, round: u32) -> bool
    requires { IsStrictlyIncreasing partition.now.apart }
    ensures { result ≡ separates p q round partition.now }
{
    let apart = &partition.apart;
    is_between(partition.from, partition.to, round)
        && apart.binary_search(&p).is_ok() != apart.binary_search(&q).is_ok()
}

pub(crate) fn is_between(from: u32, to: u32, round: u32) -> bool
    ensures { result ≡ is_between from to round }
{
    (from..=to).contains(&round)
}
