//! Scenarios of four rounds, and their lists.

use crate::tests::comparing::{check, expect};
use bench_types::limits::MOST_ROUNDS;
use round_plan::{RoundList, round_list};
use scenario::{Scenario, read};
use std::alloc::AllocGlobal;
use std::process::Abort;
use std::thread::Threads;

/// Nodes that choose in turn.
pub(crate) const RING: &str = "format = 1\nrounds = 4\nmode = 'scuttle-breadth'\nbudget = 1\n\
    peers = 'ring'\nrotation = 'none'\nchoice = 'cycle'\n";

/// The same in format 2.
pub(crate) const RING_IN_BYTES: &str = "format = 2\nrounds = 4\nmode = 'scuttle-breadth'\n\
    budget_bytes = 1023\npeers = 'ring'\nrotation = 'none'\nchoice = 'cycle'\n";

/// Nodes that choose by their words.
pub(crate) const RANDOM: &str = "format = 1\nrounds = 4\nmode = 'scuttle-breadth'\nbudget = 1\n\
    peers = 'random'\nrotation = 'random'\nchoice = 'random'\n";

/// Nothing is lost, and each node makes three writes to its two keys in a round.
pub(crate) const PLAIN: &str = "seed = 0\nkeys = 2\nloss_ppm = 0\nwrites = 3\n";

/// The scenario of a text, by its parts.
pub(crate) fn scenario_of(rt: &(impl Abort + AllocGlobal), parts: &[&str]) -> Scenario {
    let text = parts.concat(rt.alloc()).expect(rt, "memory");
    read(rt.alloc(), text.as_bytes()).expect(rt, "a scenario")
}

/// The list of a round.
pub(crate) fn listed(
    rt: &(impl Abort + Threads + AllocGlobal + Sync),
    scenario: &Scenario,
    round: u32,
) -> RoundList {
    check!(rt; round >= 1 && round <= MOST_ROUNDS);
    round_list(rt, rt.alloc(), scenario, round).expect(rt, "memory")
}

/// How many exchanges a list has, and how many nodes reach no other.
pub(crate) fn expect_counts(rt: &impl Abort, list: &RoundList, wanted: (u32, u32)) {
    expect(rt, (list.len(), list.unreached()), wanted);
}
