//! What a node writes of its own state.

ghost use Rattle.std.specs.Prelude.{◌≡◌, ℕ, ◌+◌, ◌^◌, ◌<◌, ◌≤◌, ◌==◌, length, slice_get};
ghost use Rattle.scenario.specs.declared.choices.Choice.TheVariants.{Random};
ghost use Rattle.round_plan.specs.calls.Words.{AreWordsOf};
ghost use Rattle.round_plan.specs.Writes.{writes_in, numbered_write};
ghost use Rattle.round_plan.specs.calls.Writes.{born_in, AreWritesOf};
ghost use Rattle.round_plan.specs.inner.Rounds.{AreWriteNumbers, IsNodeInRound};

use crate::outages::{is_between, is_up};
use crate::words::{ROUND_WORDS, WRITE_PLACE, words_of};
use bench_types::limits::{MOST_ROUNDS, MOST_WRITES};
use scenario::{Choice, Scenario};
use std::marker::Model;

/// One write of a node to one of its own keys.
#[derive(Clone, Copy, Debug, PartialEq, Eq)]
pub struct OwnWrite {
    pub key: u32,
    pub value: u32,
    /// The n-th write of the node's generation has version n, from 1.
    pub version: u32,
}

// What stands behind the writes of a round that has fewer than the most.
const BLANK: OwnWrite = OwnWrite {
    key: 0,
    value: 0,
    version: 0,
};

/// The writes of one node in one round, in their order: at most 8.
#[derive(Debug, Drop)]
pub struct Writes {
    items: [OwnWrite; MOST_WRITES as usize],
    count: u32,
}

impl Model for Writes {
    ghost use Rattle.std.specs.Prelude.{◌≡◌, ◌≤◌, List, length, take};
    ghost use Rattle.limits.specs.declared.TheConstants.{MOST_WRITES};
    ghost use Rattle.round_plan.specs.declared.owners.OwnWrite.{OwnWrite};

    ghost Value = { List OwnWrite };

    ghost view = { λ w. take w.count w.items };

    ghost invariant = { λ w. (length w.items ≡ MOST_WRITES) × (w.count ≤ MOST_WRITES) };
}

impl Writes {
    /// How many there are.
    pub fn len(&self) -> u32
        ensures value { result ≡ length self.now }
        ensures limit { result ≤ MOST_WRITES }
    {
        self.as_slice().len() as u32
    }

    pub fn is_empty(&self) -> bool
        ensures { result ≡ (length self.now == 0) }
    {
        self.as_slice().is_empty()
    }

    /// The write at a place of the list, from 0; none past the end.
    pub fn get(&self, i: u32) -> Option<OwnWrite>
        ensures { result ≡ slice_get self.now i }
    {
        self.as_slice().get(i as usize).copied()
    }

    /// All of them, in order.
    pub fn as_slice(&self) -> &[OwnWrite]
        ensures value { result.now ≡ self.now }
        ensures limit { length result.now ≤ MOST_WRITES }
    {
        &self.items[..self.count as usize]
    }
}

/// How many writes a node that is up makes in a round. Costs a step for each load.
pub fn writes_in(scenario: &Scenario, round: u32) -> u32
    requires first { 1 ≤ round }
    requires last { round ≤ MOST_ROUNDS }
    ensures value { result ≡ writes_in scenario.now round }
    ensures limit { result ≤ MOST_WRITES }
{
    let mut from_last = scenario.loads().iter().rev();
    match from_last.find(|load| is_between(load.from, load.to, round)) {
        Some(load) => load.writes,
        None => scenario.writes(),
    }
}

/// The writes of a node in a round, none if it is down. Before the round it had made `count_before` in its generation.
/// Costs a step for each restart and load, and where writes are random one block of words.
pub fn writes_of(scenario: &Scenario, node: u32, round: u32, count_before: u32) -> Writes
    requires node { node < scenario.now.nodes }
    requires first { 1 ≤ round }
    requires last { round ≤ MOST_ROUNDS }
    requires fits { count_before + MOST_WRITES < 2 ^ 32 }
    ensures { AreWritesOf scenario.now node round count_before result }
{
    let words = write_words(scenario, node, round);
    writes_by(scenario, node, round, count_before, &words)
}

// The words of a node's round where writes are random, and else none.
fn write_words(scenario: &Scenario, node: u32, round: u32) -> [u32; ROUND_WORDS as usize]
    requires { IsNodeInRound scenario.now node round }
    ensures { scenario.now.choice ≡ Random → AreWordsOf scenario.now.seed node round result }
{
    match scenario.choice() {
        Choice::Random => words_of(scenario, node, round),
        Choice::Cycle => [0; ROUND_WORDS as usize],
    }
}

/// As `writes_of`, by the node's words of the round, which matter only if writes are random. Costs
/// a step for each restart and load.
#[inline(always)]
pub fn writes_by(
    scenario: &Scenario,
    node: u32,
    round: u32,
    count_before: u32,
    words: &[u32; ROUND_WORDS as usize],
) -> Writes
    requires node { node < scenario.now.nodes }
    requires first { 1 ≤ round }
    requires last { round ≤ MOST_ROUNDS }
    requires fits { count_before + MOST_WRITES < 2 ^ 32 }
    requires words { scenario.now.choice ≡ Random → AreWordsOf scenario.now.seed node round words.now }
    ensures { AreWritesOf scenario.now node round count_before result }
{
    let mut items = [BLANK; MOST_WRITES as usize];
    if !is_up(scenario, node, round) {
        return Writes { items, count: 0 };
    }
    let keys = scenario.keys();
    let count = writes_in(scenario, round);
    let numbers = numbers_by(scenario.choice(), count_before, words);
    for place in 0..count {
        let number = numbers[place as usize];
        items[place as usize] = numbered_write(keys, number, count_before + place);
    }
    Writes { items, count }
}

// The numbers of the most writes of a node in a round, by the round's words or behind `count_before` writes of its
// generation.
fn numbers_by(
    choice: Choice,
    count_before: u32,
    words: &[u32; ROUND_WORDS as usize],
) -> [u32; MOST_WRITES as usize]
    requires { count_before + MOST_WRITES < 2 ^ 32 }
    ensures { AreWriteNumbers choice count_before words.now result }
{
    let mut numbers = [0; MOST_WRITES as usize];
    match choice {
        Choice::Random => numbers.copy_from_slice(&words[WRITE_PLACE as usize..]),
        Choice::Cycle => {
            for place in 0..MOST_WRITES {
                numbers[place as usize] = count_before + place;
            }
        }
    }
    numbers
}

// The write of a number that comes after so many of a generation: the keys in turn, and then each with the next value.
fn numbered_write(keys: u32, number: u32, count: u32) -> OwnWrite
    requires keys { 1 ≤ keys }
    requires fits { count + 1 < 2 ^ 32 }
    ensures value { (round : ℕ) (generation : ℕ) →
        born_in round generation result ≡ numbered_write keys round generation number count }
    ensures key { result.key < keys }
{
    OwnWrite {
        key: number % keys,
        value: number / keys,
        version: count + 1,
    }
}
