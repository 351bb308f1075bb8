//! Who exchanges with whom in a round.

ghost use Rattle.std.specs.Prelude.{◌≡◌, ◌<◌, ◌≤◌, IfOk, IsOkUnless};
ghost use Rattle.bench_types.specs.calls.Exchange.{IsPlanned};
ghost use Rattle.round_plan.specs.Plan.{exchange_of, is_lost, reaches, round_list_of};
ghost use Rattle.round_plan.specs.calls.Words.{run_words_of, AreWordsOf};
ghost use Rattle.round_plan.specs.inner.Rounds.{chosen_of, AreChosen, IsNodeInRound};
ghost use Rattle.bench_types.specs.declared.faults.Fault.TheVariants.{OutOfMemory};
ghost use Rattle.limits.specs.declared.TheConstants.{MOST_ROUNDS};

use crate::outages::{is_up, separated};
use crate::peers::peer_by;
use crate::run_words::RunWords;
use crate::words::ROUND_WORDS;
use bench_types::limits::{MOST_LOSS, MOST_ROUNDS};
use bench_types::{Exchange, Fault};
use model::RoundList;
use rayon::prelude::*;
use scenario::{Rotation, Scenario};
use std::alloc::{AllocError, Global};
use std::thread::Threads;

// What a node is in a round, or begins.
#[derive(Clone, Copy)]
enum Chosen {
    Down,
    Unreached,
    Begins(Exchange),
}

// Another thread starts and ends in the time in which one goes over so many restarts.
const STEPS_OF_A_THREAD: usize = 65_536;

// What a node takes without restarts and partitions, in the same measure.
const STEPS_OF_A_NODE: usize = 32;

// And what it takes more for a partition.
const STEPS_OF_A_PARTITION: usize = 16;

/// The exchanges of a round, by ascending initiator: each node that is up begins one with its peer,
/// where that is up too and not separated from it. Costs one block of words for each node, and then what
/// `round_list_by` does. An error is lack of memory (`OutOfMemory`).
pub fn round_list(
    rt: &(impl Threads + Sync),
    alloc: Global,
    scenario: &Scenario,
    round: u32,
) -> Result<RoundList, Fault>
    requires first { 1 ≤ round }
    requires last { round ≤ MOST_ROUNDS }
    ensures plan { IfOk result (λ list. list ≡ round_list_of scenario.now round) }
    ensures only { IsOkUnless result OutOfMemory }
{
    let words = RunWords::of_round(alloc, scenario, round)?;
    round_list_by(rt, alloc, scenario, round, &words)
}

/// As `round_list`, by the words of the round. Costs a step for each restart and each partition for each
/// node, spread over threads where there are enough of these. An error is lack of memory (`OutOfMemory`).
pub fn round_list_by(
    rt: &(impl Threads + Sync),
    alloc: Global,
    scenario: &Scenario,
    round: u32,
    words: &RunWords,
) -> Result<RoundList, Fault>
    requires first { 1 ≤ round }
    requires last { round ≤ MOST_ROUNDS }
    requires words { words.now ≡ run_words_of scenario.now round }
    ensures plan { IfOk result (λ list. list ≡ round_list_of scenario.now round) }
    ensures only { IsOkUnless result OutOfMemory }
{
    let nodes = scenario.nodes();
    let drawn = Drawn {
        scenario,
        round,
        words,
    };
    let chosen = choices(rt, alloc, drawn)?;
    let mut exchanges = Vec::with_capacity(alloc, chosen.len())?;
    let mut unreached = 0;
    for choice in &chosen {
        match choice {
            Chosen::Begins(exchange) => exchanges.push(*exchange)?,
            Chosen::Unreached => unreached += 1,
            Chosen::Down => {}
        }
    }
    Ok(RoundList::planned(nodes, unreached, exchanges))
}

// A round of a scenario, and the words of its nodes.
#[derive(Clone, Copy)]
struct Drawn<'a> {
    scenario: &'a Scenario,
    round: u32,
    words: &'a RunWords,
    ghost lawful: { (1 ≤ round) × (round ≤ MOST_ROUNDS) },
    ghost drawn: { words.now ≡ run_words_of scenario.now round },
}

// What each node chooses, in order.
fn choices(
    rt: &(impl Threads + Sync),
    alloc: Global,
    drawn: Drawn,
) -> Result<Vec<Chosen>, AllocError>
    ensures { IfOk result (λ chosen. AreChosen drawn.entry.scenario.now drawn.entry.round chosen.items) }
{
    let Drawn {
        scenario,
        round,
        words,
    } = drawn;
    (0..scenario.nodes())
        .into_par_iter()
        .with_min_len(nodes_of_a_thread(scenario))
        .map(
            |node: u32| -> Chosen
                requires { IsNodeInRound scenario.now node round × (words.now ≡ run_words_of scenario.now round) }
                ensures { result ≡ chosen_of scenario.entry.now round node }
            { choice_by(scenario, node, round, words.of_node(node)) },
        )
        .collect(rt, alloc)
}

// How many nodes are worth a thread of their own. It bears on time alone.
fn nodes_of_a_thread(scenario: &Scenario) -> usize {
    let restarts = scenario.restarts().len();
    let partitions = STEPS_OF_A_PARTITION * scenario.partitions().len();
    STEPS_OF_A_THREAD / (STEPS_OF_A_NODE + restarts + partitions)
}

fn choice_by(
    scenario: &Scenario,
    node: u32,
    round: u32,
    words: &[u32; ROUND_WORDS as usize],
) -> Chosen
    requires node { IsNodeInRound scenario.now node round }
    requires words { AreWordsOf scenario.now.seed node round words.now }
    ensures { result ≡ chosen_of scenario.now round node }
{
    if !is_up(scenario, node, round) {
        return Chosen::Down;
    }
    let exchange = exchange_by(scenario, node, round, words);
    if reaches(scenario, &exchange, round) {
        Chosen::Begins(exchange)
    } else {
        Chosen::Unreached
    }
}

fn exchange_by(
    scenario: &Scenario,
    node: u32,
    round: u32,
    words: &[u32; ROUND_WORDS as usize],
) -> Exchange
    requires node { IsNodeInRound scenario.now node round }
    requires words { AreWordsOf scenario.now.seed node round words.now }
    ensures value { result ≡ exchange_of scenario.now round node }
    ensures planned { IsPlanned scenario.now.nodes result }
{
    let [peer, loss1, loss2, loss3, turn, ..] = *words;
    Exchange {
        initiator: node,
        responder: peer_by(scenario, node, round, peer),
        lost1: is_lost(scenario, loss1),
        lost2: is_lost(scenario, loss2),
        lost3: is_lost(scenario, loss3),
        rotation: match scenario.rotation() {
            Rotation::Random => turn % scenario.nodes(),
            Rotation::Off => 0,
        },
    }
}

fn is_lost(scenario: &Scenario, word: u32) -> bool
    ensures { result ≡ is_lost scenario.now word }
{
    word % MOST_LOSS < scenario.loss_ppm()
}

fn reaches(scenario: &Scenario, exchange: &Exchange, round: u32) -> bool
    requires first { 1 ≤ round }
    requires last { round ≤ MOST_ROUNDS }
    requires planned { IsPlanned scenario.now.nodes exchange.now }
    requires chosen { exchange.now ≡ exchange_of scenario.now round exchange.now.initiator }
    ensures { result ≡ reaches scenario.now round exchange.now.initiator }
{
    let (node, peer) = (exchange.initiator, exchange.responder);
    is_up(scenario, peer, round) && !separated(scenario, node, peer, round)
}
