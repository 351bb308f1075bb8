//! The words of all nodes in a round of a run.

ghost use Rattle.std.specs.Prelude.{◌≡◌, ◌+◌, ◌^◌, ◌<◌, ◌≤◌, All, length, IfOk, IsOkUnless};
ghost use Rattle.bench_types.specs.declared.faults.Fault.TheVariants.{OutOfMemory};
ghost use Rattle.round_plan.specs.calls.Words.{run_words_of, AreWordsOf};
ghost use Rattle.round_plan.specs.inner.Streams.{HaveDrawn, StandBefore};

use crate::words::{ROUND_WORDS, next_words, stream_at};
use bench_types::Fault;
use bench_types::limits::MOST_ROUNDS;
use rand_chacha::ChaCha20Rng;
use scenario::Scenario;
use std::alloc::Global;
use std::marker::Model;

/// The random words of all nodes in one round of a run, each node's from a stream of its own. Round
/// by round each stream goes on where it stands, so a round costs one block of words for each node,
/// and no stream is begun anew.
pub struct RunWords {
    seed: u64,
    round: u32,
    parts: Vec<NodeWords>,
}

// Written out: a derived drop is proved once more in each crate that lets the words go.
impl Drop for RunWords {
    fn drop(self) {
        let RunWords {
            seed: _,
            round: _,
            parts: _,
        } = self;
    }
}

// A node's stream, and its words of the round.
#[derive(Drop)]
struct NodeWords {
    stream: ChaCha20Rng,
    words: [u32; ROUND_WORDS as usize],
}

impl Model for RunWords {
    ghost use Rattle.std.specs.Prelude.{length};
    ghost use Rattle.round_plan.specs.calls.Words.{RunWordsView};

    ghost Value = { RunWordsView };

    ghost use Rattle.round_plan.specs.inner.Streams.{ArePartsOf};

    ghost view = { λ w. record { seed = w.seed; nodes = length w.parts.items; round = w.round } };

    ghost invariant = { λ w. ArePartsOf w.seed w.round w.parts.items };
}

impl RunWords {
    /// The words before the first round of a scenario's run, when none is drawn. This takes memory for
    /// the nodes, and costs the beginning of a stream for each. An error is lack of memory (`OutOfMemory`).
    pub fn new(alloc: Global, scenario: &Scenario) -> Result<RunWords, Fault>
        ensures before { IfOk result (λ words. words ≡ run_words_of scenario.now 0) }
        ensures only { IsOkUnless result OutOfMemory }
    {
        Ok(RunWords {
            seed: scenario.seed(),
            round: 0,
            parts: parts_before(alloc, scenario, 1)?,
        })
    }

    // The words of a round, whatever was drawn before.
    pub(crate) fn of_round(
        alloc: Global,
        scenario: &Scenario,
        round: u32,
    ) -> Result<RunWords, Fault>
        requires first { 1 ≤ round }
        requires last { round ≤ MOST_ROUNDS }
        ensures words { IfOk result (λ words. words ≡ run_words_of scenario.now round) }
        ensures only { IsOkUnless result OutOfMemory }
    {
        let mut parts = parts_before(alloc, scenario, round)?;
        draw_next(&mut parts);
        Ok(RunWords {
            seed: scenario.seed(),
            round,
            parts,
        })
    }

    /// Goes on to the next round: it draws the words of every node. Costs one block of words for each.
    pub fn next_round(&mut self)
        requires { self.old.round < MOST_ROUNDS }
        ensures { self.new ≡ record self.old { round = self.old.round + 1 } }
    {
        draw_next(&mut self.parts);
        self.round += 1;
    }

    /// A node's words of the round, by place. Costs nothing: they were drawn as the round began.
    pub fn of_node(&self, node: u32) -> &[u32; ROUND_WORDS as usize]
        requires node { node < self.now.nodes }
        requires begun { 1 ≤ self.now.round }
        ensures { AreWordsOf self.now.seed node self.now.round result.now }
    {
        &self.parts[node as usize].words
    }
}

// The parts whose streams have the words of a round next, and no words yet.
fn parts_before(alloc: Global, scenario: &Scenario, round: u32) -> Result<Vec<NodeWords>, Fault>
    requires first { 1 ≤ round }
    requires last { round ≤ MOST_ROUNDS }
    ensures count { IfOk result (λ parts. length parts.items ≡ scenario.now.nodes) }
    ensures parts { IfOk result (λ parts. StandBefore scenario.now.seed round parts.items) }
    ensures only { IsOkUnless result OutOfMemory }
{
    let nodes = scenario.nodes();
    let mut parts = Vec::with_capacity(alloc, nodes as usize)?;
    for node in 0..nodes {
        parts.push(NodeWords {
            stream: stream_at(scenario, node, round, 0),
            words: [0; ROUND_WORDS as usize],
        })?;
    }
    Ok(parts)
}

fn draw_next(parts: &mut [NodeWords])
    requires fit { All (λ p. p.stream.word_pos + ROUND_WORDS < 2 ^ 68) parts.old }
    ensures { HaveDrawn parts.old parts.new }
{
    for part in parts {
        part.words = next_words(&mut part.stream);
    }
}
