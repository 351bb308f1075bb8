//! The random words of a node, each drawn by its place.

ghost use Rattle.std.specs.Prelude.{◌≡◌, ◌+◌, ◌^◌, ◌<◌, ◌≤◌};
ghost use Rattle.round_plan.specs.Words.{word_of};
ghost use Rattle.round_plan.specs.calls.Words.{AreWordsOf};
ghost use Rattle.round_plan.specs.inner.Streams.{stream_of, AreNextWords};
ghost use Rattle.round_plan.specs.inner.Rounds.{IsNodeInRound};

use bench_types::limits::MOST_ROUNDS;
use rand_chacha::ChaCha20Rng;
use rand_core::SeedableRng;
use rand_core::utils::NextWord;
use scenario::Scenario;

/// How many words a node has in a round.
pub const ROUND_WORDS: u32 = 16;

/// The place of the word that picks a node's peer.
pub(crate) const PEER_PLACE: u32 = 0;

/// The place of the word of its first write; the next writes have the next words.
pub(crate) const WRITE_PLACE: u32 = 8;

/// The word at a place of a node's round, from 0. The same scenario, node, round and place give the
/// same word, whatever else was drawn. Costs one block of the cipher.
pub fn draw(scenario: &Scenario, node: u32, round: u32, place: u32) -> u32
    requires node { node < scenario.now.nodes }
    requires first { 1 ≤ round }
    requires last { round ≤ MOST_ROUNDS }
    requires place { place < ROUND_WORDS }
    ensures { result ≡ word_of scenario.now node round place }
{
    stream_at(scenario, node, round, place).next_word()
}

// All words of a node's round.
pub(crate) fn words_of(scenario: &Scenario, node: u32, round: u32) -> [u32; ROUND_WORDS as usize]
    requires { IsNodeInRound scenario.now node round }
    ensures { AreWordsOf scenario.now.seed node round result }
{
    next_words(&mut stream_at(scenario, node, round, 0))
}

// The words that a stream has next, as many as a round has.
pub(crate) fn next_words(stream: &mut ChaCha20Rng) -> [u32; ROUND_WORDS as usize]
    requires fits { stream.old.word_pos + ROUND_WORDS < 2 ^ 68 }
    ensures words { AreNextWords stream.old result }
    ensures stream { stream.new ≡ record stream.old { word_pos = stream.old.word_pos + ROUND_WORDS } }
{
    let mut words = [0; ROUND_WORDS as usize];
    for place in 0..ROUND_WORDS as usize {
        words[place] = stream.next_word();
    }
    words
}

// A node's stream, where the word at a place of a round comes next.
pub(crate) fn stream_at(scenario: &Scenario, node: u32, round: u32, place: u32) -> ChaCha20Rng
    requires first { 1 ≤ round }
    requires last { round ≤ MOST_ROUNDS }
    requires place { place < ROUND_WORDS }
    ensures { result ≡ stream_of scenario.now.seed node round place }
{
    let mut seed = [0; 32];
    seed[..8].copy_from_slice(&scenario.seed().to_le_bytes());
    let mut stream = ChaCha20Rng::from_seed(seed);
    stream.set_stream(u64::from(node));
    stream.set_word_pos(u128::from(ROUND_WORDS * (round - 1) + place));
    stream
}
