//! With whom a node exchanges.

ghost use Rattle.std.specs.Prelude.{◌≡◌, ◌≢◌, ◌<◌, ◌≤◌};
ghost use Rattle.round_plan.specs.Peer.{peer_of};
ghost use Rattle.round_plan.specs.Words.{word_of};
ghost use Rattle.round_plan.specs.inner.Rounds.{IsNodeInRound};

use crate::words::{PEER_PLACE, draw};
use bench_types::limits::MOST_ROUNDS;
use scenario::{Peers, Scenario};

/// The node with which a node begins its exchange of a round: one of the others, by the node's words
/// or on the ring of nodes. On the ring that is the next one in round 1, one further in each later
/// round, and after the last of the others the next again. Costs one block of words.
pub fn peer(scenario: &Scenario, node: u32, round: u32) -> u32
    requires node { node < scenario.now.nodes }
    requires first { 1 ≤ round }
    requires last { round ≤ MOST_ROUNDS }
    ensures value { result ≡ peer_of scenario.now node round }
    ensures below { result < scenario.now.nodes }
    ensures another { result ≢ node }
{
    peer_by(
        scenario,
        node,
        round,
        draw(scenario, node, round, PEER_PLACE),
    )
}

// As `peer`, by the word that picks it.
pub(crate) fn peer_by(scenario: &Scenario, node: u32, round: u32, word: u32) -> u32
    requires node { IsNodeInRound scenario.now node round }
    requires word { word ≡ word_of scenario.now node round PEER_PLACE }
    ensures value { result ≡ peer_of scenario.now node round }
    ensures below { result < scenario.now.nodes }
    ensures another { result ≢ node }
{
    let nodes = scenario.nodes();
    match scenario.peers() {
        Peers::Random => {
            let place = word % (nodes - 1);
            if place < node { place } else { place + 1 }
        }
        Peers::Ring => (node + 1 + (round - 1) % (nodes - 1)) % nodes,
    }
}
