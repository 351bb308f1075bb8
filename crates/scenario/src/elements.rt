//! The elements of a scenario's arrays.

use std::marker::Model;

/// Nodes that are kept from all others for some rounds.
#[derive(Debug, Drop)]
pub struct Partition {
    /// The first of the rounds.
    pub from: u32,
    /// The last of them.
    pub to: u32,
    /// The nodes of one side, strictly ascending; all others are the other side.
    pub apart: Vec<u32>,
}

impl Model for Partition {
    ghost use Rattle.scenario.specs.PartitionView.{PartitionView};

    ghost Value = { PartitionView };

    ghost view = { λ p. record { from = p.from; to = p.to; apart = p.apart.items } };
}

/// A node that restarts at the beginning of a round and loses its copies of all other nodes. One that forgets loses its
/// own entries too and begins its next generation.
#[derive(Clone, Copy, Debug, PartialEq, Eq)]
pub struct Restart {
    pub node: u32,
    pub round: u32,
    /// For how many rounds the node is down, from `round` on.
    pub down: u32,
    /// Whether the node forgets its own entries; in format 1 it never does.
    pub forget: bool,
}

/// How many writes each node makes in each of some rounds.
#[derive(Clone, Copy, Debug, PartialEq, Eq)]
pub struct Load {
    /// The first of the rounds.
    pub from: u32,
    /// The last of them.
    pub to: u32,
    /// The writes of a node in a round.
    pub writes: u32,
}
