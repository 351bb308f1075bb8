//! How a run picks what a scenario leaves open.

/// How a node picks the peer of its exchange.
#[derive(Clone, Copy, Debug, PartialEq, Eq)]
pub enum Peers {
    /// By the node's random words.
    Random,
    /// Round the ring of nodes, one further each round.
    Ring,
}

/// At which owner the order of an exchange's entries begins.
#[derive(Clone, Copy, Debug, PartialEq, Eq)]
pub enum Rotation {
    /// At one that the initiator's random words name.
    Random,
    /// At owner 0. Its text is `none`.
    Off,
}

/// How a write picks its key and its value.
#[derive(Clone, Copy, Debug, PartialEq, Eq)]
pub enum Choice {
    /// By the owner's random words.
    Random,
    /// By counting up: the keys in turn, and then each with the next value.
    Cycle,
}
