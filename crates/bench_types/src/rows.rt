//! What a round comes to.

/// How far the copies lag behind their owners at the end of a round.
#[derive(Clone, Copy, Debug, PartialEq, Eq)]
pub struct Figures {
    /// How many keys of copies are below their owners' mark.
    pub stale: u64,
    /// The most rounds that one of them has lagged, 0 where none is stale.
    pub greatest: u32,
    /// How many keys of copies are of an older generation than their owner's.
    pub leftover: u64,
}

/// What a round came to, in numbers.
#[derive(Clone, Copy, Debug, PartialEq, Eq)]
pub struct Row {
    pub round: u32,
    pub exchanges: u32,
    /// Nodes that are up and whose peer is down or separated from them.
    pub unreached: u32,
    /// Exchanges that lost a message.
    pub lost: u32,
    pub entries: u64,
    pub cut: u64,
    pub stale: u64,
    pub greatest: u32,
    pub leftover: u64,
}
