//! What is computed, apart from how it lies in memory: tables, digests and deltas, exchanges, the fold of
//! a round's list, what owners write, and the figures, with the laws of all of them. Code is here what every
//! representation of a table needs: a round's list, a write, and the traits of a table in memory.
//!
//! # Choices
//!
//! - The greatest mark of an owner of whom nothing is held is the absent one, also that of the node itself, after it
//!   forgot and before it writes again. The node's generation is a field of its own, `generation`, and the next write
//!   takes it.
//! - That a node's own part is its last writes is said of every number as a key, not only of those below `keys`. Then
//!   no further condition on the keys of a list is needed.
//! - The figures are defined over tables without room, and over the lists that the caller hands in. So all that a run's
//!   texts are made of can be read without what lies in memory.
//! - A digest has only its size here. The record counts it, and nothing else of a digest shows, as candidates follow
//!   from the receiver's table. What a digest tells in memory `reconcile` alone sees.
//! - A round list has at most `MOST_EXCHANGES` exchanges, for every number of nodes: the limit is a constant of its
//!   own, since a list is lawful or not by itself, without a scenario.
//! - `round_plan` gives `RoundList` again, and `owner_lists` and `staleness` give `Write`. `is_empty` and `exchanges`
//!   stand beside `len` and `get`, since a loop over a slice needs no index and no `None`.
#![tactic(auto)]

mod exchanging;
pub mod laws;
mod lists;
mod records;
mod writes;

pub use exchanging::{Exchanging, MemoryTable};
pub use lists::{MOST_EXCHANGES, RoundList};
pub use records::{DeltaCounts, sent_back, sent_before_an_answer, sent_both};
pub use writes::Write;
