//! What a round of a scenario holds before any entry moves: the random words of its nodes, which of
//! them are out of reach, which exchange with which, and what each node writes. All of it follows
//! from the scenario and the number of the round alone.
//!
//! # Choices
//!
//! - In `specs` a node's own writes are entries, with value and `born`, not the `OwnWrite` that a round hands out
//!   (`born_in` gives that its round and generation). So they are what the owner's state is made of, and `writes_of`
//!   says how a round adds to it (`grows`).
//! - A generation follows from the scenario, as in how many rounds so far the node forgot (`generation_upto`). So
//!   `writes_of` doesn't ask for it, and no entry has one that isn't the scenario's.
//! - A list is made of what each node is or begins, which `rayon` finds node by node, in several threads where there is
//!   enough to go over. For these the calls take the runtime before the allocator; they never wait, as `rayon` joins
//!   the threads.
//! - `peer` draws its word on a ring too, where nothing uses it: one block is all that it costs.
//! - A list `apart` rises, so two binary searches tell whether exactly one of two nodes is in it.
//! - `as_slice` of `Writes` is there because a loop over a slice needs no index and no `None`.
#![tactic(auto)]

mod outages;
mod owners;
mod peers;
mod rounds;
mod run_words;
mod words;

pub use model::{MOST_EXCHANGES, RoundList};
pub use outages::{any_restart_now, forgets_now, is_up, restarts_now, separated};
pub use owners::{OwnWrite, Writes, writes_by, writes_in, writes_of};
pub use peers::peer;
pub use rounds::{round_list, round_list_by};
pub use run_words::RunWords;
pub use words::{ROUND_WORDS, draw};
