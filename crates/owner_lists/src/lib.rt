//! All that an owner wrote, in order: the write of a number, and the first write of a key that a copy misses.
//!
//! # Choices
//!
//! - The writes are kept by `owner_writes`. The last writes of the keys are of the generation alone, which `figures`
//!   reads.
//! - The write that a copy misses is looked for behind the one that it has, where the key's last write is newer: a
//!   few steps where keys are written in turn. No index leads from a write to the next one of its key.
//! - A restart that forgets begins a generation of the list, and drops nothing. `forget` drops all, for callers that
//!   count their generations elsewhere.
//! - `is_empty`, `generation` and `numbered` stand beside the calls that change a list, and `first_missed` for
//!   `figures`.
//! - The value of a write that is pushed is 0: `push` names none, and `write` does.
#![tactic(auto)]

mod lists;

pub use lists::OwnerList;
pub use model::Write;
pub use owner_writes::Kept;
