//! How far the copies of all nodes lag behind their owners: the figures of a round, which are how many keys of copies
//! are stale, the most rounds that one has been so, and how many entries are left over of generations that their
//! owners have ended.
//!
//! # Choices
//!
//! - A copy of an older generation than the owner's lags as one that holds nothing, and one of a newer as one that
//!   misses nothing.
//! - `OwnerList` is given again, with the `Kept` and `Write` that it answers, as the calls that take lists stand here.
#![tactic(auto)]

mod staleness;

pub use owner_lists::{Kept, OwnerList, Write};
pub use staleness::figures;
