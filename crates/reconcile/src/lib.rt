//! What one node tells another of its table: digests, and the deltas that answer them, in the
//! order of a mode and cut by a budget.
//!
//! # Choices
//!
//! - A contract sees a digest as what it told: nodes, keys, size, generations, and the greatest version by owner or the
//!   version by owner and key. `IsDigestOf` ties that to a table. So `delta` says what answers any digest (`ok`), and
//!   that it is the delta from table to table where the digest is that of a table of the receiver (`of_tables`).
//! - A digest is asked only for what its kind tells: `greatest` asks for a scuttle digest, `version` for a precise one,
//!   `delta` for one of its mode's kind.
//! - Candidates are found owner by owner, each owner's by ascending version, as the table holds them. In a scuttle mode
//!   nothing is looked at of an owner of whom the receiver's greatest mark isn't smaller; of each other owner a suffix
//!   of its entries is kept, and no entry is copied before it is sent (`suffixes_above`).
//! - The budget ends the walk. What is sent goes into a `Parcel`, which has what is left of the budget, and the first
//!   entry that doesn't fit leaves nothing for those behind it. So nothing but the order says what is sent, whatever an
//!   entry takes of the budget, which stands in one place, `share_of` of `bench_types`.
//! - `delta` and `Delta` stand in two modules, as two items of one module may not differ in case alone.
#![tactic(auto)]

mod answers;
mod candidates;
mod deltas;
mod digests;
mod parcels;
mod questions;
mod suffixes;
mod turns;

pub use answers::delta;
pub use deltas::Delta;
pub use digests::Digest;
