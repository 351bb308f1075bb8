//! Tables that keep versions alone: of each owner's key the number of the write that is held. What stands under a
//! number, the owners' lists tell.
//!
//! # Choices
//!
//! - Writes are numbered through all generations of an owner, so marks of one owner compare as numbers, and a cell is
//!   one number. Where a generation begins, the owner's list tells.
//! - A table's meaning hangs on what the owners write in the whole run, a ghost member of a type parameter, and not on
//!   the lists so far: two tables always mean alike, whenever their cells were set. The histories keep that the lists
//!   so far are a beginning of it.
//! - A delta is two marks for each owner. No item is built and nothing is sorted. Both deltas are planned before either
//!   table changes, and all memory is taken before that.
//! - What surely fits isn't planned. A table has of an owner no more numbers above another's greatest one than keys,
//!   and no more than the two greatest ones are apart, since an owner's numbers differ. Where the sum of these fits the
//!   budget, or else the count of the numbers does, both ways, no message is lost and no copy is of an earlier
//!   generation, both tables take all in one pass over their cells (`may_merge`, `merge`): there is no delta, and no
//!   memory is taken. On the scenarios of `scripts/benchmark` in a scuttle mode that is most exchanges.
//! - The loop that keeps the numbers ahead of a precise digest, and puts 0 in place of the others, counts them too, and
//!   what the sender holds. So neither the plan goes over all planes once more, nor the sender's own digest.
#![tactic(auto)]

mod carrying;
mod deltas;
mod ended;
mod exchanges;
mod histories;
mod lags;
mod merging;
mod tables;
mod taking;

pub use delta_plans::deltas_have_their_sets;
pub use ended::Ended;
pub use histories::Histories;
pub use lags::SharedNumber;
pub use planes::{Number, Short};
pub use tables::{VersionTable, Written};
