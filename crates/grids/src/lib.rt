//! Tables of planes, `cells[key * nodes + owner]`: loops over all of their numbers, which count, take, merge or lower
//! them.
//!
//! # Choices
//!
//! - What goes over the same planes goes in one loop: to take numbers and to raise the greatest ones, to count what is
//!   behind and to lower the least. Where tables are large, each pass waits for memory.
//! - What asks for no owner's mark goes over all planes as one: a loop begins and ends once, not once for each key. So
//!   does the mask of what is ahead, where no owner but the receiver has a mark and nothing of the receiver is ahead up
//!   to its own, as most often. It is written among zeros, so that no number is read twice, and the same loop counts
//!   what the table holds: its precise digest takes no pass of its own.
//! - Where all comes, both ways go in one pass (`merge`). A number of one table that is above the other's greatest one
//!   goes over; it can't be that one comes back in its place, so neither way has to wait for the other. The pass counts
//!   what goes each way, and the greatest numbers are raised once behind it.
//! - How far greatest numbers are apart is worked out in their own bits, and summed up in 16 bits for 256 owners at a
//!   time: in 32 bits that took twice as long.
//! - Few owners are gone through one by one. An owner whose two marks have nothing between them concerns no loop that
//!   takes or counts numbers. Where there are 16 keys or more, and at most one in 32 owners has something between its
//!   marks, or one in 8 where numbers are changed, these owners alone are visited, key by key, in place of whole
//!   planes. Where two tables are merged, the numbers of such an owner come from the table with the greater mark. The
//!   contract is the same.
#![tactic(auto)]

mod counts;
mod grids;
mod lags;
mod merges;
mod owners;

pub use grids::{Masked, Peer, Sent, ahead, drop_owner, take};
pub use lags::{count_behind, least_behind};
pub use merges::{BothCounts, BothMarks, merge, most_ahead, raise_both};
