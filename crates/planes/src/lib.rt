//! Numbers in planes, one plane for each key and in it a number for each owner: what they tell of each owner.
//!
//! # Choices
//!
//! - Loops go by index, as `counts[r] = ..` for r below the length. A proved index has no test at run time, each write
//!   has a clause, and the compiler makes vector code of such a loop as of zipped slices. What differs between loops,
//!   which numbers count or what one becomes, comes as a closure of owner and number, whose own clauses say what that
//!   is: measured on five scenarios, with one worker, that took from 5 % less time to as much.
//! - What is counted over a plane is counted in its numbers' bits, as a wider sum would halve what a vector instruction
//!   does: of bytes 192 at a time, each time added into 32 bits, of others as many as there may be nodes. What asks for
//!   no owner's mark is counted over all planes as one.
//! - These loops know no table, so their proofs stand on nothing but the limits, and are checked beside the rest.
#![tactic(auto)]

mod ends;
mod grids;
mod numbers;
mod owners;
mod planes;
mod sizes;

pub use ends::Ends;
pub use grids::{
    all_of, count_held, count_some_between, counts_above, least_above, least_of, none_upto,
    plane_of, total_above, total_upto, zeros,
};
pub use numbers::{Number, Short};
pub use owners::are_few;
pub use planes::{change, how_many, is_between, lower, pick, raised_to};
pub use sizes::{Grid, Size};
