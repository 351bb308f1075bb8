//! All that an owner wrote, in order, as a run keeps it: each write in 16 bytes, found by its number.
//!
//! # Choices
//!
//! - The writes lie in one vector, those of earlier generations first. To begin a generation is to move the place at
//!   which it starts, so it takes no memory.
#![tactic(auto)]

mod writes;

pub use writes::{Kept, OwnerWrites};
