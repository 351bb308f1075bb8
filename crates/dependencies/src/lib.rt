//! Which exchanges of a round have to wait for which others, and what every order that respects this
//! gives: the tables and records of list order.
//!
//! # Choices
//!
//! - Dependencies are seen as the list alone. What is kept beside it, the neighbours of each exchange, follows from the
//!   list, so no value has it.
#![tactic(auto)]

mod deps;
mod events;
pub mod laws;

pub use deps::{After, Before, Deps};
pub use events::Event;
