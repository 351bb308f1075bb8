//! What workers are given to do, how one alone does it, and where several find it.
//!
//! # Choices
//!
//! - A type that outlives a list can't name its length, so the rule of a deque asks nothing of the indices in it, and a
//!   worker compares each that it takes with the length.
#![tactic(auto)]

mod gates;
mod in_order;
mod push_logs;
mod tasks;
mod works;

pub use gates::{FreeGate, Gate};
pub use in_order::exchange_all;
pub use tasks::Tasks;
pub use works::{Batch, Done, Work};
