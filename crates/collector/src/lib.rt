//! The records of a list's exchanges: they come in any order and go out in list order.
#![tactic(auto)]

mod collectors;

pub use collectors::{Collector, Stamped};
