//! What begins a round of a run: its plan, its restarts and its writes; and the tables and histories before the first.
#![tactic(auto)]

mod clusters;
mod plans;
mod starts;

pub use clusters::{Cluster, UnderWay};
pub use plans::{Drawn, Plan, RoundOf, next_plan};
pub use starts::Begun;
