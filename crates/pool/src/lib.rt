//! The exchanges of a round, carried out by any number of workers on tables with entries, and a list by workers that are
//! started for it, on tables of any representation.
#![tactic(auto)]

mod lent;
mod lists;
mod runs;

pub use lists::run_list;
pub use runs::run_list_with;
pub use workers::{Batch, Done, FreeGate, Gate, NoJob, Posts, Work};
