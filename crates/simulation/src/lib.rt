//! A simulation for other programs: the rounds of a run one by one, each when it is asked for, and a look at the tables
//! between them.
//!
//! # Choices
//!
//! - What holds after a round stands in the contract of `step`; `every_run_is_sound` speaks of each moment within one
//!   too.
//! - A simulation asks once how many processors there are, in the first step, as `new` and `of` have no runtime: to ask
//!   takes longer than a small round's figures. They bear on the threads of the figures alone, not on those that make
//!   the tables of `of_by`.
#![tactic(auto)]

mod apart;
mod sims;

pub use played_rounds::{Round, every_run_is_sound};
pub use sims::Sim;
