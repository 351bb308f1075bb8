//! The rounds of a run as a cluster plays them: the exchanges of each in list order, its records and its figures.
//!
//! # Choices
//!
//! - `every_run_is_sound` speaks of each moment within a round, also of those that no caller can look at.
#![tactic(auto)]

mod laws;
mod playing;
mod processors;
mod rounds;

pub use laws::every_run_is_sound;
pub use playing::NextRound;
pub use processors::processors_of;
pub use rounds::Round;
