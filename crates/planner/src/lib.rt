//! Schedules of a round's exchanges, event by event, and carrying one out on one thread.
//!
//! # Choices
//!
//! - A schedule is seen as the list and how far each exchange is. `start` looks at the two exchanges at most that one
//!   waits for, and `finish` changes nothing but the one exchange.
//! - The type of a schedule keeps that what an exchange waits for is done, and the readers say that some lawful
//!   schedule leads there (`lawful`). So no history is kept.
//! - `play` carries out one event in a function of its own, `follow`. Each `?` of `play` gives up the schedule and the
//!   tables, and the proof goes over all that is given up. It takes memory at its end too, for the two lists that it
//!   answers, so `OutOfMemory` may come after the last event.
#![tactic(auto)]

mod plays;
mod schedules;

pub use dependencies::{After, Before, Deps, Event, laws};
pub use plays::play;
pub use schedules::{Schedule, Stage};
