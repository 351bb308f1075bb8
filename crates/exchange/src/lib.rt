//! One exchange of two nodes' tables with entries, with the messages that get lost.
//!
//! # Choices
//!
//! - No room is made for the responder where message 3 is lost. Its table then stays, so a refusal there would be
//!   without cause.
#![tactic(auto)]

mod exchanges;
mod exchanging;

pub use exchanges::exchange;
pub use exchanging::Entries;
