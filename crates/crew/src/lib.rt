//! Threads that are started once and given one duty after another, trays in which they leave what they come back with,
//! and work on parts of one value.
//!
//! # Choices
//!
//! - A yard starts no thread and calls no duty: a thread of a scope may only send what its own function can name the
//!   bounds of. So the loop of a thread, `next`, its duty and `finish`, stands with whoever knows what the duties are.
//! - A lock tells of what lies under it only what its type says. What a duty brings is tied by its own type, which can
//!   name an `Arc` that it shares. What comes back is tied by a tray, a lock with a key: the label of its owner.
//! - A yard takes no memory once it is made, so no refusal leaves a thread behind.
#![tactic(auto)]

mod parts;
mod shares;
mod trays;
mod yards;

pub use parts::{Answered, Crew, Divided, Job, LookJob, NoJob, Parted, look_in_parts};
pub use shares::alone;
pub use trays::{Label, Trays};
pub use yards::Yard;
