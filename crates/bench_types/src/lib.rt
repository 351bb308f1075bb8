//! The plain types that every crate of the bench speaks of: entries and what is sent, the fates
//! and records of exchanges, rows, faults, the limits of a scenario, and where bytes come from
//! and go to. Nothing here takes memory.
#![tactic(auto)]

mod entries;
mod exchanges;
mod faults;
mod fields;
mod fillings;
mod outputs;
mod rows;
mod sinks;
mod sources;

pub use entries::{Entry, Item, Mark};
pub use exchanges::{Budget, DigestKind, Exchange, Fate, Mode, Record, Rules};
pub use faults::Fault;
pub use fields::{Field, TableName};
pub use fillings::Filling;
pub use limits;
pub use outputs::write_text;
pub use rows::{Figures, Row};
pub use sinks::{Discard, Push, Sink};
pub use sources::{Failed, Pull, Source};
