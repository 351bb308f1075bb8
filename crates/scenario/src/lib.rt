//! Reads a scenario, the description of a run, from a TOML text and checks it field by field. The
//! first fault in the order of the checks is answered and nothing is filled in. What is accepted
//! keeps every limit in its type, so no caller has to test one again.
//!
//! # Choices
//!
//! - UTF-8 is tested before the TOML, so bytes that are no text are `NotToml` even where memory is short (clause
//!   `no_text` of `read`). No clause rules out `OutOfMemory` at a text that is UTF-8: the TOML reader may answer it at
//!   any text that isn't blank. So `first` speaks of the other faults.
//! - The contract of `read` speaks of all checks at once, so a reader needs no chain in mind: each value is the one that
//!   the document has at the field's key (`says`), which fixes it (`documents_fix_settings`), and a fault is the first
//!   in the list of checks (`first`, `no_fault`). There each value of `apart` is held against the value before it, and a
//!   `to` against the `from` of its own table.
//! - What TOML is, the toolchain's crate `toml` says: TOML 1.1, integers of 64 bits with a sign, and no value nested
//!   more than 80 deep. An integer that doesn't fit, or a deeper value, is `NotToml`, not a fault of its field.
//! - The elements of all three arrays are read by one function, `array_at`, over the types of arrays (`Elements`). What
//!   reads an element is no trait of the element's own type: a crate loads every impl of a type that it names, and with
//!   the impl on `Load` itself each check of a crate above loaded 9,000 modules of TOML, 15 seconds' worth.
//! - Unknown keys of elements are looked for in a second walk, since they come after all other checks. That check names
//!   the table alone, so the definition asks of all elements at once (`elements_have_only`).
//! - A contract sees a `Partition` as a `PartitionView`, its two rounds and the list of nodes: the vector in it has a
//!   capacity, which no text says. `Restart` and `Load` hold numbers alone and are seen as they are. Callers see the
//!   values of a `Scenario` alone, and one reader, `rounds`, says that all limits hold (`lawful`).
//! - `Rotation::Off` stands for the text `none`, since `None` is the word of `Option`, in code and in clauses.
#![tactic(auto)]

mod arrays;
mod budgets;
mod choices;
mod elements;
mod fields;
mod laws;
mod parts;
mod scenarios;
mod tables;
mod texts;
mod words;

pub use choices::{Choice, Peers, Rotation};
pub use elements::{Load, Partition, Restart};
pub use laws::documents_fix_settings;
pub use scenarios::Scenario;
pub use texts::read;
