//! From a scenario's bytes to those of its report and its trace, or of the comparison of the modes:
//! reading, rounds in order, lines.
//!
//! # Choices
//!
//! - `read_all` takes no memory before its first pull, so a source that had failed before is answered `ReadFailed` for
//!   sure (`was_sound` in each other case). It reads pieces of 8192 bytes, and asks for at most one byte more than a
//!   scenario may have. `TooLong` is tested before memory is taken for the bytes: an input that is too long is answered
//!   so, whatever memory is left.
//! - Report and trace are functions of the settings. `report_text`, `trace_text` and what they stand on have no table
//!   in memory and no list in them, so the contract of `run` can be read without the code.
//! - `run` takes the runtime by reference, as `Cluster::new_by` does, for the threads that make the tables, for the
//!   workers and for the threads of a round's list and figures. Workers may wait. `run` and `compare` call no gate, so
//!   they pass `FreeGate`.
//! - A run and a comparison ask once how many processors there are for the figures of their rounds. These bear on the
//!   threads of the figures alone, not on those that make the tables.
//! - A run and a comparison are one loop over the rounds (`rounds.rt`) and differ in what each round is written to
//!   (`outputs.rt`). What that holds by reference stays the same, which its relations say: else no caller would know
//!   what becomes of its ends.
//! - A comparison's text doesn't depend on the scenario's own mode, which the contract of `compare` says (`own_mode` of
//!   `IsCompared`) beside the text itself. The scenario goes from mode to mode by value: the
//!   rounds of each hand it back, so nothing is copied.
//! - The wrong body that counts down nodes as fresh (`must-fail`) does so in the rows of rounds in which all nodes are
//!   down. In any other round it would need the figures of some tables, which only a loop with an invariant could give,
//!   so it would be refused for want of one.
#![tactic(auto)]

mod comparing;
mod inputs;
mod outputs;
mod rounds;
mod runs;
mod sizes;

pub use comparing::compare;
pub use inputs::read_all;
pub use runs::{check_input, run};
