//! The exchanges of a round, carried out by any number of workers. The tables and the records are those of
//! one thread that goes through the list in order, whatever order the workers take.
//!
//! # Choices
//!
//! - A worker keeps its records to itself until it ends. Nothing is shared but the board, the deques, the trays and
//!   what is only read. So an exchange takes no lock, and a record is copied once at the end, to its place in list
//!   order.
//! - What a thread is given goes through a lock, which tells its type's invariant alone. So a task ties its seat to the
//!   board by the `Arc` that both lie in (`IsTask`), and what comes back goes through a tray with that board as its
//!   label.
//! - The tests stand beside those of `board`, in `tests_of_runs`, which share their lists and tables. They call
//!   `run_list` of `pool` and `Posts`. A test of 2000 exchanges among 256 nodes, by threads over the board and by workers, is there
//!   too: `acceptance` compares texts.
#![tactic(auto)]

mod gathering;
mod posts;
mod shifts;
mod tasks;
mod workers;

pub use crew::NoJob;
pub use posts::Posts;
pub use work::{Batch, Done, FreeGate, Gate, Work};
