//! The tables of all nodes, moved between threads by atomic steps. Each thread has a seat of its own,
//! claims exchanges of a round's list with it and puts back what they leave. No call waits. Whatever
//! order the threads take, each exchange gets the tables that it finds in list order.
//!
//! # Choices
//!
//! - The rule, its steps and their laws are over slots that hold tables of the model, and `proofs/Modelled.antt` lifts
//!   what the rule allows there to slots that hold a table in memory (`MemoryTable`). `Board`, `Seat`, `Hold` and
//!   `Claim` have the type of table as a parameter.
//! - `put_back` asks that the tables are those that the exchange leaves, and `claim` says that those which it hands out
//!   are list order's, so a caller can show the one with the other and the contract of `exchange`.
//! - A seat is seen by one function, `seat_view`, and tied to its board by `IsSeatOf`, which every call asks for and
//!   gives back. Neither type has a model: both hold tokens of `atomic_table`, and contracts need no more of them.
//! - A put-back takes the empty slots again by a load of the exchange's own word. A load of the count word has no
//!   operand that would say which exchange it is for.
//! - The count word counts by twos, and its lowest bit is the stop. So one addition finishes an exchange, one `or`
//!   stops, and one load sees both.
//! - `join` costs two loads, of which the second is there for the promise that no exchange stands twice in what the
//!   joined seat has made and holds.
//! - Between two steps of a call its view says what the call owes: an exchange whose tables are on their way
//!   (`moving`), and releases (`owes`). A seat at rest owes nothing, and contracts never show either.
//! - A seat has 65536 parts at first, and a split gives one away. One with all is alone, so its answers are exact.
//! - The wrong body with the opening tables (`must-fail`) leaves a clone of each table that it hands out in its slot,
//!   and keeps it there when the table comes back. It has no other way to them: a board keeps one table for each node.
#![tactic(auto)]

mod boards;
pub mod laws;
mod plays;
mod views;

pub use boards::{Board, Claim, Freed, Hold, Progress, Seat};
