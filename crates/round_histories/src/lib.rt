//! What a simulation asks of what it keeps beside its nodes' tables, whatever their representation is, and the empty
//! tables that it begins with.
//!
//! # Choices
//!
//! - Histories are the owners' lists and what is kept beside them. Tables with entries need the lists alone
//!   (`EntryHistories` of `bench`). What exchanges read of histories is tied to tables by a clause of `end_writes`, and
//!   not by a law: a law would speak of any value, while the call has the value's invariant.
//! - Histories know how many keys there are and count the rounds, so no call is told either. That a round's writes are
//!   made is told (`end_writes`), since histories may note where rounds end.
#![tactic(auto)]

mod openings;
mod resources;
mod round_histories;

pub use openings::{Shares, empty_tables, empty_tables_by};
pub use resources::{Hands, Resources};
pub use round_histories::{Counted, RoundHistories, TakesAll};
