//! One node's table: what the node holds of every node's state, as a finite map from owner and
//! key to an entry, under own writes, received items and restarts.
//!
//! # Choices
//!
//! - A table lies in rows. Each owner of whom something is held has a block of slots, one for each key, and at its
//!   front a row of entries, ascending by version and then by key. So what is above a mark is a whole row or the end of
//!   one, an item that comes in changes one block alone, and an owner's greatest version stands in a list of its own. A
//!   row is an inner word: callers ask for `entries_of` an owner, and the rows of which they speak are those of the
//!   report.
//! - A newer generation takes over the block of the older one, so it needs no room, and room is counted by the owners
//!   of whom nothing is held.
//! - An item that is the newest of its owner takes one pass over the row, and most are. The pass writes each entry of
//!   another key where it goes, and the item comes behind them, so no branch hangs on what it reads. Another item is
//!   searched for and put at its rank.
//! - No call lends all entries at once: digests, candidates and figures go owner by owner, by `entries_of`, `above` and
//!   `greatest_versions`. `items_of`, all entries by owner and then by key, is a definition alone.
//! - Room is no part of a table: tables are equal where node, nodes, keys, generation and entries are.
#![tactic(auto)]

mod layouts;
mod rows;
mod tables;

pub use tables::{NodeTable, generation_in};
