//! What a delta answers.

use crate::digests::Digest;
use crate::turns::Turns;
use bench_types::Budget;
use node_table::NodeTable;

/// What a receiver's digest asks of a sender's table, how the candidates take turns, and under which budget.
#[derive(Drop)]
pub(crate) struct Question<'a> {
    pub(crate) table: &'a NodeTable,
    pub(crate) digest: &'a Digest,
    pub(crate) receiver: u32,
    pub(crate) turns: Turns,
    pub(crate) budget: Budget,
}
