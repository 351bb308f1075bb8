//! What workers are given to do, and what comes of it.

use bench_types::{Record, Rules};
use model::RoundList;

/// The exchanges of a list by these rules, for so many workers. `shared` carries out each of them, between two calls of
/// the gate, and is only read.
#[derive(Drop)]
pub struct Work<'a, X, G> {
    pub shared: &'a X,
    pub list: &'a RoundList,
    pub rules: &'a Rules,
    pub gate: &'a G,
    pub workers: u32,
}

/// The exchanges of a list, for workers that outlive it. They have `shared` meanwhile.
#[derive(Drop)]
pub struct Batch<'a, X, G> {
    pub shared: X,
    pub list: &'a RoundList,
    pub rules: &'a Rules,
    pub gate: G,
}

/// The tables by node and the records in list order, what was shared, and what the caller's thread made meanwhile.
#[derive(Drop)]
pub struct Done<T, X, M> {
    pub tables: Vec<T>,
    pub records: Vec<Record>,
    pub shared: X,
    pub made: M,
}
