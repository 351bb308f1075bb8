//! Tables with entries as tables of which exchanges are made.

use crate::exchanges::exchange;
use bench_types::{Exchange, Fault, Record, Rules};
use model::Exchanging;
use node_table::NodeTable;
use std::alloc::Global;

/// What carries out exchanges of tables that have their entries themselves. They read nothing else.
#[derive(Clone, Copy, Debug)]
pub struct Entries;

impl Exchanging<NodeTable> for Entries {
    ghost fits = { λ _ _. Unit {0} };

    ghost stays_fit = { λ shared rules e p q may fit_p fit_q. (tt, tt) };

    fn exchange(
        &self,
        alloc: Global,
        initiator: &mut NodeTable,
        responder: &mut NodeTable,
        plan: &Exchange,
        rules: &Rules,
    ) -> Result<Record, Fault> {
        exchange(alloc, initiator, responder, plan, rules)
    }
}
