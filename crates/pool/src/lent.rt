//! What carries out exchanges, lent to the workers of one list.

use bench_types::{Exchange, Fault, Record, Rules};
use model::{Exchanging, MemoryTable};
use std::alloc::Global;

/// It carries out exchanges as what it borrows does.
#[derive(Drop)]
pub(crate) struct Lent<'a, X> {
    pub shared: &'a X,
}

impl<'a, T: MemoryTable, X: Exchanging<T>> Exchanging<T> for Lent<'a, X> {
    ghost fits = { λ lent t. X.fits lent.shared.now t };

    ghost stays_fit = { λ lent. X.stays_fit lent.shared.now };

    fn exchange(
        &self,
        alloc: Global,
        initiator: &mut T,
        responder: &mut T,
        plan: &Exchange,
        rules: &Rules,
    ) -> Result<Record, Fault> {
        self.shared
            .exchange(alloc, initiator, responder, plan, rules)
    }
}
