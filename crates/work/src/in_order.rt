//! One worker: the exchanges of a list in their order, with no thread.

ghost use Rattle.std.specs.Prelude.{length, map, IfOk, IsOkUnless};
ghost use Rattle.bench_types.specs.declared.faults.Fault.TheVariants.{OutOfMemory};
ghost use Rattle.bench_types.specs.calls.Exchange.{IsPlanned};
ghost use Rattle.work.specs.Carrying.{MayCarryOut, MayWorkOn, HasWorkedOn};
ghost use Rattle.work.specs.inner.Turns.{IsPairExchanged};

use crate::gates::Gate;
use crate::works::Work;
use bench_types::{Exchange, Fault, Record};
use model::{Exchanging, MemoryTable};
use std::alloc::Global;

/// Carries out the exchanges of the list in its order, each between two calls of the gate, and gives their records in
/// that order. An error is lack of memory (`OutOfMemory`), after which some of them may be carried out.
pub fn exchange_all<T: MemoryTable, X: Exchanging<T>, G: Gate>(
    alloc: Global,
    work: Work<X, G>,
    tables: &mut [T],
) -> Result<Vec<Record>, Fault>
    requires tables { MayWorkOn T.table X.fits work tables.old }
    ensures exchanged { IfOk result (λ v. HasWorkedOn T.table work.entry tables.old tables.new v.items) }
    ensures only { IsOkUnless result OutOfMemory }
{
    let mut records = Vec::with_capacity(alloc, work.list.len() as usize)?;
    for (i, plan) in work.list.exchanges().iter().enumerate() {
        work.gate.enter(i as u32);
        let sent = exchange_pair(alloc, &work, tables, plan)?;
        work.gate.leave(i as u32);
        records.push_reserved(sent);
    }
    Ok(records)
}

fn exchange_pair<T: MemoryTable, X: Exchanging<T>, G>(
    alloc: Global,
    work: &Work<X, G>,
    tables: &mut [T],
    plan: &Exchange,
) -> Result<Record, Fault>
    requires tables { MayCarryOut (X.fits work.now.shared.now) work.now.rules.now (length tables.old)
        (map T.table tables.old) }
    requires planned { IsPlanned (length tables.old) plan.now }
    ensures exchanged { IfOk result (IsPairExchanged T.table work.now.rules.now plan.now tables.old tables.new) }
    ensures only { IsOkUnless result OutOfMemory }
{
    let initiator = plan.initiator as usize;
    let responder = plan.responder as usize;
    if initiator < responder {
        let (below, from) = tables.split_at_mut(responder);
        work.shared.exchange(alloc, &mut below[initiator], &mut from[0], plan, work.rules)
    } else {
        let (below, from) = tables.split_at_mut(initiator);
        work.shared.exchange(alloc, &mut from[0], &mut below[responder], plan, work.rules)
    }
}
