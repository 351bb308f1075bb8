//! How a round begins: its restarts, and then its writes.

ghost use Rattle.std.specs.Prelude.{◌≡◌, ◌+◌, ◌-◌, ◌≤◌, ◌&&◌, nat_lt, is_some, length, map, IfOk, IfSome, OnOk, IsOkUnless};
ghost use Rattle.bench_types.specs.declared.faults.Fault.TheVariants.{OutOfMemory};
ghost use Rattle.limits.specs.declared.TheConstants.{MOST_ROUNDS};
ghost use Rattle.cluster.specs.Rounds.{after_restart};
ghost use Rattle.cluster.specs.inner.InMemory.{HasBegun, IsBeforeRound, IsBegun, IsOwnerIn, IsRestartedIn, WritesIn};
ghost use Rattle.cluster.specs.calls.Clusters.{HaveEnded, IsRoundOf, TablesStand};
ghost use Rattle.cluster.specs.calls.Plans.{AreCountsAfter, IsPlanOf};
ghost use Rattle.cluster.specs.inner.Steps.{counted_in, LeavesOthers, MayWriteOwn};

use crate::plans::Plan;
use bench_types::Fault;
use model::{MemoryTable, RoundList};
use round_histories::{Resources, RoundHistories};
use round_plan::{OwnWrite, RunWords, forgets_now, restarts_now, writes_by};
use scenario::Scenario;
use std::thread::Threads;

/// What there is of a round that has begun, beside the tables and the histories.
#[derive(Drop)]
pub struct Begun {
    pub list: RoundList,
    pub words: RunWords,
    /// How many writes of its generation each node has made, where the next round is to be drawn meanwhile.
    pub counts: Option<Vec<u32>>,
}

/// A round that begins, and its plan.
#[derive(Clone, Copy)]
pub(crate) struct Start<'a> {
    pub scenario: &'a Scenario,
    pub round: u32,
    pub plan: &'a Plan,
}

/// What a round begins with: its restarts and its writes, by node; and then how many writes of its generation each node
/// has made, where the next round is to be drawn meanwhile.
pub(crate) fn begin_nodes<T: MemoryTable, K: RoundHistories<T>>(
    resources: &Resources<impl Threads + Sync>,
    start: &Start,
    tables: &mut [T],
    histories: &mut K,
) -> Result<Option<Vec<u32>>, Fault>
    requires round { IsRoundOf K.may_write start.now.scenario.now start.now.round }
    requires plan { IsPlanOf start.now.scenario.now start.now.round start.now.plan.now }
    requires ended { HaveEnded start.now.scenario.now (start.now.round - 1) (K.kept histories.old) }
    requires standing { TablesStand T.table K.kept start.now.scenario.now (start.now.round - 1) tables.old
        histories.old }
    ensures begun { OnOk result (HasBegun T.table K.kept K.fits start.now.scenario.now start.now.round
        tables.old tables.new histories.new) }
    ensures counted { IfOk result
        (λ counts. IfSome counts (λ v. AreCountsAfter start.now.scenario.now start.now.round v.items)) }
    ensures another { IfOk result (λ counts. IfSome counts (λ _. start.now.round + 1 ≤ MOST_ROUNDS)) }
    ensures only { IsOkUnless result OutOfMemory }
{
    for node in 0..start.scenario.nodes() {
        let at = node as usize;
        begin_node(start, node, &mut tables[at], histories)?;
    }
    histories.end_writes()?;
    counts_of(resources, start.scenario, start.round, histories)
}

// What a node begins a round with: its restarts, and then its writes. No other node's table or list matters
// to it.
fn begin_node<T: MemoryTable, K: RoundHistories<T>>(
    start: &Start,
    node: u32,
    table: &mut T,
    histories: &mut K,
) -> Result<(), Fault>
    requires round { IsRoundOf K.may_write start.now.scenario.now start.now.round }
    requires plan { IsPlanOf start.now.scenario.now start.now.round start.now.plan.now }
    requires before { IsBeforeRound T.table K.kept start.now.scenario.now start.now.round node table.old histories.old }
    ensures owner { OnOk result
        (IsOwnerIn T.table K.kept start.now.scenario.now start.now.round node table.new histories.new) }
    ensures table { OnOk result (IsBegun T.table start.now.scenario.now start.now.round node table.old table.new) }
    ensures others { OnOk result (LeavesOthers node (K.kept histories.old) (K.kept histories.new)) }
    ensures only { IsOkUnless result OutOfMemory }
{
    restart(start, node, table, histories);
    match &start.plan.writes {
        Some(writes) => write_own(table, histories, writes[node as usize].as_slice()),
        None => {
            let count = histories.count(node);
            let words = start.plan.words.of_node(node);
            let writes = writes_by(start.scenario, node, start.round, count, words);
            write_own(table, histories, writes.as_slice())
        }
    }
}

// How many writes of its generation each owner has made, where the next round is to be drawn while this one is under
// way: several workers leave the caller's thread idle.
fn counts_of<T: MemoryTable, K: RoundHistories<T>>(
    resources: &Resources<impl Threads + Sync>,
    scenario: &Scenario,
    round: u32,
    histories: &K,
) -> Result<Option<Vec<u32>>, Fault>
    requires round { round ≤ scenario.now.rounds }
    requires one_each { length (K.kept histories.now).lists ≡ scenario.now.nodes }
    ensures when { IfOk result
        (λ counts. is_some counts ≡ (nat_lt 1 resources.now.hands.workers && nat_lt round scenario.now.rounds)) }
    ensures counts { IfOk result
        (λ counts. IfSome counts (λ v. v.items ≡ map counted_in (K.kept histories.now).lists)) }
    ensures another { IfOk result (λ counts. IfSome counts (λ _. round + 1 ≤ MOST_ROUNDS)) }
    ensures only { IsOkUnless result OutOfMemory }
{
    if resources.hands.workers == 1 || round == scenario.rounds() {
        return Ok(None);
    }
    let nodes = scenario.nodes();
    let mut counts = Vec::with_capacity(resources.alloc, nodes as usize)?;
    for owner in 0..nodes {
        counts.push_reserved(histories.count(owner));
    }
    Ok(Some(counts))
}

// The restarts of a node in a round: they empty its copies of all others, or where it forgets its whole table.
fn restart<T: MemoryTable, K: RoundHistories<T>>(
    start: &Start,
    node: u32,
    table: &mut T,
    histories: &mut K,
)
    requires before { IsBeforeRound T.table K.kept start.now.scenario.now start.now.round node table.old histories.old }
    requires plan { IsPlanOf start.now.scenario.now start.now.round start.now.plan.now }
    ensures owner { IsRestartedIn T.table K.kept start.now.scenario.now start.now.round node table.new
        histories.new }
    ensures table { T.table table.new
        ≡ after_restart start.now.scenario.now start.now.round node (T.table table.old) }
    ensures others { LeavesOthers node (K.kept histories.old) (K.kept histories.new) }
{
    if !start.plan.any_restart {
        return;
    }
    if restarts_now(start.scenario, node, start.round) {
        if forgets_now(start.scenario, node, start.round) {
            histories.forget(table);
        } else {
            K::restart(table);
        }
    }
}

// Writes of the round that comes next.
fn write_own<T: MemoryTable, K: RoundHistories<T>>(
    table: &mut T,
    histories: &mut K,
    writes: &[OwnWrite],
) -> Result<(), Fault>
    requires may { MayWriteOwn K.may_write ((K.kept histories.old).rounds + 1) writes.now (T.table table.old)
        (K.kept histories.old) }
    ensures written { OnOk result
        (WritesIn T.table K.kept writes.now table.old table.new histories.old histories.new) }
    ensures others { OnOk result
        (LeavesOthers (T.table table.old).node (K.kept histories.old) (K.kept histories.new)) }
    ensures only { IsOkUnless result OutOfMemory }
{
    for write in writes {
        histories.write(table, write.key, write.value)?;
    }
    Ok(())
}
