//! The exchange of an initiator and a responder.

ghost use Rattle.std.specs.Prelude.{◌≡◌, ◌^◌, ◌<◌, All, IfOk, OnOk, OnErr, IsOkUnless, false, length};
ghost use Rattle.bench_types.specs.declared.faults.Fault.TheVariants.{OutOfMemory};
ghost use Rattle.bench_types.specs.calls.Budget.{IsLawfulBudget};
ghost use Rattle.bench_types.specs.Mode.{digest_kind};
ghost use Rattle.model.specs.calls.Table.{IsFor, MayReceive};
ghost use Rattle.model.specs.Table.{applied};
ghost use Rattle.reconcile.specs.Digests.{IsDigestOf, IsOfKind};
ghost use Rattle.exchange.specs.inner.Messages.{IsAnswer, MayAnswerEachOther, after_message};
ghost use Rattle.exchange.specs.InMemory.{IsExchanged, BothTablesStay};

use bench_types::{Exchange, Fault, Record, Rules};
use model::{DeltaCounts, sent_back, sent_before_an_answer, sent_both};
use node_table::NodeTable;
use reconcile::{Delta, Digest, delta};
use std::alloc::Global;

/// Carries out one exchange. The first table is the initiator's.
///
/// An error is lack of memory (`OutOfMemory`). All of it is taken before either table changes, so both are
/// then as they were. It is taken for both digests, for the candidates both ways and for the room of what
/// is sent; only that room stays taken.
///
/// Where no message is lost, a scuttle mode copies a number for each owner and compares it with the
/// other side's, on both sides. Each side looks at its entries of the owners where its own number is
/// greater. A precise mode looks at each entry of both tables twice, under a budget in bytes at times
/// three times, and sorts what is sent. To this come both calls of `apply`. What a lost message leaves
/// unsent isn't worked out.
pub fn exchange(
    alloc: Global,
    initiator: &mut NodeTable,
    responder: &mut NodeTable,
    plan: &Exchange,
    rules: &Rules,
) -> Result<Record, Fault>
    requires budget { IsLawfulBudget rules.now.budget }
    requires initiator { initiator.old.table.node ≡ plan.now.initiator }
    requires responder { responder.old.table.node ≡ plan.now.responder }
    requires nodes { initiator.old.table.nodes ≡ responder.old.table.nodes }
    requires keys { initiator.old.table.keys ≡ responder.old.table.keys }
    requires rotation { plan.now.rotation < initiator.old.table.nodes }
    ensures ok { IfOk result (IsExchanged rules.now plan.now initiator.old responder.old initiator.new responder.new) }
    ensures err { OnErr result (BothTablesStay initiator.old responder.old initiator.new responder.new) }
    ensures only { IsOkUnless result OutOfMemory }
{
    let digest1 = Digest::of(alloc, initiator, rules.mode)?;
    if plan.lost1 {
        return Ok(sent_before_an_answer(digest1.size()));
    }
    let digest2 = Digest::of(alloc, responder, rules.mode)?;
    exchange_deltas(alloc, initiator, responder, &digest1, &digest2, plan, rules)
}

// The exchange from the second message on.
fn exchange_deltas(
    alloc: Global,
    initiator: &mut NodeTable,
    responder: &mut NodeTable,
    digest1: &Digest,
    digest2: &Digest,
    plan: &Exchange,
    rules: &Rules,
) -> Result<Record, Fault>
    requires digest1 { IsDigestOf (digest_kind rules.now.mode) initiator.old.table digest1.now }
    requires digest2 { IsDigestOf (digest_kind rules.now.mode) responder.old.table digest2.now }
    requires came { plan.now.lost1 ≡ false }
    requires budget { IsLawfulBudget rules.now.budget }
    requires tables { MayAnswerEachOther plan.now initiator.old.table responder.old.table }
    ensures ok { IfOk result (IsExchanged rules.now plan.now initiator.old responder.old initiator.new responder.new) }
    ensures err { OnErr result (BothTablesStay initiator.old responder.old initiator.new responder.new) }
    ensures only { IsOkUnless result OutOfMemory }
{
    let back = answer(alloc, responder, digest1, initiator.node(), plan, rules)?;
    let size1 = digest1.size();
    let size2 = digest2.size();
    let counts_back = counts_of(&back);
    if plan.lost2 {
        return Ok(sent_back(size1, size2, counts_back));
    }
    let forth = answer(alloc, initiator, digest2, responder.node(), plan, rules)?;
    take_deltas(initiator, responder, &back, &forth, plan.lost3)?;
    let counts_forth = counts_of(&forth);
    Ok(sent_both(size1, size2, counts_back, counts_forth, plan.lost3))
}

fn take_deltas(
    initiator: &mut NodeTable,
    responder: &mut NodeTable,
    back: &Delta,
    forth: &Delta,
    lost3: bool,
) -> Result<(), Fault>
    requires back { All (MayReceive initiator.old.table) back.now.items }
    requires forth { All (MayReceive responder.old.table) forth.now.items }
    ensures initiator { OnOk result (initiator.new.table ≡ applied initiator.old.table back.now.items) }
    ensures responder { OnOk result (responder.new.table ≡ after_message lost3 responder.old.table forth.now) }
    ensures err { OnErr result (BothTablesStay initiator.old responder.old initiator.new responder.new) }
    ensures only { IsOkUnless result OutOfMemory }
{
    initiator.reserve_for(back.items())?;
    if !lost3 {
        responder.reserve_for(forth.items())?;
        responder.apply(forth.items());
    }
    initiator.apply(back.items());
    Ok(())
}

fn answer(
    alloc: Global,
    sender: &NodeTable,
    digest: &Digest,
    receiver: u32,
    plan: &Exchange,
    rules: &Rules,
) -> Result<Delta, Fault>
    requires kind { IsOfKind (digest_kind rules.now.mode) digest.now }
    requires budget { IsLawfulBudget rules.now.budget }
    requires nodes { digest.now.nodes ≡ sender.now.table.nodes }
    requires keys { digest.now.keys ≡ sender.now.table.keys }
    requires receiver { receiver < sender.now.table.nodes }
    requires rotation { plan.now.rotation < sender.now.table.nodes }
    ensures delta { IfOk result (IsAnswer rules.now plan.now sender.now.table receiver digest.now) }
    ensures few { IfOk result (λ d. length d.items < 2 ^ 32) }
    ensures sound { IfOk result (λ d. All (IsFor receiver sender.now.table.nodes sender.now.table.keys) d.items) }
    ensures only { IsOkUnless result OutOfMemory }
{
    delta(
        alloc,
        sender,
        digest,
        receiver,
        rules.mode,
        plan.rotation,
        rules.budget,
    )
}

fn counts_of(delta: &Delta) -> DeltaCounts
    requires { length delta.now.items < 2 ^ 32 }
    ensures sent { result.sent ≡ length delta.now.items }
    ensures cut { result.cut ≡ delta.now.cut }
{
    DeltaCounts {
        sent: delta.items().len() as u32,
        cut: delta.cut(),
    }
}
