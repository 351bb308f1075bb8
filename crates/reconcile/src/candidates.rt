//! What answers a digest that gives each mark: the entries that it doesn't know, in the order of the mode.

ghost use Rattle.std.specs.Prelude.{◌≡◌, ◌++◌, ◌^◌, ◌<◌, All, length, IfOk, OnOk, IsOkUnless};
ghost use Rattle.bench_types.specs.declared.faults.Fault.TheVariants.{OutOfMemory};
ghost use Rattle.model.specs.calls.DeltaLaws.{AreWithin};
ghost use Rattle.reconcile.specs.inner.Parcels.{first_within};
ghost use Rattle.reconcile.specs.inner.Questions.{IsAsked, answer_to};
ghost use Rattle.reconcile.specs.Digests.{IsOfKind};
ghost use Rattle.reconcile.specs.inner.Newer.{newer_items, AreCandidates};

use crate::deltas::Delta;
use crate::digests::Digest;
use crate::parcels::Parcel;
use crate::questions::Question;
use bench_types::{Budget, DigestKind, Entry, Fault, Item, Mark};
use node_table::NodeTable;
use std::alloc::Global;

/// The answer in a precise mode: a look at each entry that is held. The candidates are sorted, and cut at the budget.
pub(crate) fn precise_delta(alloc: Global, question: Question) -> Result<Delta, Fault>
    requires asked { IsAsked DigestKind.Precise question }
    requires keys { question.digest.now.keys ≡ question.table.now.table.keys }
    ensures ok { IfOk result (λ d. d ≡ answer_to question.entry) }
    ensures within { IfOk result (λ d. AreWithin question.entry.budget d.items) }
    ensures few { IfOk result (λ d. length d.items < 2 ^ 32) }
    ensures only { IsOkUnless result OutOfMemory }
{
    let turns = question.turns;
    let mut found = candidates(alloc, question.table, question.digest, question.receiver)?;
    found.sort_unstable_by(|one, other| turns.compare(one, other));
    let items = first_items(alloc, &found, question.budget)?;
    let cut = (found.len() - items.len()) as u32;
    Ok(Delta { items, cut })
}

// The entries that the digest doesn't know, but for the receiver's own, by owner, then by version and
// then by key.
fn candidates(
    alloc: Global,
    table: &NodeTable,
    digest: &Digest,
    receiver: u32,
) -> Result<Vec<Item>, Fault>
    requires kind { IsOfKind DigestKind.Precise digest.now }
    requires nodes { digest.now.nodes ≡ table.now.table.nodes }
    requires keys { digest.now.keys ≡ table.now.table.keys }
    ensures all { IfOk result (λ v. AreCandidates table.now.table digest.now receiver table.now.table.nodes v.items) }
    ensures only { IsOkUnless result OutOfMemory }
{
    let mut found = Vec::new(alloc);
    for owner in 0..table.nodes() {
        if owner != receiver {
            push_newer(&mut found, digest, owner, table.entries_of(owner))?;
        }
    }
    Ok(found)
}

fn push_newer(
    found: &mut Vec<Item>,
    digest: &Digest,
    owner: u32,
    row: &[Entry],
) -> Result<(), Fault>
    requires kind { IsOfKind DigestKind.Precise digest.now }
    requires owner { owner < digest.now.nodes }
    requires keys { All (λ e. e.key < digest.now.keys) row.now }
    ensures items { OnOk result (found.new.items ≡ found.old.items ++ newer_items digest.now owner row.now) }
    ensures only { IsOkUnless result OutOfMemory }
{
    let generation = digest.generation(owner);
    let versions = digest.versions_of(owner);
    for entry in row {
        let version = versions[entry.key as usize];
        let told = Mark {
            generation,
            version,
        };
        if told.is_before(entry.mark()) {
            let entry = *entry;
            found.push(Item { owner, entry })?;
        }
    }
    Ok(())
}

fn first_items(alloc: Global, items: &[Item], budget: Budget) -> Result<Vec<Item>, Fault>
    ensures items { IfOk result (λ v. v.items ≡ first_within budget items.now) }
    ensures only { IsOkUnless result OutOfMemory }
{
    let mut parcel = Parcel::new(alloc, items.len(), budget)?;
    for item in items {
        parcel.add(*item)?;
    }
    Ok(parcel.items)
}
