//! What answers a digest that gives the greatest mark of each owner: the entries above it, owner by
//! owner, and how they share out a budget.

ghost use Rattle.std.specs.Prelude.{◌≡◌, ◌+◌, ◌^◌, ◌<◌, ◌≤◌, All, length, IfOk, OnOk, IsOkUnless};
ghost use Rattle.std.specs.List.{AllPairs};
ghost use Rattle.bench_types.specs.declared.faults.Fault.TheVariants.{OutOfMemory};
ghost use Rattle.node_table.specs.Entries.{StandsBefore};
ghost use Rattle.model.specs.calls.DeltaLaws.{AreWithin};
ghost use Rattle.reconcile.specs.Digests.{IsOfKind};
ghost use Rattle.reconcile.specs.inner.Newer.{AreCandidates};
ghost use Rattle.model.specs.Order.{rank_among};
ghost use Rattle.reconcile.specs.inner.Questions.{IsAsked, answer_to};
ghost use Rattle.reconcile.specs.inner.Suffixes.{items_of_suffixes, entries_ranked, ranked, of_length, AddsLayer, AreLayered, AreSuffixes, IsTurned, OwnersRise, lengths_first};

use crate::deltas::Delta;
use crate::digests::{Digest, mark_in};
use crate::parcels::Parcel;
use crate::questions::Question;
use crate::turns::Turns;
use bench_types::{Budget, DigestKind, Entry, Fault, Item, Mode};
use node_table::NodeTable;
use std::alloc::Global;

// Entries of one owner, ascending by version and then by key.
#[derive(Clone, Copy)]
pub(crate) struct Suffix<'a> {
    pub(crate) owner: u32,
    pub(crate) entries: &'a [Entry],
}

/// The answer in a scuttle mode. Entries of those owners alone are looked at of whom the digest tells
/// a smaller mark than the table holds.
pub(crate) fn scuttle_delta(alloc: Global, question: Question) -> Result<Delta, Fault>
    requires { IsAsked DigestKind.Scuttle question }
    ensures ok { IfOk result (λ d. d ≡ answer_to question.entry) }
    ensures within { IfOk result (λ d. AreWithin question.entry.budget d.items) }
    ensures few { IfOk result (λ d. length d.items < 2 ^ 32) }
    ensures only { IsOkUnless result OutOfMemory }
{
    let mut suffixes = suffixes_above(alloc, question.table, question.digest, question.receiver)?;
    turn_to(&mut suffixes, question.turns.rotation);
    let found = count_of(&suffixes);
    let items = match question.turns.mode {
        Mode::ScuttleBreadth => by_rank(alloc, &mut suffixes, found, question.budget)?,
        Mode::ScuttleDepth => by_length(alloc, &suffixes, found, question.budget)?,
        Mode::PreciseOldest | Mode::PreciseNewest => unreachable!(),
    };
    let cut = (found - items.len()) as u32;
    Ok(Delta { items, cut })
}

// What the digest doesn't know of each owner but the receiver, by owner. Where no generation is given
// versions are compared alone.
fn suffixes_above<'a>(
    alloc: Global,
    table: &'a NodeTable,
    digest: &Digest,
    receiver: u32,
) -> Result<Vec<Suffix<'a>>, Fault>
    requires kind { IsOfKind DigestKind.Scuttle digest.now }
    requires told { digest.now.nodes ≡ table.now.table.nodes }
    ensures all { IfOk result
        (λ v. AreCandidates table.now.table digest.now receiver table.now.table.nodes (items_of_suffixes v.items)) }
    ensures rise { IfOk result (λ v. OwnersRise v.items) }
    ensures suffixes { IfOk result (λ v. AreSuffixes v.items) }
    ensures only { IsOkUnless result OutOfMemory }
{
    let told = digest.all_greatest();
    let held = table.greatest_versions();
    let generations_told = digest.generations();
    let generations_held = table.generations();
    let mut suffixes = Vec::new(alloc);
    if generations_told.is_empty() && generations_held.is_empty() {
        for owner in 0..table.nodes() {
            if owner != receiver && told[owner as usize] < held[owner as usize] {
                let entries = table.above(owner, mark_in(generations_told, told, owner));
                suffixes.push(Suffix { owner, entries })?;
            }
        }
    } else {
        for owner in 0..table.nodes() {
            let mark = mark_in(generations_told, told, owner);
            if owner != receiver && mark.is_before(mark_in(generations_held, held, owner)) {
                let entries = table.above(owner, mark);
                suffixes.push(Suffix { owner, entries })?;
            }
        }
    }
    Ok(suffixes)
}

// Brings the suffixes of the owners from the rotation on before the others.
fn turn_to(suffixes: &mut [Suffix], rotation: u32)
    requires { OwnersRise suffixes.old }
    ensures { IsTurned rotation suffixes.old suffixes.new }
{
    let start = suffixes.partition_point(|suffix| suffix.owner < rotation);
    suffixes.rotate_left(start);
}

fn count_of(suffixes: &[Suffix]) -> usize
    requires { length (items_of_suffixes suffixes.now) < 2 ^ 32 }
    ensures { result ≡ length (items_of_suffixes suffixes.now) }
{
    let mut count = 0;
    for suffix in suffixes {
        count += suffix.entries.len();
    }
    count
}

fn longest(suffixes: &[Suffix]) -> usize
    ensures all { All (λ r. length r.entries.now ≤ result) suffixes.now }
    ensures within { result ≤ length (items_of_suffixes suffixes.now) }
{
    let mut most = 0;
    for suffix in suffixes {
        most = suffix.entries.len().max(most);
    }
    most
}

// What the budget lets through of the suffixes, which have so many entries, by how many of their suffix have
// a smaller version. Suffixes that have no more of them are dropped.
fn by_rank(
    alloc: Global,
    suffixes: &mut Vec<Suffix>,
    found: usize,
    budget: Budget,
) -> Result<Vec<Item>, Fault>
    requires suffixes { AreSuffixes suffixes.old.items }
    ensures layers { IfOk result
        (λ v. AreLayered (rank_among (items_of_suffixes suffixes.old.items)) budget
        (items_of_suffixes suffixes.old.items) v.items) }
    ensures only { IsOkUnless result OutOfMemory }
{
    let mut parcel = Parcel::new(alloc, found, budget)?;
    for rank in 0..longest(suffixes) {
        if parcel.left == 0 {
            return Ok(parcel.items);
        }
        add_ranked(&mut parcel, suffixes, rank)?;
        let next = rank + 1;
        suffixes.retain(|suffix| next < suffix.entries.len());
    }
    Ok(parcel.items)
}

fn add_ranked(parcel: &mut Parcel, suffixes: &[Suffix], rank: usize) -> Result<(), Fault>
    requires suffixes { AreSuffixes suffixes.now }
    ensures added { OnOk result (AddsLayer (ranked rank) suffixes.now parcel.old parcel.new) }
    ensures only { IsOkUnless result OutOfMemory }
{
    for suffix in suffixes {
        parcel.add_entries(suffix.owner, entries_ranked(suffix.entries, rank))?;
    }
    Ok(())
}

// The entries of which so many have a smaller version.
fn entries_ranked(entries: &[Entry], rank: usize) -> &[Entry]
    requires { AllPairs StandsBefore entries.now }
    ensures { result.now ≡ entries_ranked rank entries.now }
{
    if rank >= entries.len() {
        return &[];
    }
    if rank > 0 && entries[rank - 1].version == entries[rank].version {
        return &[];
    }
    for end in rank + 1..entries.len() {
        if entries[end].version != entries[rank].version {
            return &entries[rank..end];
        }
    }
    &entries[rank..]
}

fn by_length(
    alloc: Global,
    suffixes: &[Suffix],
    found: usize,
    budget: Budget,
) -> Result<Vec<Item>, Fault>
    requires suffixes { AreSuffixes suffixes.now }
    requires few { length (items_of_suffixes suffixes.now) < 2 ^ 32 }
    requires found { found ≡ length (items_of_suffixes suffixes.now) }
    ensures layers { IfOk result
        (λ v. AreLayered (lengths_first (items_of_suffixes suffixes.now)) budget
        (items_of_suffixes suffixes.now) v.items) }
    ensures only { IsOkUnless result OutOfMemory }
{
    let mut parcel = Parcel::new(alloc, found, budget)?;
    let most = longest(suffixes);
    for shorter in 0..most {
        if parcel.left == 0 || parcel.items.len() == found {
            return Ok(parcel.items);
        }
        add_long(&mut parcel, suffixes, most - shorter)?;
    }
    Ok(parcel.items)
}

fn add_long(parcel: &mut Parcel, suffixes: &[Suffix], len: usize) -> Result<(), Fault>
    ensures added { OnOk result (AddsLayer (of_length len) suffixes.now parcel.old parcel.new) }
    ensures only { IsOkUnless result OutOfMemory }
{
    for suffix in suffixes {
        if suffix.entries.len() == len {
            parcel.add_entries(suffix.owner, suffix.entries)?;
        }
    }
    Ok(())
}
