//! What is offered to a receiver, by marks for each owner.

ghost use Rattle.std.specs.Prelude.{◌≡◌, ◌<◌, length, map, slice_index, IfOk, IsOkUnless};
ghost use Rattle.delta_plans.specs.Offers.{all_writes, start_of, told_number, AreChanged, AreKnownOf, HasEach, IsKnownOf, OutOfMemory, Precise};

use crate::offers::number_at;
use bench_types::{DigestKind, Fault};
use owner_writes::OwnerWrites;
use planes::Number;
use std::alloc::{AllocError, Global};

/// The owners' writes, and how many of each are of earlier generations.
#[derive(Copy)]
pub struct Owners<'a, N: Number> {
    pub lists: &'a [OwnerWrites],
    pub bases: &'a [N],
}

impl<N: Number> Clone for Owners<'_, N> {
    fn clone(&self) -> Result<Self, AllocError> {
        Ok(*self)
    }
}

/// The marks up to which a receiver needs nothing: by a scuttle digest the greatest number that it has of each
/// owner, by a precise one how many writes there are before the generation of that. Of itself it needs nothing.
pub fn told<N: Number>(
    alloc: Global,
    kind: DigestKind,
    node: usize,
    greatest: &[N],
    owners: Owners<N>,
) -> Result<Vec<N>, Fault>
    requires node { node < length owners.lists.now }
    requires known { AreKnownOf N.number N.most owners greatest.now }
    ensures told { IfOk result (λ v. HasEach (length owners.entry.lists.now)
        (λ r n. n
        ≡ told_number kind N.most node (all_writes owners.entry.lists.now)
        (slice_index (map N.number greatest.now)) r)
        (map N.number v.items)) }
    ensures only { IsOkUnless result OutOfMemory }
{
    let mut told = Vec::from_slice(alloc, greatest)?;
    match kind {
        DigestKind::Scuttle => {}
        DigestKind::Precise => put_starts(&mut told, owners),
    }
    told[node] = N::greatest();
    Ok(told)
}

// Puts in place of each number where the generation of its write starts. A fast loop tells if all are of the last.
fn put_starts<N: Number>(numbers: &mut [N], owners: Owners<N>)
    requires { AreKnownOf N.number N.most owners numbers.old }
    ensures { AreChanged (λ r x y. y ≡ start_of (all_writes owners.entry.lists.now r) x) (map N.number numbers.old)
        (map N.number numbers.new) }
{
    if planes::none_upto(numbers, owners.bases) {
        planes::lower(numbers, owners.bases);
        return;
    }
    planes::change(numbers, |r, number| start_of(owners, r, number));
}

// Where the generation of the write of an owner's number starts. That of the owner's own generation is given.
fn start_of<N: Number>(owners: Owners<N>, owner: usize, number: N) -> N
    requires { IsKnownOf N.number N.most owners owner (N.number number) }
    ensures { N.number result ≡ start_of (all_writes owners.entry.lists.now owner) (N.number number) }
{
    let list = &owners.lists[owner];
    let base = number_at(owners.bases, owner);
    if number.is_above(base) {
        base
    } else {
        N::narrow(list.start_of(number.widen()))
    }
}
