//! What a table holds once it has taken a delta.

ghost use Rattle.std.specs.Prelude.{◌≡◌};
ghost use Rattle.version_tables.specs.inner.Common.{length, map, entries_of, number_kept, HasColumn, IsOwnerKept, ArePlanesChanged, IsGrid, IsNumberedHistory};
ghost use Rattle.version_tables.specs.inner.Histories.{AreOwners};
ghost use Rattle.version_tables.specs.inner.Taken.{drop_start, drop_starts, HasTakenUnless, IsArrivalOf, MayArrive};

use crate::deltas::DeltaMarks;
use crate::histories::Histories;
use crate::tables::{VersionTable, Written};
use delta_plans::{First, Owners};
use grids::Sent;
use owner_writes::OwnerWrites;
use planes::{Grid, Number, Size};

// Up to where an owner's numbers are dropped, where its greatest one was raised.
fn drop_from<N: Number>(list: &OwnerWrites, old: N, base: N, new: N) -> u32
    requires { IsNumberedHistory (entries_of list.now) }
    ensures { result ≡ drop_start (entries_of list.now) (N.number old) (N.number base)
        (N.number new) }
{
    if old.is_above(N::zero()) && old.is_upto(base) && new.is_above(old) {
        list.start_of(new.widen())
    } else {
        0
    }
}

fn drop_owner<N: Number>(cells: &mut [N], size: Size, owner: usize, start: u32)
    requires { HasColumn size cells.old owner }
    ensures { IsOwnerKept N.number size owner start cells.old cells.new }
{
    if start > 0 {
        grids::drop_owner(cells, size, owner, start);
    }
}

// Drops nothing, after one fast loop, where no owner's old number is of an earlier generation.
fn drop_older<N: Number>(
    cells: &mut [N],
    size: Size,
    before: &[N],
    greatest: &[N],
    owners: Owners<N>,
)
    requires grid { IsGrid size.nodes size.keys (length cells.old) }
    requires before_count { length before.now ≡ size.nodes }
    requires greatest_count { length greatest.now ≡ size.nodes }
    requires known { AreOwners N.number size.nodes owners }
    ensures { ArePlanesChanged
        (λ r k x y. y ≡ number_kept (drop_starts N.number owners.entry before.now greatest.now r) x)
        size.nodes size.keys (map N.number cells.old) (map N.number cells.new) }
{
    let Owners { lists, bases } = owners;
    if planes::none_upto(before, bases) {
        return;
    }
    for owner in 0..size.nodes {
        let start = drop_from(&lists[owner], before[owner], bases[owner], greatest[owner]);
        drop_owner(cells, size, owner, start);
    }
}

/// What comes to a table: of each owner what is above the low mark and up to the high one, or nothing.
#[derive(Drop)]
pub(crate) struct Arrival<'a, N: Number> {
    low: &'a [N],
    high: &'a [N],
    nothing: bool,
}

/// What comes of a sender whose greatest numbers are given: what a delta's marks let through, or nothing, as it has
/// none or was lost.
pub(crate) fn what_comes<'a, N: Number>(
    delta: &'a DeltaMarks<N>,
    greatest: &'a [N],
    first: First,
    is_lost: bool,
) -> Arrival<'a, N>
    ensures { IsArrivalOf N.number delta.now (map N.number greatest.now) first is_lost result }
{
    let marked = &delta.marked;
    let nothing = is_lost | (marked.counts.sent == 0);
    match first {
        First::Oldest => Arrival {
            low: &delta.low,
            high: &marked.mark,
            nothing,
        },
        First::Newest => Arrival {
            low: &marked.mark,
            high: greatest,
            nothing,
        },
    }
}

/// Takes what comes of a sender's numbers, and drops of each owner what is of older generations than its newest, unless
/// there is nothing to take. The greatest numbers before it are given.
pub(crate) fn take_unless<N: Number, H: Written>(
    table: &mut VersionTable<N, H>,
    cells: &[N],
    arrival: Arrival<N>,
    before: &[N],
    histories: &Histories<N, H>,
)
    requires may { MayArrive N.number H.lists histories.now table.old (map N.number cells.now) arrival }
    requires before { map N.number before.now ≡ table.old.greatest }
    ensures { HasTakenUnless arrival.entry.nothing histories.now.lists table.old (map N.number cells.now)
        (map N.number arrival.entry.low.now) (map N.number arrival.entry.high.now) table.new }
{
    if arrival.nothing {
        return;
    }
    let size = Size {
        nodes: table.nodes as usize,
        keys: table.keys as usize,
    };
    let sent = Sent {
        grid: Grid { cells, size },
        low: arrival.low,
        high: arrival.high,
    };
    grids::take(&mut table.cells, &mut table.greatest, sent);
    let owners = Owners {
        lists: histories.lists(),
        bases: histories.bases(),
    };
    drop_older(&mut table.cells, size, before, &table.greatest, owners);
}
