//! Loops over all planes of a table: `cells[key * nodes + owner]`.

ghost use Rattle.std.specs.Prelude.{◌≡◌, ◌<◌, ◌≤◌, ◌↔◌, IsTrue, length, map, max, nat_lt, slice_index, IfOk};
ghost use Rattle.grids.specs.Common.{IsGridOf, cell, number_ahead, HasEach, MOST_NODES};
ghost use Rattle.grids.specs.Grids.{number_kept, AreSentTaken, HasColumn, HasPeer, IsAhead, IsOwnerKept, MayTake};
ghost use Rattle.grids.specs.inner.Loops.{IsPlaneTaken, MayTakePlane};
ghost use Rattle.grids.specs.inner.Masks.{AreAbovePeer, HasNoneUptoMark, HasNoOtherMark};

use crate::counts::change_counting;
use crate::owners;
use crate::owners::FEW_TO_CHANGE;
use planes::{Grid, Number, Size, are_few, plane_of};
use std::alloc::{AllocError, Global};

/// A table's numbers of which some are kept, with 0 in place of the others; how many are kept, and how many it holds.
#[derive(Drop)]
pub struct Masked<N: Number> {
    pub numbers: Vec<N>,
    pub count: u32,
    pub held: u32,
}

/// The numbers that one table sends another of its size. Of each owner those above the low mark and up to the high one
/// are taken.
#[derive(Copy)]
pub struct Sent<'a, N: Number> {
    pub grid: Grid<'a, N>,
    pub low: &'a [N],
    pub high: &'a [N],
}

impl<N: Number> Clone for Sent<'_, N> {
    fn clone(&self) -> Result<Self, AllocError> {
        Ok(*self)
    }
}

/// What a peer has: its numbers, a mark for each owner that it told, and which owner it is itself.
#[derive(Drop)]
pub struct Peer<'a, N: Number> {
    pub cells: &'a [N],
    pub low: &'a [N],
    pub own: usize,
}

// Whether no owner but one has a mark above 0.
fn has_no_other_mark<N: Number>(low: &[N], own: usize) -> bool
    requires room { length low.now ≤ MOST_NODES }
    ensures { IsTrue result ↔ HasNoOtherMark (map N.number low.now) own }
{
    planes::how_many(
        low,
        |r, number| planes::pick(r == own, N::zero(), number).is_above(N::zero()),
    ) == 0
}

/// Puts 0 in place of an owner's numbers up to a mark.
pub fn drop_owner<N: Number>(cells: &mut [N], size: Size, owner: usize, mark: u32)
    requires { HasColumn size cells.old owner }
    ensures { IsOwnerKept N.number size owner mark cells.old cells.new }
{
    for key in 0..size.keys {
        let cell = &mut cells[key * size.nodes + owner];
        let number = *cell;
        *cell = planes::pick(number.widen() > mark, number, N::zero());
    }
}

/// So many numbers are filled at a time, which takes fewer instructions than the C library's way to fill many more.
const FILLED: usize = 512;

fn zeros<N: Number>(alloc: Global, count: usize) -> Result<Vec<N>, AllocError>
    ensures { IfOk result (λ v. HasEach count (λ r n. n ≡ 0) (map N.number v.items)) }
{
    let mut numbers = Vec::with_capacity(alloc, count)?;
    let mut filled = 0;
    while filled < count {
        filled = (filled + FILLED).min(count);
        numbers.resize(filled, N::zero())?;
    }
    Ok(numbers)
}

// A number where it is above a mark, else 0; whether it is, and whether there is a number.
fn kept_above<N: Number>(number: N, mark: N) -> (N, bool, bool)
    ensures number { N.number result.0 ≡ number_kept (N.number mark) (N.number number) }
    ensures is_kept { result.1 ≡ nat_lt (N.number mark) (N.number number) }
    ensures is_held { result.2 ≡ nat_lt 0 (N.number number) }
{
    let is_kept = number.is_above(mark);
    let is_held = number.is_above(N::zero());
    (planes::pick(is_kept, number, N::zero()), is_kept, is_held)
}

// The numbers above the peer's: all planes are gone over as one, without marks.
fn above_peer<N: Number>(alloc: Global, grid: Grid<N>, peer: &[N]) -> Result<Masked<N>, AllocError>
    requires grid { IsGridOf grid }
    requires peer { length peer.now ≡ length grid.cells.now }
    ensures { IfOk result (AreAbovePeer N.number grid.entry peer.now) }
{
    let cells = grid.cells;
    let mut numbers = zeros(alloc, cells.len())?;
    let (count, held) = change_counting(&mut numbers, |r, _| kept_above(cells[r], peer[r]));
    Ok(Masked {
        numbers,
        count,
        held,
    })
}

// Whether none of an owner's numbers is above 0 and up to a mark.
fn has_none_upto<N: Number>(cells: &[N], size: Size, owner: usize, mark: N) -> bool
    requires { HasColumn size cells.now owner }
    ensures { IsTrue result
        ↔ HasNoneUptoMark (cell (map N.number cells.now) size.nodes) size.keys owner (N.number mark) }
{
    for key in 0..size.keys {
        if planes::is_between(cells[key * size.nodes + owner], N::zero(), mark) {
            return false;
        }
    }
    true
}

// The numbers ahead of both the peer's and any marks, plane by plane.
fn ahead_of_both<N: Number>(
    alloc: Global,
    grid: Grid<N>,
    peer: Peer<N>,
) -> Result<Masked<N>, AllocError>
    requires peer { HasPeer grid peer }
    ensures { IfOk result (IsAhead N.number grid.entry peer.entry) }
{
    let Grid { cells, size } = grid;
    let low = peer.low;
    let mut numbers = zeros(alloc, cells.len())?;
    let all: &mut [N] = &mut numbers;
    let mut count = 0;
    let mut held = 0;
    for key in 0..size.keys {
        let plane = plane_of(cells, size.nodes, key);
        let of_peer = plane_of(peer.cells, size.nodes, key);
        let start = key * size.nodes;
        let block = &mut all[start..start + size.nodes];
        let (plane_count, plane_held) = change_counting(
            block,
            |r, _| -> (N, bool, bool)
                requires { (r < length plane.now) × (r < length of_peer.now) × (r < length low.now) }
                ensures number { N.number result.0 ≡ number_ahead (slice_index (map N.number plane.entry.now) r)
                    (slice_index (map N.number of_peer.entry.now) r) (slice_index (map N.number low.entry.now) r) }
                ensures is_kept { result.1 ≡ nat_lt (max (slice_index (map N.number of_peer.entry.now) r)
                    (slice_index (map N.number low.entry.now) r)) (slice_index (map N.number plane.entry.now) r) }
                ensures is_held { result.2 ≡ nat_lt 0 (slice_index (map N.number plane.entry.now) r) }
            { kept_above(plane[r], of_peer[r].max_with(low[r])) },
        );
        count += plane_count;
        held += plane_held;
    }
    Ok(Masked {
        numbers,
        count,
        held,
    })
}

/// The numbers that are above both the peer's and their owner's mark, and 0 in place of the others. One pass masks them
/// and counts those that it keeps and those that the table holds. It serves where no owner has a mark but the peer
/// itself, and nothing of that one is ahead up to its mark, as most often.
pub fn ahead<N: Number>(
    alloc: Global,
    grid: Grid<N>,
    peer: Peer<N>,
) -> Result<Masked<N>, AllocError>
    requires { HasPeer grid peer }
    ensures { IfOk result (IsAhead N.number grid.entry peer.entry) }
{
    let own = peer.own;
    if has_no_other_mark(peer.low, own) {
        let above = above_peer(alloc, grid, peer.cells)?;
        if has_none_upto(&above.numbers, grid.size, own, peer.low[own]) {
            return Ok(above);
        }
    }
    ahead_of_both(alloc, grid, peer)
}

// Raises the numbers of a key's plane to those sent that are above one mark and up to another, and each owner's
// greatest number to its number then.
fn take_plane<N: Number>(plane: &mut [N], greatest: &mut [N], sent: Sent<N>, key: usize)
    requires { MayTakePlane plane.old greatest.old sent key }
    ensures { IsPlaneTaken N.number sent.entry key plane.old greatest.old plane.new greatest.new }
{
    let Sent { grid, low, high } = sent;
    let numbers = plane_of(grid.cells, grid.size.nodes, key);
    for r in 0..plane.len() {
        let kept = plane[r].max_with(planes::pick(
            planes::is_between(numbers[r], low[r], high[r]),
            numbers[r],
            N::zero(),
        ));
        plane[r] = kept;
        greatest[r] = greatest[r].max_with(kept);
    }
}

/// Raises each number to the one sent, where that is above its owner's one mark and up to the other, and each owner's
/// greatest number to the greatest of its numbers then. No number may be above its owner's greatest before. It goes
/// over all planes, or where only few owners have anything sent and there are many keys, over the keys of these owners.
pub fn take<N: Number>(cells: &mut [N], greatest: &mut [N], sent: Sent<N>)
    requires may { MayTake N.number cells.old greatest.old sent }
    ensures { AreSentTaken N.number sent.entry cells.old greatest.old cells.new greatest.new }
{
    let size = sent.grid.size;
    if are_few(size.keys, sent.low, sent.high, FEW_TO_CHANGE) {
        owners::take_owners(cells, greatest, sent);
        return;
    }
    for key in 0..size.keys {
        let start = key * size.nodes;
        let block = &mut cells[start..start + size.nodes];
        take_plane(block, greatest, sent, key);
    }
}
