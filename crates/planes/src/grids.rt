//! What all planes of a table, `cells[key * nodes + owner]`, tell of each owner.

ghost use Rattle.std.specs.Prelude.{◌≡◌, ℕ, ◌+◌, ◌*◌, ◌<◌, ◌≤◌, ◌&&◌, ◌↔◌, Bool, length, map, nat_le, nat_lt, slice_index, IfOk, IsTrue, if◌then◌else◌};
ghost use Rattle.planes.specs.Grids.{cells_in, HasMarkOfEach, HasTwoMarksOfEach, IsGridOf, IsMarked};
ghost use Rattle.limits.specs.declared.TheConstants.{MOST_KEYS, MOST_NODES};
ghost use Rattle.planes.specs.Planes.{cell, count_above, count_between, total_above, total_of, HasEach, HasNoneUpto, IsGrid, IsNextAbove};
ghost use Rattle.planes.specs.Loops.{count_passing, one_between, AnswersAs, HasRoomToCount, IsLeastOf, MayCountPlane};
ghost use Rattle.planes.specs.Elementwise.{AreChanged};

use crate::numbers::Number;
use crate::owners::{FEW_TO_COUNT, are_few, total_owners_above};
use crate::planes;
use crate::sizes::{Grid, Size};
use std::alloc::{AllocError, Global};

/// The plane of a key.
pub fn plane_of<N: Number>(cells: &[N], nodes: usize, key: usize) -> &[N]
    requires within { key * nodes + nodes ≤ length cells.now }
    ensures { HasEach nodes (λ r n. n ≡ cell (map N.number cells.now) nodes r key) (map N.number result.now) }
{
    let start = key * nodes;
    &cells[start..start + nodes]
}

/// So many times the same number.
pub fn all_of<N: Number>(alloc: Global, count: usize, number: N) -> Result<Vec<N>, AllocError>
    ensures { IfOk result (λ v. HasEach count (λ r n. n ≡ N.number number) (map N.number v.items)) }
{
    let mut numbers = Vec::with_capacity(alloc, count)?;
    numbers.resize(count, number)?;
    Ok(numbers)
}

/// So many times 0.
pub fn zeros<N: Number>(alloc: Global, count: usize) -> Result<Vec<N>, AllocError>
    ensures { IfOk result (λ v. HasEach count (λ r n. n ≡ 0) (map N.number v.items)) }
{
    all_of(alloc, count, N::zero())
}

/// For each owner how many of its numbers are above a mark.
pub fn counts_above<N: Number>(
    alloc: Global,
    grid: Grid<N>,
    low: &[N],
) -> Result<Vec<N>, AllocError>
    requires marked { HasMarkOfEach grid low.now }
    ensures { IfOk result (λ v. HasEach grid.entry.size.nodes
        (λ r n. n ≡ count_above (cells_in N.number grid.entry) grid.entry.size.keys r
        (slice_index (map N.number low.now) r)) (map N.number v.items)) }
{
    let Grid { cells, size } = grid;
    let mut counts = zeros(alloc, size.nodes)?;
    let all: &mut [N] = &mut counts;
    for key in 0..size.keys {
        let plane = plane_of(cells, size.nodes, key);
        planes::change(
            all,
            |r, count| -> N
                requires { (r < length plane.now) × (r < length low.now) × (N.number count < N.most) }
                ensures { N.number result ≡ N.number count + (if nat_lt (slice_index (map N.number low.entry.now) r)
                    (slice_index (map N.number plane.entry.now) r) then 1 else 0) }
            { count.plus(plane[r].is_above(low[r])) },
        );
    }
    Ok(counts)
}

/// For each owner of a part of them, from a first one on, how many of its numbers are above one mark and up to another.
/// It goes over two planes at a time.
pub fn count_some_between<N: Number>(
    counts: &mut [N],
    grid: Grid<N>,
    first: usize,
    low: &[N],
    high: &[N],
)
    requires marked { HasTwoMarksOfEach grid low.now high.now }
    requires part { first + length counts.old ≤ grid.size.nodes }
    ensures { HasEach (length counts.old)
        (λ r n. n ≡ count_between (cells_in N.number grid.entry) grid.entry.size.keys (first + r)
        (slice_index (map N.number low.now) (first + r)) (slice_index (map N.number high.now) (first + r)))
        (map N.number counts.new) }
{
    let Grid { cells, size } = grid;
    let count = counts.len();
    planes::change(counts, |_, _| N::zero());
    let lows = &low[first..first + count];
    let highs = &high[first..first + count];
    let mut key = 0;
    while key + 1 < size.keys {
        let start = key * size.nodes + first;
        let next = start + size.nodes;
        count_two(
            counts,
            &cells[start..start + count],
            &cells[next..next + count],
            lows,
            highs,
        );
        key += 2;
    }
    if key < size.keys {
        let start = key * size.nodes + first;
        count_one(counts, &cells[start..start + count], lows, highs);
    }
}

// Adds one to each owner's count whose number in a plane is above one mark and up to another.
fn count_one<N: Number>(counts: &mut [N], plane: &[N], low: &[N], high: &[N])
    requires plane { MayCountPlane counts.old plane.now low.now high.now }
    requires room { HasRoomToCount N.number N.most 1 counts.old }
    ensures { AreChanged (λ r x y. y ≡ x + one_between N.number plane.now low.now high.now r)
        (map N.number counts.old) (map N.number counts.new) }
{
    planes::change(
        counts,
        |r, count| -> N
            requires { (r < length plane.now) × (r < length low.now) × (r < length high.now)
                × (N.number count < N.most) }
            ensures { N.number result ≡ N.number count
                + one_between N.number plane.entry.now low.entry.now high.entry.now r }
        { count.plus(planes::is_between(plane[r], low[r], high[r])) },
    );
}

// The same for two planes, whose counts and marks are then read once.
fn count_two<N: Number>(counts: &mut [N], plane: &[N], other: &[N], low: &[N], high: &[N])
    requires plane { MayCountPlane counts.old plane.now low.now high.now }
    requires other { length other.now ≡ length counts.old }
    requires room { HasRoomToCount N.number N.most 2 counts.old }
    ensures { AreChanged (λ r x y. y ≡ x + one_between N.number plane.now low.now high.now r
        + one_between N.number other.now low.now high.now r) (map N.number counts.old) (map N.number counts.new) }
{
    planes::change(
        counts,
        |r, count| -> N
            requires { (r < length plane.now) × (r < length other.now) × (r < length low.now) × (r < length high.now)
                × (N.number count + 1 < N.most) }
            ensures { N.number result ≡ N.number count
                + one_between N.number plane.entry.now low.entry.now high.entry.now r
                + one_between N.number other.entry.now low.entry.now high.entry.now r }
        {
            count
                .plus(planes::is_between(plane[r], low[r], high[r]))
                .plus(planes::is_between(other[r], low[r], high[r]))
        },
    );
}

/// For each owner the least of the numbers that a closure makes of its places, or `N::greatest()` where there are none.
pub fn least_of<N: Number, F: Fn(usize, usize) -> N>(
    alloc: Global,
    size: Size,
    value: F,
) -> Result<Vec<N>, AllocError>
    requires grid { IsGrid size.nodes size.keys (size.keys * size.nodes) }
    requires value { (at r : ℕ) → at < size.keys * size.nodes → r < size.nodes → F.pre value at r }
    ensures { (values : ℕ → ℕ → ℕ)
        → ((at r : ℕ) (n : N) → at < size.keys * size.nodes → r < size.nodes → F.post value at r n
        → N.number n ≡ values at r) → IfOk result (λ v. HasEach size.nodes
        (λ r n. IsLeastOf N.most (λ k. values (k * size.nodes + r) r) size.keys n) (map N.number v.items)) }
{
    let mut least = all_of(alloc, size.nodes, N::greatest())?;
    let all: &mut [N] = &mut least;
    for key in 0..size.keys {
        let start = key * size.nodes;
        planes::change(all, |r, number| number.min_with(value(start + r, r)));
    }
    Ok(least)
}

/// For each owner the least of its numbers above a mark, or `N::greatest()` where there is none.
pub fn least_above<N: Number>(alloc: Global, grid: Grid<N>, low: &[N]) -> Result<Vec<N>, AllocError>
    requires marked { HasMarkOfEach grid low.now }
    ensures { IfOk result (λ v. HasEach grid.entry.size.nodes
        (λ r n. IsNextAbove N.most (cells_in N.number grid.entry) grid.entry.size.keys r
        (slice_index (map N.number low.now) r) n) (map N.number v.items)) }
{
    let Grid { cells, size } = grid;
    least_of(
        alloc,
        size,
        |at, r| planes::pick(cells[at].is_above(low[r]), cells[at], N::greatest()),
    )
}

fn total<N: Number, F: Fn(usize, N) -> bool>(grid: Grid<N>, passes: F) -> u32
    requires grid { IsGridOf grid }
    requires passes { (r : ℕ) (n : N) → r < grid.size.nodes → F.pre passes r n }
    ensures { (test : ℕ → ℕ → Bool) → AnswersAs N.number (F.post passes) grid.entry.size.nodes test
        → result ≡ total_of grid.entry.size.nodes grid.entry.size.keys
        (λ r k. test r (cells_in N.number grid.entry r k)) }
{
    let Grid { cells, size } = grid;
    let mut total = 0;
    for key in 0..size.keys {
        let plane = plane_of(cells, size.nodes, key);
        total += planes::how_many(plane, &passes);
    }
    total
}

/// How many numbers are above their owners' marks, where none is above its owner's high mark. It goes over all planes,
/// or where only few owners' marks differ and there are many keys, over the keys of these owners.
pub fn total_above<N: Number>(grid: Grid<N>, low: &[N], high: &[N]) -> u32
    requires marked { IsMarked N.number grid low.now high.now }
    ensures { result ≡ total_above grid.entry.size.nodes grid.entry.size.keys (map N.number grid.entry.cells.now)
        (map N.number low.now) }
{
    if are_few(grid.size.keys, low, high, FEW_TO_COUNT) {
        return total_owners_above(grid, low, high);
    }
    total(grid, |r, number| number.is_above(low[r]))
}

/// How many numbers of a plane, or of planes one after another, are not 0.
pub fn count_held<N: Number>(plane: &[N]) -> u32
    requires room { length plane.now ≤ MOST_NODES * MOST_KEYS }
    ensures { result ≡ count_passing (length plane.now) (λ r. nat_lt 0 (slice_index (map N.number plane.now) r)) }
{
    planes::how_many(plane, |_, number| number.is_above(N::zero()))
}

/// How many numbers are not 0 and up to their owners' marks.
pub fn total_upto<N: Number>(grid: Grid<N>, high: &[N]) -> u32
    requires marked { HasMarkOfEach grid high.now }
    ensures { result ≡ total_of grid.entry.size.nodes grid.entry.size.keys
        (λ r k. nat_lt 0 (cells_in N.number grid.entry r k)
        && nat_le (cells_in N.number grid.entry r k) (slice_index (map N.number high.now) r)) }
{
    total(
        grid,
        |r, number|
            requires { r < length high.now }
        { planes::is_between(number, N::zero(), high[r]) },
    )
}

/// Whether no number of a plane is above 0 and up to its owner's mark.
pub fn none_upto<N: Number>(plane: &[N], high: &[N]) -> bool
    requires high { length high.now ≡ length plane.now }
    requires room { length plane.now ≤ MOST_NODES }
    ensures { IsTrue result ↔ HasNoneUpto (map N.number plane.now) (map N.number high.now) }
{
    planes::how_many(
        plane,
        |r, number| planes::is_between(number, N::zero(), high[r]),
    ) == 0
}
