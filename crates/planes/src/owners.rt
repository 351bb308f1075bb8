//! Loops over a few owners of a table, each over all of its keys: the others have nothing above a mark.

ghost use Rattle.std.specs.Prelude.{◌≡◌, ◌≤◌, length, map};
ghost use Rattle.limits.specs.declared.TheConstants.{MOST_NODES};
ghost use Rattle.planes.specs.Grids.{cells_in, IsMarked, IsOwnerOf};
ghost use Rattle.planes.specs.Planes.{count_above, total_above};

use crate::numbers::Number;
use crate::planes;
use crate::sizes::Grid;

/// So many keys are many: with fewer, planes are the faster way.
const MANY_KEYS: usize = 16;
/// To count their numbers, owners are few where they are no more than all divided by this.
pub(crate) const FEW_TO_COUNT: usize = 32;

/// Whether there are many keys, and owners whose one mark is below the other are no more than all divided by `few`. It
/// picks the faster of two ways, and both have the same outcome.
pub fn are_few<N: Number>(keys: usize, low: &[N], high: &[N], few: usize) -> bool
    requires few { 1 ≤ few }
    requires marks { length low.now ≡ length high.now }
    requires room { length high.now ≤ MOST_NODES }
{
    keys >= MANY_KEYS && planes::how_many_above(high, low) as usize <= high.len() / few
}

fn owner_above<N: Number>(grid: Grid<N>, owner: usize, low: N) -> u32
    requires place { IsOwnerOf grid owner }
    ensures upto { result ≤ grid.entry.size.keys }
    ensures count { result ≡ count_above (cells_in N.number grid.entry) grid.entry.size.keys owner (N.number low) }
{
    let Grid { cells, size } = grid;
    let mut count = 0;
    for key in 0..size.keys {
        count += u32::from(cells[key * size.nodes + owner].is_above(low));
    }
    count
}

// How many numbers are above their owners' low marks. It goes over the owners alone whose high mark is above their low
// one: the others have none.
pub(crate) fn total_owners_above<N: Number>(grid: Grid<N>, low: &[N], high: &[N]) -> u32
    requires marked { IsMarked N.number grid low.now high.now }
    ensures { result ≡ total_above grid.entry.size.nodes grid.entry.size.keys (map N.number grid.entry.cells.now)
        (map N.number low.now) }
{
    let mut total = 0;
    for owner in 0..grid.size.nodes {
        let mark = low[owner];
        if high[owner].is_above(mark) {
            total += owner_above(grid, owner, mark);
        }
    }
    total
}
