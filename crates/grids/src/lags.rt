//! Loops over all planes of a table that compare its numbers with the last ones.

ghost use Rattle.std.specs.Prelude.{map, IfOk};
ghost use Rattle.grids.specs.Common.{cells_in, cell, HasEach};
ghost use Rattle.grids.specs.Grids.{IsBeside};
ghost use Rattle.grids.specs.Lags.{AreLoweredCounting, HasLast, IsLeastBehind};

use crate::counts::change_counting;
use planes::{Grid, Number, least_of};
use std::alloc::{AllocError, Global};

/// How many numbers are below the last ones. It lowers the least to each number: one pass over all planes as one.
pub fn count_behind<N: Number>(least: &mut [N], grid: Grid<N>, last: &[N]) -> u32
    requires beside { HasLast grid least.old last.now }
    ensures { AreLoweredCounting N.number grid.entry last.now least.old least.new result }
{
    let cells = grid.cells;
    let (behind, _) = change_counting(least, |at, number| {
        let now = cells[at];
        (number.min_with(now), last[at].is_above(now), false)
    });
    behind
}

/// For each owner the least of its numbers that are below the last ones, or `N::greatest()` where none is.
pub fn least_behind<N: Number>(
    alloc: Global,
    grid: Grid<N>,
    last: &[N],
) -> Result<Vec<N>, AllocError>
    requires beside { IsBeside grid last.now }
    ensures { IfOk result (λ v. HasEach grid.entry.size.nodes
        (λ r n. IsLeastBehind N.most (cells_in N.number grid.entry)
        (cell (map N.number last.now) grid.entry.size.nodes) grid.entry.size.keys r n) (map N.number v.items)) }
{
    let Grid { cells, size } = grid;
    least_of(
        alloc,
        size,
        |at, _| planes::pick(last[at].is_above(cells[at]), cells[at], N::greatest()),
    )
}
