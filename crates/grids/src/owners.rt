//! Loops over a few owners of a table, each over all of its keys. The others have nothing above one mark and up to
//! another, and are passed over.

ghost use Rattle.std.specs.Prelude.{◌≡◌, ◌<◌, length, map};
ghost use Rattle.grids.specs.Common.{cell, HasNoneAbove};
ghost use Rattle.grids.specs.Grids.{AreBothCovered, AreBothRaised, AreSentTaken, IsBeside, MayTake};
ghost use Rattle.grids.specs.inner.Owners.{HasRaisedOwner, HasTakenOwner};

use crate::grids::Sent;
use crate::merges::{BothCounts, BothMarks};
use planes::{Grid, Number};

/// To change their numbers, owners are few where they are no more than all divided by this.
pub(crate) const FEW_TO_CHANGE: usize = 8;

// Raises an owner's numbers to those sent that are above one mark and up to another. It answers the greatest number
// that the owner has then, and is given the one that it had.
fn take_owner<N: Number>(cells: &mut [N], sent: Sent<N>, owner: usize, had: N) -> N
    requires beside { IsBeside sent.grid cells.old }
    requires within { owner < sent.grid.size.nodes }
    requires low { length sent.low.now ≡ sent.grid.size.nodes }
    requires high { length sent.high.now ≡ sent.grid.size.nodes }
    requires covered { HasNoneAbove (cell (map N.number cells.old) sent.grid.size.nodes) sent.grid.size.keys owner
        (N.number had) }
    ensures { HasTakenOwner N.number sent.entry owner cells.old had cells.new result }
{
    let numbers = sent.grid.cells;
    let size = sent.grid.size;
    let low = sent.low[owner];
    let high = sent.high[owner];
    let mut greatest = had;
    for key in 0..size.keys {
        let number = numbers[key * size.nodes + owner];
        if planes::is_between(number, low, high) {
            let cell = &mut cells[key * size.nodes + owner];
            let raised = cell.max_with(number);
            *cell = raised;
            greatest = greatest.max_with(raised);
        }
    }
    greatest
}

// Takes what is sent of the owners alone whose one mark is below the other.
pub(crate) fn take_owners<N: Number>(cells: &mut [N], greatest: &mut [N], sent: Sent<N>)
    requires may { MayTake N.number cells.old greatest.old sent }
    ensures { AreSentTaken N.number sent.entry cells.old greatest.old cells.new greatest.new }
{
    let Sent { grid, low, high } = sent;
    for owner in 0..grid.size.nodes {
        if high[owner].is_above(low[owner]) {
            greatest[owner] = take_owner(cells, sent, owner, greatest[owner]);
        }
    }
}

// Raises an owner's numbers to those of another table that are above a mark. It answers how many these are.
fn raise_owner<N: Number>(cells: &mut [N], others: Grid<N>, owner: usize, low: N) -> u32
    requires { IsBeside others cells.old × (owner < others.size.nodes) }
    ensures { HasRaisedOwner N.number others.entry.size.nodes others.entry.size.keys owner others.entry.cells.now low
        cells.old cells.new result }
{
    let numbers = others.cells;
    let size = others.size;
    let mut count = 0;
    for key in 0..size.keys {
        let number = numbers[key * size.nodes + owner];
        let is_above = number.is_above(low);
        let cell = &mut cells[key * size.nodes + owner];
        *cell = planes::raised_to(*cell, number, is_above);
        count += u32::from(is_above);
    }
    count
}

// Two tables take of each other what is above their marks, of the owners alone of which one mark is above the other.
// The numbers of such an owner come from the table with the higher mark.
pub(crate) fn merge_owners<N: Number>(
    first: &mut [N],
    second: &mut [N],
    marks: BothMarks<N>,
) -> BothCounts
    requires marked { AreBothCovered N.number marks first.old second.old }
    ensures { AreBothRaised N.number marks.entry first.old second.old first.new second.new result }
{
    let first_low = marks.first;
    let second_low = marks.second;
    let size = marks.size;
    let mut to_first = 0;
    let mut to_second = 0;
    for owner in 0..size.nodes {
        let mark = first_low[owner];
        let other = second_low[owner];
        if other.is_above(mark) {
            let others = Grid {
                cells: second,
                size,
            };
            to_first += raise_owner(first, others, owner, mark);
        } else if mark.is_above(other) {
            let others = Grid { cells: first, size };
            to_second += raise_owner(second, others, owner, other);
        }
    }
    BothCounts {
        first: to_first,
        second: to_second,
    }
}
