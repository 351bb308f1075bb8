//! Two tables that take of each other all that is above their marks, both ways in one pass.

ghost use Rattle.std.specs.Prelude.{◌≡◌, ◌≤◌, length};
ghost use Rattle.grids.specs.Common.{MOST_NODES, IsPart};
ghost use Rattle.grids.specs.Grids.{AreBothCovered, AreBothGreatest, AreBothRaised, AreMostAhead, AreRaisedToOther};
ghost use Rattle.grids.specs.inner.Loops.{AreBothMarked, ArePartMerged, ArePlanesMerged};

use crate::owners;
use crate::owners::FEW_TO_CHANGE;
use planes::{Number, Size, are_few};
use std::alloc::AllocError;

/// A number for what comes to the first of two tables, and one for what comes to the second.
#[derive(Clone, Copy)]
pub struct BothCounts {
    pub first: u32,
    pub second: u32,
}

/// Of two tables of one size the marks of each owner: each table takes what is above its own.
#[derive(Copy)]
pub struct BothMarks<'a, N: Number> {
    pub first: &'a [N],
    pub second: &'a [N],
    pub size: Size,
}

impl<N: Number> Clone for BothMarks<'_, N> {
    fn clone(&self) -> Result<Self, AllocError> {
        Ok(*self)
    }
}

/// The leads of so many owners are summed up in 16 bits, as each is no more than the keys.
const OWNERS_AT_A_TIME: usize = 256;

/// How many numbers may come to each of two tables, by their greatest ones: of an owner no more than keys, and where
/// its numbers differ, no more than its two greatest ones are apart.
pub fn most_ahead<N: Number>(first: &[N], second: &[N], keys: u32) -> BothCounts
    requires { AreBothGreatest first.now second.now keys }
    ensures { AreMostAhead N.number first.now second.now keys result }
{
    let at_most = keys as u8;
    let mut to_first = 0;
    let mut to_second = 0;
    let mut from = 0;
    while from < first.len() {
        let end = (from + OWNERS_AT_A_TIME).min(first.len());
        let mut few_to_first = 0;
        let mut few_to_second = 0;
        for r in from..end {
            let number = first[r];
            let other = second[r];
            few_to_first += other.lead(number, at_most);
            few_to_second += number.lead(other, at_most);
        }
        to_first += u32::from(few_to_first);
        to_second += u32::from(few_to_second);
        from = end;
    }
    BothCounts {
        first: to_first,
        second: to_second,
    }
}

fn merge_planes<N: Number>(first: &mut [N], second: &mut [N], marks: BothMarks<N>) -> BothCounts
    requires marked { AreBothMarked first.old second.old marks }
    requires room { length first.old ≤ MOST_NODES }
    ensures { ArePlanesMerged N.number marks.entry first.old second.old first.new second.new result }
{
    let size = N::at_a_time();
    let mut to_first = 0;
    let mut to_second = 0;
    let mut from = 0;
    while first.len() - from >= size {
        let both = merge_some(first, second, marks, from, size);
        to_first += both.first;
        to_second += both.second;
        from += size;
    }
    let rest = first.len() - from;
    let both = merge_some(first, second, marks, from, rest);
    BothCounts {
        first: to_first + both.first,
        second: to_second + both.second,
    }
}

fn merge_some<N: Number>(
    first: &mut [N],
    second: &mut [N],
    marks: BothMarks<N>,
    from: usize,
    size: usize,
) -> BothCounts
    requires { AreBothMarked first.old second.old marks × IsPart N.most (length first.old) from size }
    ensures { ArePartMerged N.number marks.entry first.old second.old first.new second.new from size result }
{
    let first_low = marks.first;
    let second_low = marks.second;
    let mut to_first = N::zero();
    let mut to_second = N::zero();
    for i in 0..size {
        let r = from + i;
        let number = first[r];
        let other = second[r];
        let comes = other.is_above(first_low[r]);
        let goes = number.is_above(second_low[r]);
        first[r] = planes::raised_to(number, other, comes);
        second[r] = planes::raised_to(other, number, goes);
        to_first = to_first.plus(comes);
        to_second = to_second.plus(goes);
    }
    BothCounts {
        first: to_first.widen(),
        second: to_second.widen(),
    }
}

/// Raises each number of both tables to the other's of its place, where that is above their own mark of its owner. No
/// number may be above its own table's mark. It answers how many numbers come to each. It goes over all planes, or
/// where only few owners' marks differ and there are many keys, over the keys of these owners.
pub fn merge<N: Number>(first: &mut [N], second: &mut [N], marks: BothMarks<N>) -> BothCounts
    requires marked { AreBothCovered N.number marks first.old second.old }
    ensures { AreBothRaised N.number marks.entry first.old second.old first.new second.new result }
{
    let size = marks.size;
    if are_few(size.keys, marks.first, marks.second, FEW_TO_CHANGE)
        && are_few(size.keys, marks.second, marks.first, FEW_TO_CHANGE)
    {
        return owners::merge_owners(first, second, marks);
    }
    let mut to_first = 0;
    let mut to_second = 0;
    for key in 0..size.keys {
        let start = key * size.nodes;
        let one = &mut first[start..start + size.nodes];
        let other = &mut second[start..start + size.nodes];
        let both = merge_planes(one, other, marks);
        to_first += both.first;
        to_second += both.second;
    }
    BothCounts {
        first: to_first,
        second: to_second,
    }
}

/// Raises each number of two lists to the other list's.
pub fn raise_both<N: Number>(first: &mut [N], second: &mut [N])
    requires second { length second.old ≡ length first.old }
    ensures { AreRaisedToOther N.number first.old second.old first.new second.new }
{
    for r in 0..first.len() {
        let number = first[r];
        let other = second[r];
        first[r] = number.max_with(other);
        second[r] = other.max_with(number);
    }
}
