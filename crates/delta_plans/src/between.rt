//! What lies between two marks of each owner, where most owners have nothing there, whatever their marks are.

ghost use Rattle.std.specs.Prelude.{◌≡◌, ℕ, ◌+◌, ◌<◌, ◌≤◌, false, length};
ghost use Rattle.delta_plans.specs.Between.{marks, owner_count, owner_weight, sum_below, weight_in, AreFound, HasMarks, IsLeftOf};

use crate::offers::{Offer, number_at};
use planes::{Number, is_between};

/// Among so many owners at a time those are found that have something.
const SOUGHT: usize = 256;

/// The numbers of an offer above one mark and up to another of each owner.
#[derive(Drop)]
pub(crate) struct Between<'a, 'b, N: Number> {
    pub(crate) offer: &'a Offer<'b, N>,
    pub(crate) low: &'a [N],
    pub(crate) high: &'a [N],
}

impl<'a, 'b, N: Number> Between<'a, 'b, N> {
    /// What is left of so many bytes after them, if they fit. Owners that have none are passed over.
    #[inline(never)]
    pub(crate) fn bytes_left_of(&self, room: u32) -> Option<u32>
        requires { HasMarks N.number N.most self.now.offer.now self.now.low.now self.now.high.now }
        ensures { IsLeftOf room (weight_in N.number self.now.offer.now (marks N.number self.now.low.now)
            (marks N.number self.now.high.now)) result }
    {
        let nodes = self.offer.grid.size.nodes;
        let mut left = room;
        let mut first = 0;
        while first < nodes {
            let end = nodes.min(first + SOUGHT);
            let mut has = [false; SOUGHT];
            let found: &mut [bool] = &mut has[..end - first];
            self.find(first, found);
            left = self.left_of_some(left, first, end, |owner, _, _| found[owner - first])?;
            first = end;
        }
        Some(left)
    }

    /// The same of some owners, from a first one on, of which those alone have any that pass a test, with their marks.
    #[inline(never)]
    pub(crate) fn left_of_some<F: Fn(usize, N, N) -> bool>(
        &self,
        room: u32,
        first: usize,
        end: usize,
        has: F,
    ) -> Option<u32>
        requires between { HasMarks N.number N.most self.now.offer.now self.now.low.now self.now.high.now }
        requires order { first ≤ end }
        requires within { end ≤ self.now.offer.now.grid.size.nodes }
        requires callable { (owner : ℕ) (from to : N) → first ≤ owner → owner < end → F.pre has owner from to }
        requires passed { (owner : ℕ) (from to : N) → first ≤ owner → owner < end
            → N.number from ≡ marks N.number self.now.low.now owner
            → N.number to ≡ marks N.number self.now.high.now owner → F.post has owner from to false
            → owner_count N.number self.now self.now.offer.now.grid.size.keys owner ≡ 0 }
        ensures { IsLeftOf (sum_below first (owner_weight N.number self.now) + room)
            (sum_below end (owner_weight N.number self.now)) result }
    {
        let low = self.low;
        let high = self.high;
        let mut left = room;
        for owner in first..end {
            let from = number_at(low, owner);
            let to = number_at(high, owner);
            if has(owner, from, to) {
                let weight = self.offer.weight_of(owner, from, to);
                left = left.checked_sub(weight)?;
            }
        }
        Some(left)
    }

    // Finds those of some owners, from a first one on, that have any, key by key.
    fn find(&self, first: usize, found: &mut [bool])
        requires between { HasMarks N.number N.most self.now.offer.now self.now.low.now self.now.high.now }
        requires within { first + length found.old ≤ self.now.offer.now.grid.size.nodes }
        ensures { AreFound N.number self.now self.now.offer.now.grid.size.keys first found.new }
    {
        for key in 0..self.offer.grid.size.keys {
            for i in 0..found.len() {
                let owner = first + i;
                let cell = self.offer.cell_of(owner, key);
                let low = number_at(self.low, owner);
                let high = number_at(self.high, owner);
                found[i] = found[i] | is_between(cell, low, high);
            }
        }
    }
}
