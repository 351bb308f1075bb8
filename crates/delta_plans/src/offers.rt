//! What is offered, as numbers of writes, what these weigh, and levels of them.

ghost use Rattle.std.specs.Prelude.{◌≡◌, ◌+◌, ◌*◌, ◌<◌, ◌≤◌, ◌↔◌, IsTrue, length};
ghost use Rattle.delta_plans.specs.OfferInMemory.{amount_of, cells_in, count_between, count_in, high_in, low_in, marks, weight_in, weight_of, weights_in, HasMarks, HasOwner, IsLeftOf, IsOffer, MOST_ENTRY_SIZE};

use crate::between::Between;
use bench_types::limits::MOST_ENTRY_SIZE;
use bench_types::{Budget, DigestKind, Entry};
use owner_writes::OwnerWrites;
use planes::{Grid, Number, is_between};

/// The candidates are the cells of each owner above `low`, `found` in all. None is above `high`.
#[derive(Drop)]
pub struct Offer<'a, N: Number> {
    pub grid: Grid<'a, N>,
    pub low: &'a [N],
    pub high: &'a [N],
    pub lists: &'a [OwnerWrites],
    pub budget: Budget,
    pub found: u32,
}

/// Near marks let through whole levels, `whole` numbers, with so much left, and far marks one more, which doesn't fit.
#[derive(Drop)]
pub(crate) struct Level<N: Number> {
    pub(crate) near: Vec<N>,
    pub(crate) far: Vec<N>,
    pub(crate) whole: u32,
    pub(crate) left: u32,
}

/// Marks, and how many numbers they let through, or of one level more, how many numbers that has.
#[derive(Drop)]
pub(crate) struct Step<N: Number> {
    pub(crate) marks: Vec<N>,
    pub(crate) more: u32,
}

pub(crate) fn number_at<N: Number>(numbers: &[N], place: usize) -> N
    requires { place < length numbers.now }
    ensures { N.number result ≡ marks N.number numbers.now place }
{
    numbers[place]
}

impl<'a, N: Number> Offer<'a, N> {
    /// What the write of an owner's number takes of the budget, 0 where there is none.
    pub(crate) fn weight_of_number(&self, owner: usize, number: N) -> u32
        requires { owner < length self.now.lists.now }
        ensures { result ≡ weights_in self.now owner (N.number number) }
    {
        match self.lists[owner].numbered(number.widen()) {
            // (What it takes goes by its value alone.)
            Some(kept) => self.budget.share_of(&Entry {
                key: kept.key,
                generation: 0,
                version: kept.version,
                value: kept.value,
                born: kept.born,
            }),
            None => 0,
        }
    }

    pub(crate) fn cell_of(&self, owner: usize, key: usize) -> N
        requires owner { HasOwner N.number N.most self.now owner }
        requires key { key < self.now.grid.size.keys }
        ensures { N.number result ≡ cells_in N.number self.now owner key }
    {
        number_at(self.grid.cells, key * self.grid.size.nodes + owner)
    }

    /// What an owner's numbers above one mark and up to another take of it.
    #[inline(never)]
    pub(crate) fn weight_of(&self, owner: usize, low: N, high: N) -> u32
        requires { HasOwner N.number N.most self.now owner }
        ensures { result ≡ weight_of (weights_in self.now owner) (cells_in N.number self.now)
            self.now.grid.size.keys owner (N.number low) (N.number high) }
    {
        let mut weight = 0;
        for key in 0..self.grid.size.keys {
            let cell = self.cell_of(owner, key);
            if is_between(cell, low, high) {
                weight += self.weight_of_number(owner, cell);
            }
        }
        weight
    }

    /// How many these are.
    pub(crate) fn count_of(&self, owner: usize, low: N, high: N) -> u32
        requires { HasOwner N.number N.most self.now owner }
        ensures { result ≡ count_between (cells_in N.number self.now) self.now.grid.size.keys owner
            (N.number low) (N.number high) }
    {
        let mut count = 0;
        for key in 0..self.grid.size.keys {
            count += u32::from(is_between(self.cell_of(owner, key), low, high));
        }
        count
    }

    /// What is left of a part of the budget after them, if they fit, where it is known how many these are. Entries need
    /// no walk then. By a scuttle digest an owner whose marks differ has such numbers; by a precise one most have none.
    pub(crate) fn left_of(
        &self,
        kind: DigestKind,
        room: u32,
        count: u32,
        low: &[N],
        high: &[N],
    ) -> Option<u32>
        requires marks { HasMarks N.number N.most self.now low.now high.now }
        requires count { count ≡ count_in N.number self.now (marks N.number low.now) (marks N.number high.now) }
        ensures { IsLeftOf room (weight_in N.number self.now (marks N.number low.now)
            (marks N.number high.now)) result }
    {
        match self.budget {
            Budget::Entries(_) => room.checked_sub(count),
            Budget::Bytes(_) => {
                let nodes = self.grid.size.nodes;
                let between = Between {
                    offer: self,
                    low,
                    high,
                };
                let differ = |_: usize, from: N, to: N| to.is_above(from);
                match kind {
                    DigestKind::Scuttle => between.left_of_some(room, 0, nodes, differ),
                    DigestKind::Precise => between.bytes_left_of(room),
                }
            }
        }
    }

    /// Whether so many surely fit, by their count alone. Where entries are counted, no such test is needed.
    pub(crate) fn surely_fit(&self, count: u32) -> bool
        ensures { IsTrue result → count * MOST_ENTRY_SIZE ≤ amount_of self.now.budget }
    {
        match self.budget {
            Budget::Entries(_) => false,
            Budget::Bytes(amount) => count <= amount / MOST_ENTRY_SIZE,
        }
    }

    /// Whether all that is offered by a digest fits.
    pub(crate) fn fits(&self, kind: DigestKind) -> bool
        requires { IsOffer N.number N.most self.now }
        ensures { IsTrue result ↔ (weight_in N.number self.now (low_in N.number self.now) (high_in N.number self.now)
            ≤ amount_of self.now.budget) }
    {
        let (room, found) = (self.budget.amount(), self.found);
        self.surely_fit(found)
            || self
                .left_of(kind, room, found, self.low, self.high)
                .is_some()
    }
}
