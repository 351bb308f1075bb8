//! Rounds: all that was written in a round, the oldest or the newest first, as long as they fit.

ghost use Rattle.std.specs.Prelude.{◌≡◌, ◌+◌, ◌<◌, ◌≤◌, length, map, max, slice_index, Some};
ghost use Rattle.delta_plans.specs.RoundLevels.{all_writes, amount_of, count_on, marks, round_in, weight_on, AreRaised, AreRoundMarks, IfGranted, IsAsked, IsFound, IsLeftOf, IsLevelBy};

use crate::marked::First;
use crate::offers::{Level, Offer};
use bench_types::{DigestKind, Fault};
use planes::{Ends, Number};
use std::alloc::Global;

// So many numbers fit, and leave so much if they were weighed.
#[derive(Clone, Copy)]
struct Fit {
    count: u32,
    left: Option<u32>,
}

/// Rounds of what is offered: where they end, and from which end on rounds are sent.
#[derive(Drop)]
pub(crate) struct Rounds<'a, 'b, N: Number> {
    pub(crate) offer: &'a Offer<'b, N>,
    pub(crate) ends: Ends<'b, N>,
    pub(crate) first: First,
}

impl<'a, 'b, N: Number> Rounds<'a, 'b, N> {
    /// The first round that doesn't fit with those before it, from the oldest on or from the newest on. It halves the
    /// rounds between few enough to fit and so many that they don't, with steps that double from the first on.
    #[inline(never)]
    pub(crate) fn level(&self, alloc: Global) -> Result<Level<N>, Fault>
        requires { IsAsked N.number N.most self.now.offer.now self.now.ends }
        ensures { IfGranted result (IsLevelBy self.now.first self.now.first
            (round_in (all_writes self.now.offer.now.lists.now)) N.number self.now.offer.now) }
    {
        let mut few = 0;
        let mut enough = self.ends.rounds;
        let mut fit = Fit {
            count: 0,
            left: Some(self.offer.budget.amount()),
        };
        let mut step = 1;
        while few + 1 < enough {
            let by = ((enough - few) / 2).min(step);
            let mark = self.mark_after(alloc, few + by)?;
            match self.look(&mark) {
                Some(found) => {
                    few += by;
                    fit = found;
                    step = by * 2;
                }
                None => enough = few + by,
            }
        }
        let near = self.mark_after(alloc, few)?;
        let far = self.mark_after(alloc, enough)?;
        let left = self.left_of_fit(fit, &near);
        Ok(Level {
            near,
            far,
            whole: fit.count,
            left,
        })
    }

    // What the numbers leave that marks let through, which fit.
    fn left_of_fit(&self, fit: Fit, mark: &[N]) -> u32
        requires mark { AreRaised N.number N.most self.now mark.now }
        requires fit { IsFound N.number self.now (marks N.number mark.now) (Some fit) }
        ensures { weight_on self.now.first N.number self.now.offer.now (marks N.number mark.now) + result
            ≡ amount_of self.now.offer.now.budget }
    {
        match fit.left {
            Some(left) => left,
            None => self.weighed(fit.count, mark).unwrap(),
        }
    }

    // What marks let through, if it fits. What surely fits by its count isn't weighed.
    fn look(&self, mark: &[N]) -> Option<Fit>
        requires { AreRaised N.number N.most self.now mark.now }
        ensures { IsFound N.number self.now (marks N.number mark.now) result }
    {
        let count = self.count(mark);
        if self.offer.surely_fit(count) {
            return Some(Fit { count, left: None });
        }
        let left = Some(self.weighed(count, mark)?);
        Some(Fit { count, left })
    }

    // How many numbers marks let through.
    fn count(&self, mark: &[N]) -> u32
        requires { AreRaised N.number N.most self.now mark.now }
        ensures { result ≡ count_on self.now.first N.number self.now.offer.now (marks N.number mark.now) }
    {
        let offer = self.offer;
        let above = planes::total_above(offer.grid, mark, offer.high);
        match self.first {
            First::Oldest => offer.found - above,
            First::Newest => above,
        }
    }

    // What so many leave, if they fit.
    fn weighed(&self, count: u32, mark: &[N]) -> Option<u32>
        requires mark { AreRaised N.number N.most self.now mark.now }
        requires count { count ≡ count_on self.now.first N.number self.now.offer.now (marks N.number mark.now) }
        ensures { IsLeftOf (amount_of self.now.offer.now.budget)
            (weight_on self.now.first N.number self.now.offer.now (marks N.number mark.now)) result }
    {
        let offer = self.offer;
        let room = offer.budget.amount();
        match self.first {
            First::Oldest => offer.left_of(DigestKind::Precise, room, count, offer.low, mark),
            First::Newest => offer.left_of(DigestKind::Precise, room, count, mark, offer.high),
        }
    }

    fn mark_after(&self, alloc: Global, count: u32) -> Result<Vec<N>, Fault>
        requires rounds { IsAsked N.number N.most self.now.offer.now self.now.ends }
        requires count { count ≤ self.now.ends.rounds }
        ensures { IfGranted result (λ v. AreRoundMarks N.number self.now count v.items) }
    {
        let round = match self.first {
            First::Oldest => count,
            First::Newest => self.ends.rounds - count,
        };
        let row = self.ends.row(self.offer.grid.size.nodes, round);
        let mut mark = Vec::from_slice(alloc, self.offer.low)?;
        planes::change(
            &mut mark,
            |r, number| -> N
                requires { r < length row.now }
                ensures { N.number result ≡ max (N.number number) (slice_index (map N.number row.entry.now) r) }
            { number.max_with(row[r]) },
        );
        Ok(mark)
    }
}
