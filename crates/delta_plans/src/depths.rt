//! Runs: all that an owner offers, the longest run first, as long as they fit.

ghost use Rattle.std.specs.Prelude.{◌+◌, ◌<◌, ◌≤◌};
ghost use Rattle.delta_plans.specs.Marked.{marks, AreRunsFrom, HasNoneBetween, IfGranted, IsLevelOf, IsMarkFrom, IsStep, IsTooLarge, MOST_KEYS, ScuttleDepth};

use crate::offers::{Level, Offer, Step};
use bench_types::DigestKind::Scuttle;
use bench_types::Fault;
use bench_types::limits::MOST_KEYS;
use planes::{Number, counts_above, pick};
use std::alloc::Global;

/// Up to so many numbers there are most often owners with just as many.
const SHORT: u32 = 8;

// A size below a bound, with no run between the two: that of the longest one below, or 0. Short ones aren't looked for.
fn next_size_below<N: Number>(counts: &[N], bound: u32) -> u32
    requires some { 0 < bound }
    requires few { bound ≤ MOST_KEYS + 1 }
    ensures { HasNoneBetween N.number counts.now bound result }
{
    if bound <= SHORT {
        return bound - 1;
    }
    let last = N::narrow(bound - 1);
    let mut longest = N::zero();
    for r in 0..counts.len() {
        let count = counts[r];
        longest = longest.max_with(pick(count.is_upto(last), count, N::zero()));
    }
    longest.widen()
}

fn next_runs<N: Number>(
    alloc: Global,
    offer: &Offer<N>,
    counts: &[N],
    near: &[N],
    size: u32,
) -> Result<Step<N>, Fault>
    requires { AreRunsFrom N.number N.most offer.now counts.now near.now size }
    ensures { IfGranted result
        (IsStep N.number offer.now (marks N.number near.now) (IsMarkFrom N.number offer.now size)) }
{
    let longest = N::narrow(size);
    let mut far = Vec::from_slice(alloc, near)?;
    let high = offer.high;
    let next = |r: usize, mark: N| pick(longest.is_upto(counts[r]), high[r], mark);
    planes::change(&mut far, next);
    let has = |_: usize, count: N| longest.is_upto(count) & count.is_upto(longest);
    let risen = planes::how_many(counts, has);
    let more = risen * size;
    Ok(Step { marks: far, more })
}

/// Runs as long as they fit, the longest first, and the first that don't.
#[inline(never)]
pub(crate) fn depth<N: Number>(alloc: Global, offer: &Offer<N>) -> Result<Level<N>, Fault>
    requires offer { IsTooLarge N.number N.most offer.now }
    ensures { IfGranted result (IsLevelOf ScuttleDepth N.number offer.now) }
{
    let counts = counts_above(alloc, offer.grid, offer.low)?;
    let mut near = Vec::from_slice(alloc, offer.low)?;
    let mut size = MOST_KEYS + 1;
    let mut whole = 0;
    let mut left = offer.budget.amount();
    loop {
        size = next_size_below(&counts, size);
        let next = next_runs(alloc, offer, &counts, &near, size)?;
        let Some(rest) = offer.left_of(Scuttle, left, next.more, &near, &next.marks) else {
            return Ok(Level {
                near,
                far: next.marks,
                whole,
                left,
            });
        };
        whole += next.more;
        left = rest;
        near = next.marks;
    }
}
