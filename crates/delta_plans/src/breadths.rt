//! Layers: one number more of each owner at a time, as long as they fit.

ghost use Rattle.delta_plans.specs.Marked.{marks, HasMarks, IfGranted, IsLevelOf, IsNextLayer, IsTooLarge, ScuttleBreadth};

use crate::offers::{Level, Offer, Step};
use bench_types::DigestKind::Scuttle;
use bench_types::Fault;
use planes::{Number, least_above, pick};
use std::alloc::Global;

// One number more of each owner that has one. The marks of the others stay.
fn one_more<N: Number>(alloc: Global, offer: &Offer<N>, near: &[N]) -> Result<Step<N>, Fault>
    requires { HasMarks N.number N.most offer.now near.now offer.now.high.now }
    ensures { IfGranted result (IsNextLayer N.number offer.now (marks N.number near.now)) }
{
    let mut far = least_above(alloc, offer.grid, near)?;
    let next = |r: usize, least: N| pick(N::greatest().is_above(least), least, near[r]);
    planes::change(&mut far, next);
    let more = planes::how_many(&far, |r, mark| mark.is_above(near[r]));
    Ok(Step { marks: far, more })
}

/// Layers as long as they fit, and the first that doesn't.
#[inline(never)]
pub(crate) fn breadth<N: Number>(alloc: Global, offer: &Offer<N>) -> Result<Level<N>, Fault>
    requires offer { IsTooLarge N.number N.most offer.now }
    ensures { IfGranted result (IsLevelOf ScuttleBreadth N.number offer.now) }
{
    let mut near = Vec::from_slice(alloc, offer.low)?;
    let mut whole = 0;
    let mut left = offer.budget.amount();
    loop {
        let next = one_more(alloc, offer, &near)?;
        let Some(rest) = offer.left_of(Scuttle, left, next.more, &near, &next.marks) else {
            return Ok(Level {
                near,
                far: next.marks,
                whole,
                left,
            });
        };
        whole += next.more;
        left = rest;
        near = next.marks;
    }
}
