//! What is sent of an offer, as one mark for each owner.

ghost use Rattle.std.specs.Prelude.{◌≡◌, ◌<◌, length, IfOk, IsOkUnless};
ghost use Rattle.delta_plans.specs.Marked.{first_sent, marks, AreMarked, IfGranted, IsLevelOf, IsOffer, OutOfMemory};
ghost use Rattle.delta_plans.specs.RoundLevels.{AreEndsOf, IsAsked};

use crate::breadths::breadth;
use crate::depths::depth;
use crate::offers::{Level, Offer};
use crate::rounds::Rounds;
use crate::sharing::{Turns, by_first};
use bench_types::{Fault, Mode};
use model::DeltaCounts;
use planes::{Ends, Number};
use std::alloc::Global;

/// Which of an owner's candidates of one level goes first.
#[derive(Clone, Copy)]
pub enum First {
    Oldest,
    Newest,
}

impl First {
    /// Which a mode sends first.
    pub fn of(mode: Mode) -> First
        ensures { result ≡ first_sent mode }
    {
        match mode {
            Mode::ScuttleBreadth | Mode::ScuttleDepth | Mode::PreciseOldest => First::Oldest,
            Mode::PreciseNewest => First::Newest,
        }
    }
}

/// Marks of what is sent: all numbers up to them, or where the newest goes first all above them.
#[derive(Drop)]
pub struct Marked<N: Number> {
    pub mark: Vec<N>,
    pub counts: DeltaCounts,
}

/// All where it fits, else whole levels and a share of the first one that doesn't fit with them.
#[inline(never)]
pub fn planned<N: Number>(
    alloc: Global,
    offer: &Offer<N>,
    mode: Mode,
    rotation: usize,
    ends: Ends<N>,
) -> Result<Marked<N>, Fault>
    requires offer { IsOffer N.number N.most offer.now }
    requires rotation { rotation < offer.now.grid.size.nodes }
    requires ends { AreEndsOf N.number offer.now ends }
    ensures size { IfOk result (λ m. length m.mark.items ≡ offer.now.grid.size.nodes) }
    ensures marked { IfOk result
        (λ m. AreMarked mode rotation N.number offer.now (marks N.number m.mark.items) m.counts.sent
        m.counts.cut) }
    ensures only { IsOkUnless result OutOfMemory }
{
    let first = First::of(mode);
    if offer.fits(mode.digest_kind()) {
        let mark = Vec::from_slice(alloc, by_first(first, offer.high, offer.low))?;
        let sent = offer.found;
        let counts = DeltaCounts { sent, cut: 0 };
        return Ok(Marked { mark, counts });
    }
    let level = level_of(alloc, offer, mode, ends)?;
    let turns = Turns {
        offer,
        near: &level.near,
        far: &level.far,
        whole: level.whole,
        left: level.left,
        first,
        rotation,
    };
    let share = turns.share(alloc)?;
    let sent = share.more;
    let cut = offer.found - sent;
    let counts = DeltaCounts { sent, cut };
    let mark = share.marks;
    Ok(Marked { mark, counts })
}

fn level_of<N: Number>(
    alloc: Global,
    offer: &Offer<N>,
    mode: Mode,
    ends: Ends<N>,
) -> Result<Level<N>, Fault>
    requires { IsAsked N.number N.most offer.now ends }
    ensures { IfGranted result (IsLevelOf mode N.number offer.now) }
{
    match mode {
        Mode::ScuttleBreadth => breadth(alloc, offer),
        Mode::ScuttleDepth => depth(alloc, offer),
        Mode::PreciseOldest | Mode::PreciseNewest => {
            let first = First::of(mode);
            Rounds { offer, ends, first }.level(alloc)
        }
    }
}
