//! A level that doesn't fit, shared out: the owners take turns from the rotation on, as long as their numbers fit.

ghost use Rattle.std.specs.Prelude.{◌≡◌, ◌+◌, ◌<◌, ◌≤◌, length, IfNone, IfSome, if◌then◌else◌};
ghost use Rattle.delta_plans.specs.Turns.{by_first, marks, part_weight, parts_count, rotated, weight_to, weights_in, AreParts, AreSharedBy, AreTurns, HasOwner, HasReached, HaveTurns, IfGranted, IsStopOf};

use crate::marked::First;
use crate::offers::{Offer, Step, number_at};
use bench_types::{Budget, Fault};
use planes::{Number, count_some_between, zeros};
use std::alloc::Global;

// How many owners had their turn, what is left then, and how many numbers were let through.
#[derive(Clone, Copy)]
struct Reached {
    turn: usize,
    left: u32,
    sent: u32,
}

/// The parts of so many owners are counted at a time.
const MANY: usize = 64;

/// A level of an offer that the owners share out in turn from the rotation on.
#[derive(Drop)]
pub(crate) struct Turns<'a, 'b, N: Number> {
    pub(crate) offer: &'a Offer<'b, N>,
    pub(crate) near: &'a [N],
    pub(crate) far: &'a [N],
    pub(crate) whole: u32,
    pub(crate) left: u32,
    pub(crate) first: First,
    pub(crate) rotation: usize,
}

fn owner_of_turn(turn: usize, nodes: usize, rotation: usize) -> usize
    requires turn { turn < nodes }
    requires rotation { rotation < nodes }
    ensures below { result < nodes }
    ensures turn { rotated nodes rotation result ≡ turn }
{
    let rest = nodes - rotation;
    if turn < rest {
        rotation + turn
    } else {
        turn - rest
    }
}

// Of two lists of marks the first where the oldest goes first, else the second.
pub(crate) fn by_first<'a, N: Number>(first: First, oldest: &'a [N], newest: &'a [N]) -> &'a [N]
    ensures { result.now ≡ by_first first oldest.now newest.now }
{
    match first {
        First::Oldest => oldest,
        First::Newest => newest,
    }
}

impl<'a, 'b, N: Number> Turns<'a, 'b, N> {
    fn weight_of_part(&self, owner: usize, count: u32) -> u32
        requires turns { AreTurns N.number N.most self.now }
        requires owner { owner < self.now.offer.now.grid.size.nodes }
        requires count { count ≡ part_weight N.number (λ _. 1) self.now owner }
        ensures { result ≡ part_weight N.number (weights_in self.now.offer.now owner) self.now owner }
    {
        match self.offer.budget {
            Budget::Entries(_) => count,
            Budget::Bytes(_) if count == 0 => 0,
            Budget::Bytes(_) => {
                let near = number_at(self.near, owner);
                let far = number_at(self.far, owner);
                self.weight_from(owner, near, far)
            }
        }
    }

    // What an owner's numbers from one mark to another weigh. Where entries are counted, no write is looked up.
    fn weight_from(&self, owner: usize, near: N, far: N) -> u32
        requires { HasOwner N.number N.most self.now.offer.now owner }
        ensures { result ≡ weight_to N.number (weights_in self.now.offer.now owner) self.now owner
            (N.number near) (N.number far) }
    {
        match (self.offer.budget, self.first) {
            (Budget::Entries(_), _) => self.count_from(owner, near, far),
            (Budget::Bytes(_), First::Oldest) => self.offer.weight_of(owner, near, far),
            (Budget::Bytes(_), First::Newest) => self.offer.weight_of(owner, far, near),
        }
    }

    fn count_from(&self, owner: usize, near: N, far: N) -> u32
        requires { HasOwner N.number N.most self.now.offer.now owner }
        ensures { result ≡ weight_to N.number (λ _. 1) self.now owner (N.number near) (N.number far) }
    {
        match self.first {
            First::Oldest => self.offer.count_of(owner, near, far),
            First::Newest => self.offer.count_of(owner, far, near),
        }
    }

    // Of an owner's part that doesn't fit, the mark up to which it does, found by halving.
    fn stop_of(&self, owner: usize, room: u32) -> N
        requires turns { AreTurns N.number N.most self.now }
        requires owner { owner < self.now.offer.now.grid.size.nodes }
        requires beyond { room < part_weight N.number (weights_in self.now.offer.now owner) self.now owner }
        ensures { IsStopOf N.number self.now owner room (N.number result) }
    {
        let most = N::greatest();
        let mut fits = most.min_with(number_at(self.near, owner)).widen();
        let mut beyond = most.min_with(number_at(self.far, owner)).widen();
        let mut left = room;
        while fits.abs_diff(beyond) > 1 {
            let middle = fits.min(beyond) + fits.abs_diff(beyond) / 2;
            let weight = self.weight_from(owner, N::narrow(fits), N::narrow(middle));
            if weight <= left {
                left -= weight;
                fits = middle;
            } else {
                beyond = middle;
            }
        }
        N::narrow(fits)
    }

    // Counts the numbers of some owners' parts, from an owner on.
    #[inline(never)]
    fn count_parts(&self, counts: &mut [N], owner: usize)
        requires turns { AreTurns N.number N.most self.now }
        requires within { owner + length counts.old ≤ self.now.offer.now.grid.size.nodes }
        ensures { AreParts N.number self.now owner (length counts.old) counts.new }
    {
        let low = by_first(self.first, self.near, self.far);
        let high = by_first(self.first, self.far, self.near);
        count_some_between(counts, self.offer.grid, owner, low, high);
    }

    // Gives some owners in turn the far mark, from one on, if entries are counted and the parts of all fit.
    fn pass_all(&self, counts: &[N], mark: &mut [N], owner: usize, reached: &mut Reached) -> bool
        requires turns { HaveTurns N.number N.most self.now mark.old reached.old owner counts.now }
        ensures reached { HasReached N.number self.now mark.new reached.new }
        ensures turn { reached.new.turn ≡ reached.old.turn + (if result then length counts.now else 0) }
    {
        match self.offer.budget {
            Budget::Entries(_) => {}
            Budget::Bytes(_) => return false,
        }
        let count = self.count_of_parts(counts, owner);
        if reached.left < count {
            return false;
        }
        for i in 0..counts.len() {
            mark[owner + i] = number_at(self.far, owner + i);
        }
        reached.turn += counts.len();
        reached.left -= count;
        reached.sent += count;
        true
    }

    // Gives them the far mark, all at once or else as long as their parts fit, and the first whose part doesn't the
    // mark where that stops. Answers how many numbers all marks let through then.
    fn pass(&self, counts: &[N], mark: &mut [N], owner: usize, reached: &mut Reached) -> Option<u32>
        requires turns { HaveTurns N.number N.most self.now mark.old reached.old owner counts.now }
        ensures reached { IfNone result (HasReached N.number self.now mark.new reached.new) }
        ensures turn { IfNone result (reached.new.turn ≡ reached.old.turn + length counts.now) }
        ensures shared { IfSome result (AreSharedBy N.number self.now mark.new) }
    {
        if self.pass_all(counts, mark, owner, reached) {
            return None;
        }
        let mut passed = *reached;
        for i in 0..counts.len() {
            let here = owner + i;
            let count = number_at(counts, i).widen();
            let weight = self.weight_of_part(here, count);
            if passed.left < weight {
                let near = number_at(self.near, here);
                let stop = self.stop_of(here, passed.left);
                mark[here] = stop;
                return Some(passed.sent + self.count_from(here, near, stop));
            }
            mark[here] = number_at(self.far, here);
            passed.turn += 1;
            passed.left -= weight;
            passed.sent += count;
        }
        *reached = passed;
        None
    }

    // How many numbers the parts of some owners have, from an owner on.
    fn count_of_parts(&self, counts: &[N], owner: usize) -> u32
        requires turns { AreTurns N.number N.most self.now }
        requires within { owner + length counts.now ≤ self.now.offer.now.grid.size.nodes }
        requires counts { AreParts N.number self.now owner (length counts.now) counts.now }
        ensures { result ≡ parts_count N.number self.now owner (length counts.now) }
    {
        let mut count = 0;
        for i in 0..counts.len() {
            count += number_at(counts, i).widen();
        }
        count
    }

    // Gives the owners in turn the far mark as long as their parts fit, and the first whose part doesn't the mark where
    // that stops. Answers how many numbers these marks let through.
    fn share_into(&self, counts: &mut [N], mark: &mut [N]) -> u32
        requires turns { AreTurns N.number N.most self.now }
        requires counts { length counts.old ≡ MANY }
        requires mark { mark.old ≡ self.now.near.now }
        ensures { AreSharedBy N.number self.now mark.new result }
    {
        let nodes = self.offer.grid.size.nodes;
        let mut reached = Reached {
            turn: 0,
            left: self.left,
            sent: self.whole,
        };
        while reached.turn < nodes {
            let owner = owner_of_turn(reached.turn, nodes, self.rotation);
            let size = MANY.min(nodes - owner.max(reached.turn));
            let parts = &mut counts[..size];
            self.count_parts(parts, owner);
            if let Some(sent) = self.pass(parts, mark, owner, &mut reached) {
                return sent;
            }
        }
        unreachable!()
    }

    /// What of the levels and of the one that doesn't fit is sent.
    pub(crate) fn share(&self, alloc: Global) -> Result<Step<N>, Fault>
        requires turns { AreTurns N.number N.most self.now }
        ensures { IfGranted result (λ s. AreSharedBy N.number self.now s.marks.items s.more) }
    {
        let mut counts = zeros(alloc, MANY)?;
        let mut marks = Vec::from_slice(alloc, self.near)?;
        let more = self.share_into(&mut counts, &mut marks);
        Ok(Step { marks, more })
    }
}
