//! Loops over planes: for each owner one number.

ghost use Rattle.std.specs.Prelude.{◌≡◌, ℕ, ◌+◌, ◌*◌, ◌<◌, ◌≤◌, ◌&&◌, Bool, length, map, max, min, nat_le, nat_lt, slice_index, if◌then◌else◌};
ghost use Rattle.limits.specs.declared.TheConstants.{MOST_KEYS, MOST_NODES};
ghost use Rattle.planes.specs.Elementwise.{AreChanged};
ghost use Rattle.planes.specs.Loops.{AnswersAs, IsMade, IsPart, count_passing};

use crate::numbers::Number;

/// Whether a number is above one mark and up to another.
pub fn is_between<N: Number>(number: N, low: N, high: N) -> bool
    ensures { result ≡ nat_lt (N.number low) (N.number number) && nat_le (N.number number) (N.number high) }
{
    number.is_above(low) & number.is_upto(high)
}

/// A number where the test holds, else another one.
pub fn pick<N: Number>(test: bool, number: N, other: N) -> N
    ensures { N.number result ≡ (if test then N.number number else N.number other) }
{
    if test { number } else { other }
}

/// A number raised to another one where that is above a mark.
pub fn raised_to<N: Number>(number: N, other: N, is_above: bool) -> N
    ensures { N.number result ≡ max (N.number number) (if is_above then N.number other else 0) }
{
    number.max_with(pick(is_above, other, N::zero()))
}

/// Changes each owner's number to what a closure makes of owner and number.
pub fn change<N: Number, F: Fn(usize, N) -> N>(numbers: &mut [N], to: F)
    requires to { (r : ℕ) (n : N) → r < length numbers.old → N.number n ≡ slice_index (map N.number numbers.old) r
        → F.pre to r n }
    ensures { AreChanged (IsMade N.number (F.post to)) (map N.number numbers.old) (map N.number numbers.new) }
{
    for r in 0..numbers.len() {
        numbers[r] = to(r, numbers[r]);
    }
}

/// Lowers each owner's number to the one in a plane.
pub fn lower<N: Number>(least: &mut [N], plane: &[N])
    requires plane { length plane.now ≡ length least.old }
    ensures least { AreChanged (λ r x y. y ≡ min x (slice_index (map N.number plane.now) r))
        (map N.number least.old) (map N.number least.new) }
{
    change(least, |r, number| number.min_with(plane[r]));
}

/// How many numbers of a plane, or of planes one after another, pass a test of place and number.
pub fn how_many<N: Number, F: Fn(usize, N) -> bool>(plane: &[N], passes: F) -> u32
    requires room { length plane.now ≤ MOST_NODES * MOST_KEYS }
    requires passes { (r : ℕ) (n : N) → r < length plane.now → F.pre passes r n }
    ensures upto { result ≤ length plane.now }
    ensures count { (test : ℕ → ℕ → Bool) → AnswersAs N.number (F.post passes) (length plane.now) test
        → result ≡ count_passing (length plane.now) (λ r. test r (slice_index (map N.number plane.now) r)) }
{
    let size = N::at_a_time();
    let mut count = 0;
    let mut from = 0;
    while plane.len() - from >= size {
        count += how_many_of(plane, from, size, &passes);
        from += size;
    }
    let rest = plane.len() - from;
    count + how_many_of(plane, from, rest, &passes)
}

fn how_many_of<N: Number, F: Fn(usize, N) -> bool>(
    plane: &[N],
    from: usize,
    size: usize,
    passes: F,
) -> u32
    requires part { IsPart N.most (length plane.now) from size }
    requires passes { (r : ℕ) (n : N) → r < length plane.now → F.pre passes r n }
    ensures upto { result ≤ size }
    ensures count { (test : ℕ → ℕ → Bool) → AnswersAs N.number (F.post passes) (length plane.now) test
        → (count : ℕ) → count ≡ count_passing from (λ r. test r (slice_index (map N.number plane.now) r))
        → count + result ≡ count_passing (from + size) (λ r. test r (slice_index (map N.number plane.now) r)) }
{
    let mut count = N::zero();
    for i in 0..size {
        let r = from + i;
        count = count.plus(passes(r, plane[r]));
    }
    count.widen()
}

/// How many numbers of a plane are above their owners' marks.
pub fn how_many_above<N: Number>(plane: &[N], low: &[N]) -> u32
    requires low { length low.now ≡ length plane.now }
    requires room { length plane.now ≤ MOST_NODES }
    ensures { result ≡ count_passing (length plane.now)
        (λ r. nat_lt (slice_index (map N.number low.now) r) (slice_index (map N.number plane.now) r)) }
{
    how_many(plane, |r, number| number.is_above(low[r]))
}
