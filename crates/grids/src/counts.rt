//! Loops over one plane, or all planes as one, that count.

ghost use Rattle.std.specs.Prelude.{ℕ, ◌*◌, ◌<◌, ◌≤◌, length};
ghost use Rattle.grids.specs.Common.{MOST_KEYS, MOST_NODES, IsPart};
ghost use Rattle.grids.specs.inner.Loops.{AreCounted};

use planes::Number;

/// Changes each number to the one that a closure makes of place and number. It answers how many times the closure says
/// yes beside, to each of two questions.
pub fn change_counting<N: Number, F: Fn(usize, N) -> (N, bool, bool)>(
    numbers: &mut [N],
    to: F,
) -> (u32, u32)
    requires room { length numbers.old ≤ MOST_NODES * MOST_KEYS }
    requires to { (r : ℕ) (n : N) → r < length numbers.old → F.pre to r n }
    ensures { AreCounted N.number (F.post to) numbers.old numbers.new 0 (length numbers.old) result }
{
    let size = N::at_a_time();
    let mut first = 0;
    let mut second = 0;
    let mut from = 0;
    while numbers.len() - from >= size {
        let part = change_some_counting(numbers, from, size, &to);
        first += part.0;
        second += part.1;
        from += size;
    }
    let rest = numbers.len() - from;
    let part = change_some_counting(numbers, from, rest, &to);
    (first + part.0, second + part.1)
}

// So many of them from one on.
fn change_some_counting<N: Number, F: Fn(usize, N) -> (N, bool, bool)>(
    numbers: &mut [N],
    from: usize,
    size: usize,
    to: F,
) -> (u32, u32)
    requires part { IsPart N.most (length numbers.old) from size }
    requires to { (r : ℕ) (n : N) → r < length numbers.old → F.pre to r n }
    ensures { AreCounted N.number (F.post to) numbers.old numbers.new from size result }
{
    let mut first = N::zero();
    let mut second = N::zero();
    for i in 0..size {
        let r = from + i;
        let (number, is_first, is_second) = to(r, numbers[r]);
        numbers[r] = number;
        first = first.plus(is_first);
        second = second.plus(is_second);
    }
    (first.widen(), second.widen())
}
