//! Numbers of writes, in as many bits as a scenario needs.

use limits::MOST_NODES;
use std::marker::Model;

/// The number of a write: its place, from 1, among all writes of its owner; 0 for none.
pub trait Number: Copy {
    ghost use Rattle.std.specs.Prelude.{◌≡◌, ℕ, ◌+◌, ◌-◌, ◌<◌, ◌≤◌, nat_lt, nat_le, max, min, if◌then◌else◌};
    ghost use Rattle.limits.specs.declared.TheConstants.{MOST_KEYS};

    // The number that it is.
    ghost number: { Self → ℕ };

    ghost most: { ℕ };

    fn zero() -> Self
        ensures { number result ≡ 0 }
    {
        Self::narrow(0)
    }

    /// Above every number of a write.
    fn greatest() -> Self
        ensures { number result ≡ most };

    fn widen(self) -> u32
        ensures { result ≡ number self };

    fn narrow(wide: u32) -> Self
        requires { wide ≤ most }
        ensures { number result ≡ wide };

    fn is_above(self, other: Self) -> bool
        ensures { result ≡ nat_lt (number other) (number self) };

    fn is_upto(self, other: Self) -> bool
        ensures { result ≡ nat_le (number self) (number other) };

    fn max_with(self, other: Self) -> Self
        ensures { number result ≡ max (number self) (number other) };

    fn min_with(self, other: Self) -> Self
        ensures number { number result ≡ min (number self) (number other) }
        ensures fits { number other ≤ most };

    /// One more where the test holds.
    fn plus(self, more: bool) -> Self
        requires { number self < most }
        ensures { number result ≡ number self + (if more then 1 else 0) };

    /// How far it is above another one, but no more than `at_most`.
    fn lead(self, other: Self, at_most: u8) -> u16
        ensures { result ≡ min at_most (number self - number other) };

    /// So many numbers are counted at a time, which a number can count.
    fn at_a_time() -> usize
        ensures some { 1 ≤ result }
        ensures counts { result ≤ most };

    // An owner's keys can be counted.
    ghost counts_keys: { MOST_KEYS ≤ most };
}

impl Number for u8 {
    ghost use Rattle.std.proofs.Common.{rules};

    ghost number = { λ n. n };

    ghost most = { 255 };

    ghost counts_keys = { Prim.search rules };

    fn greatest() -> u8 {
        u8::MAX
    }

    fn widen(self) -> u32 {
        u32::from(self)
    }

    fn narrow(wide: u32) -> u8 {
        wide as u8
    }

    fn is_above(self, other: u8) -> bool {
        self > other
    }

    fn is_upto(self, other: u8) -> bool {
        self <= other
    }

    fn max_with(self, other: u8) -> u8 {
        self.max(other)
    }

    fn min_with(self, other: u8) -> u8 {
        self.min(other)
    }

    fn plus(self, more: bool) -> u8 {
        self + u8::from(more)
    }

    fn lead(self, other: u8, at_most: u8) -> u16 {
        u16::from(self.saturating_sub(other).min(at_most))
    }

    fn at_a_time() -> usize {
        192
    }
}

/// A number below 32768, in 16 bits with a sign: a processor compares many such numbers in one instruction, and those
/// without a sign in two.
#[derive(Clone, Copy)]
pub struct Short(i16);

impl Model for Short {
    ghost use Rattle.std.specs.Prelude.{◌≡◌, ℕ};
    ghost use Rattle.std.specs.Int.RustNames.{unsigned_abs};
    ghost use lib.IntN.{pos};

    ghost Value = { ℕ };

    ghost view = { λ s. unsigned_abs s.0 };

    ghost invariant = { λ s. s.0 ≡ pos (unsigned_abs s.0) };

    ghost inverse = { λ n. record { 0 = pos n } };
}

impl Number for Short {
    ghost use Rattle.std.proofs.Common.{rules};

    ghost number = { λ n. n };

    ghost most = { 32767 };

    ghost counts_keys = { Prim.search rules };

    fn greatest() -> Short {
        Short(i16::MAX)
    }

    fn widen(self) -> u32 {
        self.0 as u32
    }

    fn narrow(wide: u32) -> Short {
        Short(wide as i16)
    }

    fn is_above(self, other: Short) -> bool {
        self.0 > other.0
    }

    fn is_upto(self, other: Short) -> bool {
        self.0 <= other.0
    }

    fn max_with(self, other: Short) -> Short {
        Short(self.0.max(other.0))
    }

    fn min_with(self, other: Short) -> Short {
        Short(self.0.min(other.0))
    }

    fn plus(self, more: bool) -> Short {
        Short(self.0 + i16::from(more))
    }

    fn lead(self, other: Short, at_most: u8) -> u16 {
        (self.0 as u16)
            .saturating_sub(other.0 as u16)
            .min(u16::from(at_most))
    }

    fn at_a_time() -> usize {
        MOST_NODES as usize
    }
}

impl Number for u32 {
    ghost use Rattle.std.proofs.Common.{rules};

    ghost number = { λ n. n };

    ghost most = { 4294967295 };

    ghost counts_keys = { Prim.search rules };

    fn greatest() -> u32 {
        u32::MAX
    }

    fn widen(self) -> u32 {
        self
    }

    fn narrow(wide: u32) -> u32 {
        wide
    }

    fn is_above(self, other: u32) -> bool {
        self > other
    }

    fn is_upto(self, other: u32) -> bool {
        self <= other
    }

    fn max_with(self, other: u32) -> u32 {
        self.max(other)
    }

    fn min_with(self, other: u32) -> u32 {
        self.min(other)
    }

    fn plus(self, more: bool) -> u32 {
        self + u32::from(more)
    }

    fn lead(self, other: u32, at_most: u8) -> u16 {
        self.saturating_sub(other).min(u32::from(at_most)) as u16
    }

    fn at_a_time() -> usize {
        MOST_NODES as usize
    }
}
