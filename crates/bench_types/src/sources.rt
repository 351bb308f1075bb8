//! Where bytes come from.

ghost use Rattle.std.specs.Prelude.{◌≡◌, ℕ, ◌<◌, ◌≤◌, Bool, true, false, List, Option, length, take, is_err, IfOk, OnErr};
ghost use Rattle.std.specs.Io.KnownBytes.{Consumes, Keeps, IsAtEnd};

use std::io::Read;

/// A source or a sink failed. It fails at every later call too.
#[derive(Clone, Copy, Debug, PartialEq, Eq)]
pub struct Failed;

/// A source of bytes that, once it has failed, fails at each call and gives nothing more.
pub trait Source {
    // The bytes that are left, where the source tells them.
    ghost left: { Self → Option (List ℕ) };

    ghost failed: { Self → Bool };

    /// Fills the front of `buf` and answers how many bytes it gave: none where `buf` has no room
    /// or nothing is left. What stands in `buf` behind those is not said.
    fn pull(&mut self, buf: &mut [u8]) -> Result<usize, Failed>
        ensures bound { IfOk result (λ n. n ≤ length buf.new) }
        ensures bytes { IfOk result (λ n. Consumes (left self.old) (left self.new) (take n buf.new)) }
        ensures end { IfOk result (λ n. n ≡ 0 → 0 < length buf.new → IsAtEnd (left self.new)) }
        ensures fails { failed self.new ≡ is_err result }
        ensures kept { OnErr result (Keeps (left self.old) (left self.new)) }
        ensures stays { failed self.old ≡ true → (is_err result ≡ true) × (self.new ≡ self.old) × (buf.new ≡ buf.old) };
}

/// A source over a reader. Each error of the reader is a failure, an interruption too.
#[derive(Drop)]
pub struct Pull<R> {
    reader: R,
    failed: bool,
}

impl<R: Read> Pull<R> {
    pub fn new(reader: R) -> Self
        ensures left { ⟦<Pull<R> as Source>⟧.left result ≡ R.remaining reader }
        ensures fresh { ⟦<Pull<R> as Source>⟧.failed result ≡ false }
    {
        Pull {
            reader,
            failed: false,
        }
    }

    /// The reader, behind what was pulled from it.
    pub fn into_inner(self) -> R
        ensures { R.remaining result ≡ ⟦<Pull<R> as Source>⟧.left self }
    {
        let Pull { reader, failed: _ } = self;
        reader
    }
}

impl<R: Read> Source for Pull<R> {
    ghost left = { λ source. R.remaining source.reader };

    ghost failed = { λ source. source.failed };

    fn pull(&mut self, buf: &mut [u8]) -> Result<usize, Failed> {
        if self.failed {
            return Err(Failed);
        }
        match self.reader.read(buf) {
            Ok(count) => Ok(count),
            Err(_) => {
                self.failed = true;
                Err(Failed)
            }
        }
    }
}
