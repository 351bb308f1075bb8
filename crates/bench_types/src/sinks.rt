//! Where bytes go to.

ghost use Rattle.std.specs.Prelude.{◌≡◌, ℕ, ◌<◌, ◌≤◌, Bool, true, false, IsTrue, List, Option, None, Ok, length, take, is_err, IfOk, OnOk, OnErr};
ghost use Rattle.std.specs.Io.KnownBytes.{Appends, Keeps};

use crate::sources::Failed;
use std::io::Write;

/// A sink of bytes that, once it has failed, fails at each call and takes nothing more.
pub trait Sink {
    // The bytes that were taken, where the sink tells them.
    ghost taken: { Self → Option (List ℕ) };

    ghost failed: { Self → Bool };

    // Whether what was taken has been passed on. A flush makes it so.
    ghost flushed: { Self → Bool };

    /// Whether it takes each byte and keeps none, so that no text has to be made for it. Most sinks keep what they
    /// take, or may fail: `false`, which a sink need not write.
    fn drops_all(&self) -> bool
        ensures { IsTrue result → (taken self.now ≡ None) × (failed self.now ≡ false) × (flushed self.now ≡ true) }
    {
        false
    }

    /// Takes some bytes from the front and answers how many: at least one of some bytes.
    fn push(&mut self, bytes: &[u8]) -> Result<usize, Failed>
        ensures bound { IfOk result (λ n. n ≤ length bytes.now) }
        ensures some { IfOk result (λ n. 0 < length bytes.now → 0 < n) }
        ensures appends { IfOk result (λ n. Appends (taken self.old) (taken self.new) (take n bytes.now)) }
        ensures fails { failed self.new ≡ is_err result }
        ensures kept { OnErr result (Keeps (taken self.old) (taken self.new)) }
        ensures stays { failed self.old ≡ true → (is_err result ≡ true) × (self.new ≡ self.old) };

    /// Passes on what was taken.
    fn flush(&mut self) -> Result<(), Failed>
        ensures kept { Keeps (taken self.old) (taken self.new) }
        ensures passes_on { OnOk result (flushed self.new ≡ true) }
        ensures fails { failed self.new ≡ is_err result }
        ensures stays { failed self.old ≡ true → (is_err result ≡ true) × (self.new ≡ self.old) };
}

/// A sink over a writer. Each error of the writer is a failure, an interruption too, and so is a
/// write of some bytes that takes none.
#[derive(Drop)]
pub struct Push<W> {
    writer: W,
    failed: bool,
    flushed: bool,
}

impl<W: Write> Push<W> {
    pub fn new(writer: W) -> Self
        ensures taken { ⟦<Push<W> as Sink>⟧.taken result ≡ W.contents writer }
        ensures fresh { ⟦<Push<W> as Sink>⟧.failed result ≡ false }
    {
        Push {
            writer,
            failed: false,
            flushed: false,
        }
    }

    /// The writer, with what it has taken.
    pub fn into_inner(self) -> W
        ensures { W.contents result ≡ ⟦<Push<W> as Sink>⟧.taken self }
    {
        let Push { writer, .. } = self;
        writer
    }
}

impl<W: Write> Sink for Push<W> {
    ghost taken = { λ sink. W.contents sink.writer };

    ghost failed = { λ sink. sink.failed };

    ghost flushed = { λ sink. sink.flushed };

    fn push(&mut self, bytes: &[u8]) -> Result<usize, Failed> {
        if self.failed {
            return Err(Failed);
        }
        match self.writer.write(bytes) {
            Ok(count) if count > 0 || bytes.is_empty() => {
                self.flushed = false;
                Ok(count)
            }
            _ => {
                self.failed = true;
                Err(Failed)
            }
        }
    }

    fn flush(&mut self) -> Result<(), Failed> {
        if self.failed {
            return Err(Failed);
        }
        match self.writer.flush() {
            Ok(()) => {
                self.flushed = true;
                Ok(())
            }
            Err(_) => {
                self.failed = true;
                Err(Failed)
            }
        }
    }
}

/// A sink that takes everything, keeps nothing and never fails.
#[derive(Clone, Copy, Debug, PartialEq, Eq)]
pub struct Discard;

impl Sink for Discard {
    ghost taken = { λ _. None };

    ghost failed = { λ _. false };

    ghost flushed = { λ _. true };

    fn drops_all(&self) -> bool
        ensures { result ≡ true }
    {
        true
    }

    fn push(&mut self, bytes: &[u8]) -> Result<usize, Failed>
        ensures all { result ≡ Ok (length bytes.now) }
    {
        Ok(bytes.len())
    }

    fn flush(&mut self) -> Result<(), Failed> {
        Ok(())
    }
}
