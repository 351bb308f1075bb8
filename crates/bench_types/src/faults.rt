//! Everything that a call of the bench can answer in place of its result.

ghost use Rattle.std.specs.Prelude.{◌≡◌, ◌+◌, ◌<◌, ◌++◌, length, Some};
ghost use Rattle.bench_types.specs.calls.FaultLine.{fault_line, filling_text};
ghost use Rattle.bench_types.specs.inner.FaultParts.{filling_of, tail_of};
ghost use Rattle.bench_types.specs.declared.faults.Fault.TheVariants.{OutOfMemory};

use crate::fields::{Field, TableName};
use crate::fillings::Filling;
use crate::limits::{MOST_BYTES, MOST_ENTRIES, MOST_ENTRY_SIZE};
use std::alloc::{AllocError, AllocFailed};
use std::fmt;
use thiserror::Error;

/// A fault. Its display is the line that the program prints, without the line's end.
#[derive(Debug, Drop, PartialEq, Eq, Error)]
pub enum Fault {
    OutOfMemory,
    NotToml,
    TooLong,
    Missing(Field),
    WrongType(Field),
    OutOfRange(Field),
    UnknownField(TableName),
    TooLarge,
    NoThread,
    Broken,
    Finished,
    ReadFailed,
    WriteFailed,
    Stranger,
    Double,
    NoRecord(u32),
    Unfinished,
    NotAllowed,
    NotRunning,
    BudgetTooSmall,
}

impl Fault {
    /// Its line: a text, what tells it from other faults of its kind, and a text behind that. Takes no memory.
    pub fn parts(&self) -> (&'static str, Filling, &'static str)
        ensures line { result.0.now ++ (filling_text result.1 ++ result.2.now) ≡ fault_line self.now }
        ensures room { length result.0.now + length result.2.now < 60 }
    {
        (self.head(), self.filling(), self.tail())
    }

    // (the three apart, as to make the three at once in each arm is dear to prove)
    fn head(&self) -> &'static str
        ensures line { result.now ++ (filling_text (filling_of self.now) ++ tail_of self.now) ≡ fault_line self.now }
        ensures room { length result.now + length (tail_of self.now) < 60 }
    {
        match self {
            Fault::OutOfMemory => "fault 1: out of memory",
            Fault::NotToml => "fault 2: input is not TOML",
            Fault::TooLong => "fault 3: input is longer than ",
            Fault::Missing(_) => "fault 4: missing field ",
            Fault::WrongType(_) => "fault 5: wrong type of field ",
            Fault::OutOfRange(_) => "fault 6: field ",
            Fault::UnknownField(_) => "fault 7: unknown field in table ",
            Fault::TooLarge => "fault 8: nodes * nodes * keys is above ",
            Fault::NoThread => "fault 9: a thread could not be started",
            Fault::Broken => "fault 10: broken by an earlier fault",
            Fault::Finished => "fault 11: no round is left",
            Fault::ReadFailed => "fault 12: reading failed",
            Fault::WriteFailed => "fault 13: writing failed",
            Fault::Stranger => "fault 14: no exchange has this stamp",
            Fault::Double => "fault 15: this stamp has a record",
            Fault::NoRecord(_) => "fault 16: no record of exchange ",
            Fault::Unfinished => "fault 17: exchanges are unfinished",
            Fault::NotAllowed => "fault 18: this exchange may not start",
            Fault::NotRunning => "fault 19: this exchange is not running",
            Fault::BudgetTooSmall => "fault 20: budget_bytes is below ",
        }
    }

    fn filling(&self) -> Filling
        ensures { result ≡ filling_of self.now }
    {
        match self {
            Fault::TooLong => Filling::Number(MOST_BYTES as u64),
            Fault::Missing(field) | Fault::WrongType(field) | Fault::OutOfRange(field) => {
                Filling::Field(*field)
            }
            Fault::UnknownField(table) => Filling::Table(*table),
            Fault::TooLarge => Filling::Number(MOST_ENTRIES),
            Fault::NoRecord(exchange) => Filling::Number(u64::from(*exchange)),
            Fault::BudgetTooSmall => Filling::Number(u64::from(MOST_ENTRY_SIZE)),
            _ => Filling::Nothing,
        }
    }

    fn tail(&self) -> &'static str
        ensures { result.now ≡ tail_of self.now }
    {
        match self {
            Fault::TooLong => " bytes",
            Fault::OutOfRange(_) => " is out of range",
            _ => "",
        }
    }
}

impl fmt::Display for Fault {
    ghost output = { λ fault. Some (fault_line fault) };

    fn fmt<W: fmt::Write>(&self, f: &mut fmt::Formatter<W>) -> fmt::Result {
        let (head, filling, tail) = self.parts();
        write!(f, "{head}{filling}{tail}")
    }
}

impl From<AllocError> for Fault {
    ghost from_gives = { λ _ fault. fault ≡ OutOfMemory };

    fn from(_refused: AllocError) -> Fault {
        Fault::OutOfMemory
    }
}

impl<T: Drop> From<AllocFailed<T>> for Fault {
    ghost from_gives = { λ _ fault. fault ≡ OutOfMemory };

    fn from(_refused: AllocFailed<T>) -> Fault {
        Fault::OutOfMemory
    }
}
