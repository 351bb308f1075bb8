//! The records of all workers, each at the place of its exchange.

ghost use Rattle.std.specs.Prelude.{◌≡◌, ◌<◌, All, length};
ghost use Rattle.workers.specs.inner.Outcomes.{ComesTo};
ghost use Rattle.workers.specs.inner.Stamps.{with_records};

use bench_types::{Fate, Fault, Record};
use board::Seat;
use std::alloc::Global;

/// The record of an exchange, with the place of that exchange in its list.
#[derive(Clone, Copy)]
pub(crate) struct Stamped {
    pub index: u32,
    pub outcome: Record,
}

/// A seat to which those of workers are joined, and a record for each exchange of the list: that of list order once
/// the seat has put it back.
#[derive(Drop)]
pub(crate) struct Gathered<T> {
    pub seat: Seat<T>,
    pub records: Vec<Record>,
}

// Stands where no record has come.
const NO_RECORD: Record = Record {
    digest1: 0,
    digest2: 0,
    back: 0,
    forth: 0,
    back_cut: 0,
    forth_cut: 0,
    fate: Fate::Ok,
};

/// Places for the records of a list of n exchanges. An error is lack of memory.
pub(crate) fn places(alloc: Global, n: u32) -> Result<Vec<Record>, Fault>
    ensures { ComesTo result (λ records. length records.items ≡ n) }
{
    vec![in alloc; NO_RECORD; n as usize]
        .ok()
        .ok_or(Fault::OutOfMemory)
}

/// Writes each record to the place of its exchange.
pub(crate) fn write_all(records: &mut [Record], stamps: &[Stamped])
    requires within { All (λ s. s.index < length records.old) stamps.now }
    ensures { records.new ≡ with_records records.old stamps.now }
{
    for stamped in stamps {
        records[stamped.index as usize] = stamped.outcome;
    }
}
