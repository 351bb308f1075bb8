//! What collects the records.

ghost use Rattle.std.specs.Prelude.{◌≡◌, ℕ, ◌^◌, ◌<◌, ◌≤◌, [], map, length, Some, IfErr, OnOk, vec_capacity};
ghost use Rattle.collector.specs.Outcomes.{IsFirstMissing};

use bench_types::{Fault, Record};
use std::alloc::Global;
use std::marker::Model;

/// The record of an exchange, with the place of that exchange in its list.
#[derive(Clone, Copy, Debug, PartialEq, Eq)]
pub struct Stamped {
    pub index: u32,
    pub outcome: Record,
}

/// The records that have come of a list's exchanges.
#[derive(Drop)]
pub struct Collector {
    // For each place of the list its record, once that has come.
    outcomes: Vec<Option<Record>>,
    // Room for all records, empty until the end.
    room: Vec<Record>,
}

impl Model for Collector {
    ghost use Rattle.std.specs.Prelude.{List, Option};
    ghost use Rattle.bench_types.specs.declared.exchanges.Record.{Record};
    ghost use Rattle.collector.specs.inner.Kept.{IsCollector};

    ghost Value = { List (Option Record) };

    ghost view = { λ c. c.outcomes.items };

    ghost invariant = { λ c. IsCollector c.outcomes c.room };
}

impl Collector {
    ghost use Rattle.std.specs.Prelude.{◌↔◌, IsOk, IfOk, OnErr, IsOkUnless, IsErrOf};
    ghost use Rattle.bench_types.specs.declared.faults.Fault.TheVariants.{OutOfMemory, Stranger, Double, NoRecord};
    ghost use Rattle.collector.specs.Outcomes.{no_outcomes, IsMissing, HasOutcome, with_outcome};

    /// A collector for a list of n exchanges, which has no record. It takes all memory that `put`
    /// and `finish` need. An error is lack of memory (`OutOfMemory`).
    pub fn new(alloc: Global, n: u32) -> Result<Collector, Fault>
        ensures empty { IfOk result (λ c. c ≡ no_outcomes n) }
        ensures only { IsOkUnless result OutOfMemory }
    {
        let room = Vec::with_capacity(alloc, n as usize)?;
        let mut outcomes = Vec::with_capacity(alloc, n as usize)?;
        outcomes.resize(n as usize, None)?;
        Ok(Collector { outcomes, room })
    }

    /// How many exchanges the list has.
    pub fn len(&self) -> u32
        ensures { result ≡ length self.now }
    {
        self.outcomes.len() as u32
    }

    /// Takes the record of one exchange, in one step and without memory. A stamp that no exchange of
    /// the list has is a stranger's (`Stranger`); one that has a record already is a double (`Double`), and
    /// the first record stays. After an error all is as it was.
    pub fn put(&mut self, stamped: Stamped) -> Result<(), Fault>
        ensures ok { IsOk result ↔ IsMissing self.old stamped.index }
        ensures put { OnOk result (self.new ≡ with_outcome self.old stamped) }
        ensures stranger { IsErrOf result Stranger ↔ (length self.old ≤ stamped.index) }
        ensures double { IsErrOf result Double ↔ HasOutcome self.old stamped.index }
        ensures err { OnErr result (self.new ≡ self.old) }
    {
        let at = stamped.index as usize;
        match self.outcomes.get(at) {
            None => Err(Fault::Stranger),
            Some(Some(_)) => Err(Fault::Double),
            Some(None) => {
                self.outcomes[at] = Some(stamped.outcome);
                Ok(())
            }
        }
    }

    /// The records in list order, without taking memory. Where one is missing, the error names the
    /// first exchange that has none (`NoRecord`), and the collector comes back as it was. One walk over the
    /// list, up to the first missing record.
    pub fn finish(mut self) -> Result<Vec<Record>, (Fault, Collector)>
        ensures ok { IfOk result (λ records. map Some records.items ≡ self) }
        ensures err { IfErr result (λ e. (i : ℕ) × (e.0 ≡ NoRecord i) × IsFirstMissing self i) }
        ensures back { IfErr result (λ e. e.1 ≡ self) }
    {
        match gather(&self.outcomes, &mut self.room) {
            Ok(()) => Ok(self.room),
            Err(at) => {
                self.room.clear();
                Err((Fault::NoRecord(at), self))
            }
        }
    }
}

fn gather(outcomes: &[Option<Record>], room: &mut Vec<Record>) -> Result<(), u32>
    requires few { length outcomes.now < 2 ^ 32 }
    requires empty { room.old.items ≡ [] }
    requires room { length outcomes.now ≤ vec_capacity room.old }
    ensures ok { OnOk result (map Some room.new.items ≡ outcomes.now) }
    ensures err { IfErr result (IsFirstMissing outcomes.now) }
    ensures keeps_room { vec_capacity room.old ≤ vec_capacity room.new }
{
    for (at, outcome) in outcomes.iter().enumerate() {
        match outcome {
            Some(record) => room.push(*record).unwrap(),
            None => return Err(at as u32),
        }
    }
    Ok(())
}
