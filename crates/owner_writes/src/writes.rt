//! All that one owner wrote, in order.

ghost use Rattle.std.specs.Prelude.{◌≡◌, ◌+◌, ◌^◌, ◌<◌, ◌≤◌, Some, None, MatchOption, OnOk, OnErr, IsOkUnless, length, map};
ghost use Rattle.bench_types.specs.declared.faults.Fault.TheVariants.{OutOfMemory};

use bench_types::Fault;
use std::alloc::Global;
use std::marker::Model;
use std::snapshot::Snapshot;

/// A write as it is kept.
#[derive(Drop)]
pub struct Kept {
    pub key: u32,
    pub value: u32,
    /// The round in which the owner wrote it.
    pub born: u32,
    /// The n-th write of a generation has version n, from 1.
    pub version: u32,
    // The owner's generation when it wrote this. It takes no memory.
    generation: Snapshot<u32>,
}

/// All writes of one owner. What was written never changes.
#[derive(Drop)]
pub struct OwnerWrites {
    // Those of its earlier generations, so many, and then those of the one that it is in.
    kept: Vec<Kept>,
    earlier: usize,
    generation: u32,
}

impl Model for OwnerWrites {
    ghost use Rattle.model.specs.calls.OwnerListView.{OwnerListView};
    ghost use Rattle.owner_writes.specs.inner.Codes.{list_code};
    ghost use Rattle.owner_writes.specs.inner.Views.{view_of, IsKept};

    ghost Value = { OwnerListView };

    ghost coded = { list_code };

    ghost view = { λ w. view_of w.kept.items w.earlier w.generation };

    ghost invariant = { λ w. IsKept w.kept.items w.earlier w.generation };
}

impl OwnerWrites {
    ghost use Rattle.model.specs.calls.OwnerListView.{entries_of, no_writes, with_write, begun_generation};
    ghost use Rattle.model.specs.calls.Numbers.{write_numbered};
    ghost use Rattle.bench_types.specs.declared.entries.Entry.{Entry};
    ghost use Rattle.owner_writes.specs.Kept.{entry_kept};
    ghost use Rattle.owner_writes.specs.Numbered.{start_of};

    /// Those of an owner that has written nothing, in generation 0. They take no memory yet.
    pub fn new(alloc: Global) -> OwnerWrites
        ensures { result ≡ no_writes }
    {
        OwnerWrites {
            kept: Vec::new(alloc),
            earlier: 0,
            generation: 0,
        }
    }

    /// The owner writes a value to a key in a round: the version is one above the last one's. An error is lack of
    /// memory (`OutOfMemory`), and then nothing was added.
    pub fn write(&mut self, key: u32, value: u32, born: u32) -> Result<(), Fault>
        requires { length self.old.current + 1 < 2 ^ 32 }
        ensures ok { OnOk result (self.new ≡ with_write self.old key value born) }
        ensures err { OnErr result (self.new ≡ self.old) }
        ensures only { IsOkUnless result OutOfMemory }
    {
        let version = self.len() + 1;
        let generation = Snapshot::of(&self.generation);
        self.kept.push(Kept {
            key,
            value,
            born,
            version,
            generation,
        })?;
        Ok(())
    }

    /// The owner forgets, and begins its next generation with nothing. What it wrote stays, as that of
    /// earlier generations. It takes no memory.
    pub fn begin_generation(&mut self)
        requires { self.old.generation + 1 < 2 ^ 32 }
        ensures { self.new ≡ begun_generation self.old }
    {
        self.earlier = self.kept.len();
        self.generation += 1;
    }

    /// All is gone, as in a new one. It keeps its room.
    pub fn clear(&mut self)
        ensures { self.new ≡ no_writes }
    {
        self.kept.clear();
        self.earlier = 0;
        self.generation = 0;
    }

    /// How often the owner began another generation.
    pub fn generation(&self) -> u32
        ensures { result ≡ self.now.generation }
    {
        self.generation
    }

    /// Its writes of its generation, in order. Nothing is copied or walked over.
    pub fn current(&self) -> &[Kept]
        ensures { map entry_kept result.now ≡ self.now.current }
    {
        &self.kept[self.earlier..]
    }

    /// How many writes there are of its generation.
    pub fn len(&self) -> u32
        ensures { result ≡ length self.now.current }
    {
        (self.kept.len() - self.earlier) as u32
    }

    /// The write of a number, which counts all its writes from 1, those of earlier generations too. One step.
    pub fn numbered(&self, number: u32) -> Option<&Kept>
        ensures { MatchOption result (write_numbered (entries_of self.now) number ≡ None)
            (λ kept. write_numbered (entries_of self.now) number ≡ Some (entry_kept kept.now)) }
    {
        let place = number.checked_sub(1)?;
        self.kept.get(place as usize)
    }

    /// How many writes there were before the generation of a number's write, 0 where there is no such write.
    pub fn start_of(&self, number: u32) -> u32
        requires { (e : Entry) → write_numbered (entries_of self.now) number ≡ Some e → e.version ≤ number }
        ensures start { result ≡ start_of (entries_of self.now) number }
        ensures upto { result ≤ number }
    {
        match self.numbered(number) {
            Some(write) => number - write.version,
            None => 0,
        }
    }

    /// How many writes there are of all its generations.
    pub fn count(&self) -> usize
        ensures { result ≡ length (entries_of self.now) }
    {
        self.kept.len()
    }

    /// How many of them are of earlier generations.
    pub fn earlier_count(&self) -> usize
        ensures { result ≡ length self.now.earlier }
    {
        self.earlier
    }
}
