//! All that one owner wrote, in order.

ghost use Rattle.std.specs.Prelude.{◌≡◌, ◌+◌, ◌^◌, ◌<◌, ◌==◌, Result, Ok, Err, Some, None, MatchOption, OnOk, OnErr, IfOk, IfErr, IsOkUnless, length, map, find, drop, vec_len, vec_capacity};
ghost use Rattle.std.specs.FinMap.{put as put_entry};
ghost use Rattle.std.specs.Ordering.{nat_cmp};
ghost use Rattle.model.specs.Writes.{write_of_entry};
ghost use Rattle.model.specs.calls.Writes.{is_write_of};
ghost use Rattle.owner_writes.specs.Kept.{entry_kept};
ghost use Rattle.owner_lists.specs.Latest.{keyed, write_of, KeysRise};
ghost use Rattle.owner_lists.specs.inner.Keys.{IsIndexOfKey, IsGapForKey};
ghost use Rattle.bench_types.specs.declared.faults.Fault.TheVariants.{OutOfMemory};

use bench_types::Fault;
use model::Write;
use owner_writes::{Kept, OwnerWrites};
use std::alloc::Global;
use std::marker::Model;

/// All writes of one owner. What was written never changes.
#[derive(Drop)]
pub struct OwnerList {
    writes: OwnerWrites,
    // The last write of each key in the generation, by key.
    latest: Vec<Write>,
}

impl Model for OwnerList {
    ghost use Rattle.model.specs.calls.OwnerListView.{OwnerListView};
    ghost use Rattle.owner_writes.specs.inner.Codes.{list_code};
    ghost use Rattle.owner_lists.specs.inner.Kept.{IsKeptList};

    ghost Value = { OwnerListView };

    ghost coded = { list_code };

    ghost view = { λ l. l.writes };

    ghost invariant = { λ l. IsKeptList l.writes l.latest.items };
}

impl OwnerList {
    ghost use Rattle.model.specs.calls.OwnerListView.{entries_of, written, no_writes, with_write, begun_generation, AreWrites};
    ghost use Rattle.model.specs.calls.Numbers.{write_numbered};
    ghost use Rattle.model.specs.calls.Writes.{IsNumbered};
    ghost use Rattle.owner_lists.specs.Missed.{first_missed};
    ghost use Rattle.owner_lists.specs.Latest.{IsLatest};

    /// The list of an owner that has written nothing, in generation 0. It takes no memory yet.
    pub fn new(alloc: Global) -> OwnerList
        ensures { result ≡ no_writes }
    {
        OwnerList {
            writes: OwnerWrites::new(alloc),
            latest: Vec::new(alloc),
        }
    }

    /// The owner writes a key in a round, with value 0: see `write`.
    pub fn push(&mut self, key: u32, born: u32) -> Result<(), Fault>
        requires { length self.old.current + 1 < 2 ^ 32 }
        ensures ok { OnOk result (self.new ≡ with_write self.old key 0 born) }
        ensures err { OnErr result (self.new ≡ self.old) }
        ensures only { IsOkUnless result OutOfMemory }
    {
        self.write(key, 0, born)
    }

    /// The owner writes a value to a key in a round: the version is one above the last one's. One step where it has
    /// written all lesser keys, else a binary search among those that it has written. An error is lack of memory
    /// (`OutOfMemory`), and then nothing was added.
    pub fn write(&mut self, key: u32, value: u32, born: u32) -> Result<(), Fault>
        requires { length self.old.current + 1 < 2 ^ 32 }
        ensures ok { OnOk result (self.new ≡ with_write self.old key value born) }
        ensures err { OnErr result (self.new ≡ self.old) }
        ensures only { IsOkUnless result OutOfMemory }
    {
        let version = self.len() + 1;
        self.latest.reserve(1)?;
        self.writes.write(key, value, born)?;
        put(&mut self.latest, Write { key, version, born });
        Ok(())
    }

    /// All that was written is gone, and the list is in generation 0, as a new one. It keeps its room, and takes no
    /// memory.
    pub fn forget(&mut self)
        ensures { self.new ≡ no_writes }
    {
        self.writes.clear();
        self.latest.clear();
    }

    /// The owner forgets, and begins its next generation with nothing. What it wrote stays, as that of
    /// earlier generations. It takes no memory.
    pub fn begin_generation(&mut self)
        requires { self.old.generation + 1 < 2 ^ 32 }
        ensures { self.new ≡ begun_generation self.old }
    {
        self.writes.begin_generation();
        self.latest.clear();
    }

    /// How many writes there are of its generation.
    #[tactic(auto, using(crate::proofs::Keeping::numbered_kept))]
    pub fn len(&self) -> u32
        ensures value { result ≡ length self.now.current }
        ensures numbered { IsNumbered (written self.now) }
    {
        self.writes.len()
    }

    /// Whether the owner has written nothing in its generation.
    pub fn is_empty(&self) -> bool
        ensures { result ≡ (length self.now.current == 0) }
    {
        self.len() == 0
    }

    /// How often the owner began another generation.
    pub fn generation(&self) -> u32
        ensures value { result ≡ self.now.generation }
        ensures writes { AreWrites self.now }
    {
        self.writes.generation()
    }

    /// The write of a number, which counts all its writes from 1, those of earlier generations too. One step. It
    /// tells callers no generation, which `Kept` has for contracts alone.
    pub fn numbered(&self, number: u32) -> Option<&Kept>
        ensures { MatchOption result (write_numbered (entries_of self.now) number ≡ None)
            (λ kept. write_numbered (entries_of self.now) number ≡ Some (entry_kept kept.now)) }
    {
        self.writes.numbered(number)
    }

    /// The last write of each key that was written in its generation, by key. Nothing is copied or walked
    /// over.
    pub fn latest(&self) -> &[Write]
        ensures { IsLatest result.now (written self.now) }
    {
        &self.latest
    }

    /// The first write of a key above a version in its generation. Where the key's last one isn't above it there is
    /// none; else it is looked for behind that version.
    #[tactic(auto, using(crate::proofs::Keeping::numbered_kept, crate::proofs::Keeping::few_kept))]
    pub fn first_missed(&self, key: u32, version: u32) -> Option<Write>
        ensures missed { result ≡ first_missed (written self.now) key version }
        ensures numbered { IsNumbered (written self.now) }
        ensures few { length (written self.now) < 2 ^ 32 }
    {
        let last = write_in(&self.latest, key)?;
        if version < last.version {
            first_from(self.writes.current(), key, version as usize)
        } else {
            None
        }
    }
}

fn write_in(writes: &[Write], key: u32) -> Option<Write>
    requires { KeysRise writes.now }
    ensures { result ≡ write_of writes.now key }
{
    match search(writes, key) {
        Ok(at) => Some(writes[at]),
        Err(_) => None,
    }
}

fn first_from(writes: &[Kept], key: u32, from: usize) -> Option<Write>
    ensures { result ≡ find (is_write_of key) (drop from (map write_of_entry (map entry_kept writes.now))) }
{
    for at in from..writes.len() {
        let write = &writes[at];
        if write.key == key {
            return Some(Write {
                key,
                version: write.version,
                born: write.born,
            });
        }
    }
    None
}

// Where the write of a key is, or where it would go. It is at its own place where all lesser keys have one.
fn search(writes: &[Write], key: u32) -> Result<usize, usize>
    requires { KeysRise writes.now }
    ensures found { IfOk result (IsIndexOfKey writes.now key) }
    ensures absent { IfErr result (IsGapForKey writes.now key) }
{
    let place = key as usize;
    if place < writes.len() && writes[place].key == key {
        return Ok(place);
    }
    writes.binary_search_by_key(&key, |write| write.key)
}

fn put(writes: &mut Vec<Write>, write: Write)
    requires rising { KeysRise writes.old.items }
    requires room { vec_len writes.old < vec_capacity writes.old }
    ensures { put_entry nat_cmp write.key write (keyed writes.old.items) ≡ keyed writes.new.items }
{
    match search(writes, write.key) {
        Ok(at) => writes[at] = write,
        Err(at) => writes.insert(at, write).unwrap(),
    }
}
