//! What all owners have written, beside tables that keep numbers of writes alone.

ghost use Rattle.std.specs.Prelude.{◌≡◌, ◌+◌, ◌^◌, ◌<◌};
ghost use Rattle.owner_writes.specs.inner.Codes.{list_code};
ghost use Rattle.version_tables.specs.inner.Common.{length, map, IfOk, IsOkUnless, OnOk, OnErr, OutOfMemory, MOST_ROUNDS, all_writes, list_of_owner, with_write, begun_generation, HasEach, HasEachPlace, HistoriesView, histories_code, round_ended, AreNewHistories, HistoryBecomes, KeepLimits, AreSizes, IsLastNumber};
ghost use Rattle.version_tables.specs.inner.Histories.{bases_in, AreEndsOf, AreHistories, AreKnown, AreNoWrites, MayAddWrite};

use crate::tables::Written;
use bench_types::Fault;
use owner_writes::OwnerWrites;
use planes::{Ends, Number, Size, zeros};
use std::alloc::Global;
use std::marker::{Model, PhantomData};

/// All writes of all owners so far, and what exchanges read of them.
pub struct Histories<N: Number, H: Written> {
    lists: Vec<OwnerWrites>,
    // How many writes each owner has made, and how many of them are of earlier generations.
    counts: Vec<N>,
    bases: Vec<N>,
    // `lasts[key * nodes + owner]`: the number of its last write of a key in its generation, 0 for none.
    lasts: Vec<N>,
    // `ends[round * nodes + owner]`: how many it made up to a round.
    ends: Vec<N>,
    keys: u32,
    rounds: u32,
    written: PhantomData<H>,
}

impl<N: Number, H: Written> Drop for Histories<N, H> {
    fn drop(self) {
        let Histories {
            lists: _,
            counts: _,
            bases: _,
            lasts: _,
            ends: _,
            keys: _,
            rounds: _,
            written: _,
        } = self;
    }
}

impl<N: Number, H: Written> Model for Histories<N, H> {
    ghost Value = { HistoriesView };

    ghost coded = { histories_code list_code };

    ghost view = { λ h. record { lists = h.lists.items; keys = h.keys; rounds = h.rounds } };

    ghost invariant = { λ h. AreHistories H.lists N.most
        (record { lists = h.lists.items; keys = h.keys; rounds = h.rounds }) (length h.lists.items)
        (map N.number h.counts.items) (map N.number h.bases.items) (map N.number h.lasts.items)
        (map N.number h.ends.items) };
}

impl<N: Number, H: Written> Histories<N, H> {
    /// Where so many owners with so many keys each have written nothing, before the first round. An error is lack of
    /// memory (`OutOfMemory`).
    pub fn new(alloc: Global, nodes: u32, keys: u32) -> Result<Self, Fault>
        requires { AreSizes nodes keys }
        ensures begun { IfOk result (AreNewHistories nodes keys) }
        ensures only { IsOkUnless result OutOfMemory }
    {
        let nodes = nodes as usize;
        Ok(Histories {
            lists: no_lists(alloc, nodes)?,
            counts: zeros(alloc, nodes)?,
            bases: zeros(alloc, nodes)?,
            lasts: zeros(alloc, keys as usize * nodes)?,
            ends: zeros(alloc, nodes)?,
            keys,
            rounds: 0,
            written: PhantomData,
        })
    }

    /// An owner writes one of its keys in the round that comes next, and the number of the write is answered. An
    /// error is lack of memory (`OutOfMemory`), and then nothing was added.
    pub fn write(&mut self, owner: u32, key: u32, value: u32) -> Result<N, Fault>
        requires { MayAddWrite H.lists N.most self.old owner key value }
        ensures number { IfOk result
            (λ n. N.number n ≡ length (all_writes self.old.lists owner) + 1) }
        ensures ok { OnOk result (HistoryBecomes owner
            (with_write (list_of_owner self.old.lists owner) key value (self.old.rounds + 1)) self.old self.new) }
        ensures err { OnErr result (self.new ≡ self.old) }
        ensures known { IfOk result (λ _. AreKnown H.lists N.most self.old) }
        ensures only { IsOkUnless result OutOfMemory }
    {
        let owner = owner as usize;
        let born = self.rounds + 1;
        let lists = &mut self.lists;
        let nodes = lists.len();
        lists[owner].write(key, value, born)?;
        let count = &mut self.counts[owner];
        let number = count.plus(true);
        *count = number;
        self.lasts[key as usize * nodes + owner] = number;
        Ok(number)
    }

    /// An owner forgets, and begins its next generation with nothing. Costs a step for each key.
    pub fn begin_generation(&mut self, owner: u32)
        requires owner { owner < length self.old.lists }
        requires few { (list_of_owner self.old.lists owner).generation + 1 < 2 ^ 32 }
        ensures { HistoryBecomes owner (begun_generation (list_of_owner self.old.lists owner)) self.old self.new }
    {
        let owner = owner as usize;
        let lists = &mut self.lists;
        lists[owner].begin_generation();
        let size = Size {
            nodes: lists.len(),
            keys: self.keys as usize,
        };
        let count = self.counts[owner];
        self.bases[owner] = count;
        grids::drop_owner(&mut self.lasts, size, owner, count.widen());
    }

    /// The writes of the next round are made. An error is lack of memory (`OutOfMemory`), and then the round has
    /// not ended.
    pub fn end_round(&mut self) -> Result<(), Fault>
        requires { self.old.rounds < MOST_ROUNDS }
        ensures ok { OnOk result (self.new ≡ round_ended self.old) }
        ensures err { OnErr result (self.new ≡ self.old) }
        ensures known { AreKnown H.lists N.most self.new }
        ensures only { IsOkUnless result OutOfMemory }
    {
        self.ends.extend_from_slice(&self.counts)?;
        self.rounds += 1;
        Ok(())
    }

    /// The owners' lists.
    pub fn lists(&self) -> &[OwnerWrites]
        ensures value { result.now ≡ self.now.lists }
        ensures known { AreKnown H.lists N.most self.now }
    {
        &self.lists
    }

    // How many writes of earlier generations each owner has made.
    pub(crate) fn bases(&self) -> &[N]
        ensures count { length result.now ≡ length self.now.lists }
        ensures each { HasEach (length self.now.lists) (λ r n. n ≡ bases_in self.now.lists r)
            (map N.number result.now) }
    {
        &self.bases
    }

    // How many keys each owner has.
    pub(crate) fn keys(&self) -> u32
        ensures value { result ≡ self.now.keys }
        ensures limits { KeepLimits self.now }
    {
        self.keys
    }

    // Plane by plane, the number of each owner's last write of each key.
    pub(crate) fn lasts(&self) -> &[N]
        ensures { HasEachPlace (length self.now.lists) self.now.keys
            (λ r k n. IsLastNumber (list_of_owner self.now.lists r) k n) (map N.number result.now) }
    {
        &self.lasts
    }

    // Where each round ends: how many writes each owner has made up to it.
    pub(crate) fn ends(&self) -> Ends<N>
        ensures { AreEndsOf N.number self.now result }
    {
        Ends {
            numbers: &self.ends,
            rounds: self.rounds,
        }
    }
}

fn no_lists(alloc: Global, nodes: usize) -> Result<Vec<OwnerWrites>, Fault>
    ensures lists { IfOk result (λ v. AreNoWrites nodes v.items) }
    ensures only { IsOkUnless result OutOfMemory }
{
    let mut lists = Vec::with_capacity(alloc, nodes)?;
    for _ in 0..nodes {
        lists.push(OwnerWrites::new(alloc))?;
    }
    Ok(lists)
}
