//! What all owners have written in a run, beside the nodes' tables.

use crate::resources::Resources;
use bench_types::{Fault, Figures};
use crew::{Crew, Job};
use model::{Exchanging, MemoryTable};
use std::alloc::Global;
use std::sync::Wait;
use std::thread::Threads;

/// The figures of a round, with the tables and the histories that they are of.
#[derive(Drop)]
pub struct Counted<T, K> {
    pub figures: Figures,
    pub tables: Vec<T>,
    pub histories: K,
}

/// The histories of all owners, which a simulation keeps beside its nodes' tables of one representation: what
/// they have written, and what tables need of it. Its calls carry both through the rounds. Where a call answers
/// an error, it is lack of memory (`OutOfMemory`).
pub trait RoundHistories<T: MemoryTable>: Exchanging<T> + Drop {
    ghost use Rattle.std.specs.Prelude.{◌≡◌, ℕ, ◌+◌, ◌<◌, ◌≤◌, length, map, IfOk, OnOk, IsOkUnless};
    ghost use denote.Param.Send.{IsSync};
    ghost use Rattle.bench_types.specs.declared.entries.Entry.{Entry};
    ghost use Rattle.bench_types.specs.declared.faults.Fault.TheVariants.{OutOfMemory};
    ghost use Rattle.limits.specs.declared.TheConstants.{LEAST_KEYS, MOST_NODES, MOST_KEYS, MOST_ROUNDS};
    ghost use Rattle.model.specs.Table.{Table, empty_table, with_own_write, without_others, without_all};
    ghost use Rattle.model.specs.calls.OwnerListView.{list_of_owner, lists_in};
    ghost use Rattle.model.specs.Figures.{figures_of};
    ghost use Rattle.round_histories.specs.Histories.{HistoriesView, round_ended, AreNewHistories, AreWrittenBy, StandsAmong, MayWrite, MayForget, AddsWrite, BeginsGeneration, AreFiguresCounted, StandAtRoundEnd};

    /// What a thread is given that counts a part of the figures.
    type Job: Job + Send;

    // What the owners wrote so far, how many keys each has, and how many rounds were ended.
    ghost kept: { Self → HistoriesView };

    // What is asked of the entry that an owner writes under a number, which counts all its writes from 1.
    ghost may_write: { ℕ → ℕ → Entry → Type 0 };

    /// The histories of so many owners with so many keys each, before the first round, where nothing is written.
    fn new(alloc: Global, nodes: u32, keys: u32) -> Result<Self, Fault>
        requires nodes { nodes ≤ MOST_NODES }
        requires some_key { LEAST_KEYS ≤ keys }
        requires keys { keys ≤ MOST_KEYS }
        ensures begun { IfOk result (λ h. AreNewHistories nodes keys (kept h)) }
        ensures only { IsOkUnless result OutOfMemory };

    /// The empty table of a node.
    fn empty_table(&self, alloc: Global, node: u32) -> Result<T, Fault>
        requires { node < length (kept self.now).lists }
        ensures empty { IfOk result
            (λ t. T.table t ≡ empty_table node (length (kept self.now).lists) (kept self.now).keys) }
        ensures only { IsOkUnless result OutOfMemory };

    /// A node restarts: it drops the entries of all other owners.
    fn restart(table: &mut T)
        ensures { T.table table.new ≡ without_others (T.table table.old) };

    /// A node forgets: it drops all entries, and begins its next generation with nothing.
    fn forget(&mut self, table: &mut T)
        requires may { MayForget (T.table table.old) (kept self.old) }
        ensures table { T.table table.new ≡ without_all (T.table table.old) }
        ensures kept { BeginsGeneration (T.table table.old) (kept self.old) (kept self.new) };

    /// How many writes of its generation an owner has made.
    fn count(&self, owner: u32) -> u32
        requires { owner < length (kept self.now).lists }
        ensures { result ≡ length (list_of_owner (kept self.now).lists owner).current };

    /// A node writes one of its keys in the round that comes next. After an error the round is lost.
    fn write(&mut self, table: &mut T, key: u32, value: u32) -> Result<(), Fault>
        requires may { MayWrite may_write (T.table table.old) (kept self.old) key value }
        ensures table { OnOk result
            (T.table table.new ≡ with_own_write (T.table table.old) key value ((kept self.old).rounds + 1)) }
        ensures kept { OnOk result (AddsWrite (T.table table.old) key value (kept self.old) (kept self.new)) }
        ensures only { IsOkUnless result OutOfMemory };

    /// The writes of the next round are made: the exchanges come next, and tables that stand among the histories fit
    /// them.
    fn end_writes(&mut self) -> Result<(), Fault>
        requires left { (kept self.old).rounds < MOST_ROUNDS }
        requires written { AreWrittenBy ((kept self.old).rounds + 1) (kept self.old).lists }
        ensures kept { OnOk result (kept self.new ≡ round_ended (kept self.old)) }
        ensures fits { OnOk result ((t : Table) → StandsAmong (kept self.new) t → Self.fits self.new t) }
        ensures only { IsOkUnless result OutOfMemory };

    /// The figures at the end of the last round that was ended. The resources bear on the time and memory that this
    /// takes, and on nothing else.
    fn figures<R: Threads + Sync>(
        &self,
        resources: &Resources<R>,
        tables: &[T],
    ) -> Result<Figures, Fault>
        requires sync { IsSync R.row }
        requires ended { StandAtRoundEnd T.table tables.now (kept self.now) }
        ensures figures { IfOk result
            (λ f. f ≡ figures_of (kept self.now).rounds (map T.table tables.now) (lists_in (kept self.now).lists)) }
        ensures only { IsOkUnless result OutOfMemory };

    /// The same figures, counted by a crew, for which it waits, where that has enough to do, or else as by `figures`.
    /// Tables and histories come back; after an error they are given up.
    fn figures_by<R: Threads + Wait + Sync, C: Crew<Self::Job>>(
        self,
        resources: &Resources<R>,
        crew: &C,
        tables: Vec<T>,
    ) -> Result<Counted<T, Self>, Fault>
        requires sync { IsSync R.row }
        requires ended { StandAtRoundEnd T.table tables.items (kept self) }
        ensures counted { IfOk result (AreFiguresCounted T.table kept self tables.items) }
        ensures only { IsOkUnless result OutOfMemory };
}

/// Histories that ask nothing of what owners write.
pub trait TakesAll<T: MemoryTable>: RoundHistories<T> {
    ghost use Rattle.std.specs.Prelude.{ℕ};
    ghost use Rattle.bench_types.specs.declared.entries.Entry.{Entry};

    ghost takes_all: { (owner number : ℕ) (e : Entry) → Self.may_write owner number e };
}
