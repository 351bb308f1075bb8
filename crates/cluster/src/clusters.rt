//! All nodes' tables and the histories of their owners.

ghost use Rattle.std.specs.Prelude.{◌≡◌, ◌≤◌, map, IfOk, IsOkUnless};
ghost use Rattle.bench_types.specs.declared.faults.Fault.TheVariants.{OutOfMemory};
ghost use Rattle.model.specs.Tables.{AreProper};
ghost use Rattle.round_histories.specs.Histories.{AreNewHistories};
ghost use Rattle.cluster.specs.Rounds.{opening_tables};
ghost use Rattle.cluster.specs.calls.Clusters.{IsAfterRound, IsBefore, IsUnderWay};

use crate::plans::{Drawn, Plan, RoundOf};
use crate::starts::{Begun, Start, begin_nodes};
use bench_types::Fault;
use model::MemoryTable;
use round_histories::{Resources, RoundHistories, Shares, empty_tables, empty_tables_by};
use round_plan::RunWords;
use scenario::Scenario;
use std::alloc::Global;
use std::thread::Threads;

/// What all nodes hold, what each has written, and what is drawn of the rounds.
#[derive(Drop)]
pub struct Cluster<T, K> {
    pub tables: Vec<T>,
    pub histories: K,
    pub drawn: Drawn,
}

impl<T: MemoryTable + Send + Sync, K: RoundHistories<T>> Cluster<T, K> {
    /// The cluster before its first round, where all tables are empty.
    pub fn new(alloc: Global, scenario: &Scenario) -> Result<Cluster<T, K>, Fault>
        ensures opens { IfOk result (IsAfterRound T.table K.kept scenario.now 0) }
        ensures only { IsOkUnless result OutOfMemory }
    {
        let histories = histories_of(alloc, scenario)?;
        let tables = empty_tables(alloc, &histories, 0..scenario.nodes());
        Cluster::opened(alloc, scenario, tables, histories)
    }

    /// The same, with tables that so many workers make.
    pub fn new_by(
        rt: &(impl Threads + Sync),
        alloc: Global,
        scenario: &Scenario,
        workers: u32,
    ) -> Result<Cluster<T, K>, Fault>
        requires { 1 ≤ workers }
        ensures opens { IfOk result (IsAfterRound T.table K.kept scenario.now 0) }
        ensures only { IsOkUnless result OutOfMemory }
    {
        let histories = histories_of(alloc, scenario)?;
        let shares = Shares::of(scenario.nodes(), scenario.keys(), workers);
        let tables = empty_tables_by(rt, alloc, &histories, shares);
        Cluster::opened(alloc, scenario, tables, histories)
    }

    fn opened(
        alloc: Global,
        scenario: &Scenario,
        tables: Result<Vec<T>, Fault>,
        histories: K,
    ) -> Result<Cluster<T, K>, Fault>
        requires begun { AreNewHistories scenario.now.nodes scenario.now.keys (K.kept histories) }
        requires tables { IfOk tables (λ tables. map T.table tables.items ≡ opening_tables scenario.now) }
        requires only_tables { IsOkUnless tables OutOfMemory }
        requires proper { AreProper (opening_tables scenario.now) }
        ensures opens { IfOk result (IsAfterRound T.table K.kept scenario.now 0) }
        ensures only { IsOkUnless result OutOfMemory }
    {
        Ok(Cluster {
            tables: tables?,
            histories,
            drawn: Drawn::Words(RunWords::new(alloc, scenario)?),
        })
    }
}

impl<T: MemoryTable, K: RoundHistories<T>> Cluster<T, K> {
    /// Lets all go: what a drop does, which each crate above would prove once more.
    pub fn end(self) {}

    /// A round begins: its restarts and its writes are made. Where that fails, the tables are given up.
    pub fn begin<'a>(
        self,
        resources: &Resources<impl Threads + Sync>,
        scenario: &'a Scenario,
        round: u32,
    ) -> Result<UnderWay<'a, T, K>, Fault>
        requires { IsBefore T.table K.kept K.may_write scenario.now round self }
        ensures begun { IfOk result (IsUnderWay T.table K.kept K.fits scenario.now round) }
        ensures only { IsOkUnless result OutOfMemory }
    {
        let mut cluster = self;
        let plan = cluster.drawn.plan(resources, RoundOf { scenario, round })?;
        let start = Start {
            scenario,
            round,
            plan: &plan,
        };
        let begun = begin_nodes(
            resources,
            &start,
            &mut cluster.tables,
            &mut cluster.histories,
        );
        let counts = match begun {
            Ok(counts) => counts,
            Err(fault) => {
                drop(plan);
                return Err(fault);
            }
        };
        let Plan {
            words,
            list,
            writes,
            ..
        } = plan;
        drop(writes);
        Ok(UnderWay {
            scenario,
            round,
            tables: cluster.tables,
            histories: cluster.histories,
            begun: Begun {
                list,
                words,
                counts,
            },
        })
    }
}

/// A round that has begun: its exchanges come next.
#[derive(Drop)]
pub struct UnderWay<'a, T, K> {
    pub scenario: &'a Scenario,
    pub round: u32,
    pub tables: Vec<T>,
    pub histories: K,
    pub begun: Begun,
}

// The histories of a scenario's owners.
fn histories_of<T: MemoryTable, K: RoundHistories<T>>(
    alloc: Global,
    scenario: &Scenario,
) -> Result<K, Fault>
    ensures begun { IfOk result (λ h. AreNewHistories scenario.now.nodes scenario.now.keys (K.kept h)) }
    ensures proper { AreProper (opening_tables scenario.now) }
    ensures only { IsOkUnless result OutOfMemory }
{
    K::new(alloc, scenario.nodes(), scenario.keys())
}
