//! A simulation, round by round.

ghost use Rattle.std.specs.Prelude.{◌≡◌, ◌+◌, ◌<◌, ◌≤◌, true, false, [], map, Some, IfOk, IfErr, IsOkUnless};
ghost use Rattle.bench_types.specs.declared.faults.Fault.TheVariants.{OutOfMemory};
ghost use Rattle.model.specs.Runs.{AreWorkers};
ghost use Rattle.cluster.specs.Rounds.{opening_tables};
ghost use Rattle.cluster.specs.calls.Standing.{MayWriteAll};
ghost use Rattle.cluster.specs.calls.Clusters.{IsAfterRound};
ghost use Rattle.simulation.specs.inner.Stepping.{HasTakenOut, IsPutBack};
ghost use Rattle.simulation.specs.calls.Simulation.{AreTablesAfter, PlaysNext, IsRefusedBy, IsStepFault};

use crate::apart::play_apart;
use bench_types::Fault;
use cluster::Cluster;
use model::MemoryTable;
use played_rounds::{NextRound, Round, processors_of};
use round_histories::{Hands, Resources, RoundHistories, TakesAll};
use scenario::Scenario;
use std::alloc::Global;
use std::marker::Model;
use std::num::NonZeroUsize;
use std::sync::Wait;
use std::thread::Threads;
use workers::{Gate, Posts};

/// A simulation of a scenario, with tables of one representation or another. A fault within a round breaks
/// it: its tables are then given up.
#[derive(Drop)]
pub struct Sim<T: MemoryTable, K: RoundHistories<T>> {
    alloc: Global,
    scenario: Scenario,
    cluster: Option<Cluster<T, K>>,
    rounds_done: u32,
    // Once a round has asked for them.
    processors: Option<NonZeroUsize>,
}

impl<T: MemoryTable, K: RoundHistories<T>> Model for Sim<T, K> {
    ghost use Rattle.simulation.specs.calls.Simulation.{SimView};
    ghost use Rattle.simulation.specs.inner.Insides.{IsInside, simulation_of, simulation_code};

    ghost Value = { SimView T };

    ghost coded = { simulation_code T.code };

    ghost view = { λ s. simulation_of K.kept s.scenario s.cluster s.rounds_done };

    ghost invariant = { λ s. IsInside T.table K.kept K.may_write s.scenario s.cluster s.rounds_done };
}

impl<T: MemoryTable + Send + Sync, K: TakesAll<T>> Sim<T, K> {
    /// The simulation before its first round, where all tables are empty. It takes memory for the
    /// nodes, and hands the scenario back where that is refused (`OutOfMemory`).
    pub fn new(alloc: Global, scenario: Scenario) -> Result<Sim<T, K>, (Fault, Scenario)>
        ensures opens { IfOk result
            (λ sim. (sim.settings ≡ scenario) × (sim.rounds_done ≡ 0) × (sim.broken ≡ false)) }
        ensures empty { IfOk result (λ sim. map T.table sim.tables ≡ opening_tables scenario) }
        ensures hands_back { IfErr result (λ e. (e.0 ≡ OutOfMemory) × (e.1 ≡ scenario)) }
    {
        Sim::of(alloc, scenario)
    }
}

impl<T: MemoryTable + Send + Sync, K: RoundHistories<T>> Sim<T, K> {
    /// The simulation before its first round, as `new` makes it, with histories that may ask something of what
    /// is written in the run.
    pub fn of(alloc: Global, scenario: Scenario) -> Result<Sim<T, K>, (Fault, Scenario)>
        requires { MayWriteAll K.may_write scenario }
        ensures opens { IfOk result
            (λ sim. (sim.settings ≡ scenario) × (sim.rounds_done ≡ 0) × (sim.broken ≡ false)) }
        ensures empty { IfOk result (λ sim. map T.table sim.tables ≡ opening_tables scenario) }
        ensures hands_back { IfErr result (λ e. (e.0 ≡ OutOfMemory) × (e.1 ≡ scenario)) }
    {
        let cluster = Cluster::new(alloc, &scenario);
        Sim::opened(alloc, scenario, cluster)
    }

    /// The same, with tables that several threads make, where there are several workers and much to make: no more
    /// threads than workers, often fewer. This thread makes a part itself, and more where one can't be started.
    pub fn of_by<H: Threads + Sync>(
        rt: &H,
        alloc: Global,
        workers: u32,
        scenario: Scenario,
    ) -> Result<Sim<T, K>, (Fault, Scenario)>
        requires workers { AreWorkers workers }
        requires may_write { MayWriteAll K.may_write scenario }
        ensures opens { IfOk result
            (λ sim. (sim.settings ≡ scenario) × (sim.rounds_done ≡ 0) × (sim.broken ≡ false)) }
        ensures empty { IfOk result (λ sim. map T.table sim.tables ≡ opening_tables scenario) }
        ensures hands_back { IfErr result (λ e. (e.0 ≡ OutOfMemory) × (e.1 ≡ scenario)) }
    {
        let cluster = Cluster::new_by(rt, alloc, &scenario, workers);
        Sim::opened(alloc, scenario, cluster)
    }

    fn opened(
        alloc: Global,
        scenario: Scenario,
        cluster: Result<Cluster<T, K>, Fault>,
    ) -> Result<Sim<T, K>, (Fault, Scenario)>
        requires may_write { MayWriteAll K.may_write scenario }
        requires opens { IfOk cluster (IsAfterRound T.table K.kept scenario 0) }
        requires only { IsOkUnless cluster OutOfMemory }
        ensures opens { IfOk result
            (λ sim. (sim.settings ≡ scenario) × (sim.rounds_done ≡ 0) × (sim.broken ≡ false)) }
        ensures empty { IfOk result (λ sim. map T.table sim.tables ≡ opening_tables scenario) }
        ensures hands_back { IfErr result (λ e. (e.0 ≡ OutOfMemory) × (e.1 ≡ scenario)) }
    {
        match cluster {
            Ok(cluster) => Ok(Sim {
                alloc,
                scenario,
                cluster: Some(cluster),
                rounds_done: 0,
                processors: None,
            }),
            Err(fault) => Err((fault, scenario)),
        }
    }

    /// As `step`, by workers that were started before. No thread is started for the exchanges. With several workers it
    /// is to be called within `Posts::with_threads`, and else never ends.
    pub fn step_by<H: Threads + Wait + Sync, G: Gate + Sync + Drop>(
        &mut self,
        rt: &H,
        posts: &Posts<T, K, G, K::Job>,
        gate: G,
    ) -> Result<Round, Fault>
        ensures played { IfOk result (PlaysNext T.table self.old self.new) }
        ensures fails { IfErr result (IsStepFault posts.now self.old self.new) }
    {
        let cluster = self.take_out()?;
        let resources = self.resources(rt, posts.workers());
        let next = NextRound {
            cluster,
            scenario: &self.scenario,
            round: self.rounds_done + 1,
            gate,
        };
        let played = next.play(&resources, posts);
        self.put_back(played)
    }

    // The cluster, if a round is left. Until it is put back the simulation is broken.
    fn take_out(&mut self) -> Result<Cluster<T, K>, Fault>
        ensures taken { IfOk result (HasTakenOut T.table K.kept K.may_write self.old self.new) }
        ensures refused { IfErr result (λ fault. IsRefusedBy self.old fault × (self.new ≡ self.old)) }
    {
        if self.is_broken() {
            return Err(Fault::Broken);
        }
        if self.rounds_done == self.scenario.rounds() {
            return Err(Fault::Finished);
        }
        self.cluster.take().ok_or(Fault::Broken)
    }

    // What a round is carried out with.
    fn resources<'r, H: Threads>(&mut self, rt: &'r H, workers: u32) -> Resources<'r, H>
        requires { AreWorkers workers }
        ensures same { self.new ≡ self.old }
        ensures workers { result.hands.workers ≡ workers }
    {
        let processors = match self.processors {
            Some(processors) => processors,
            None => processors_of(rt),
        };
        self.processors = Some(processors);
        Resources {
            rt,
            alloc: self.alloc,
            hands: Hands {
                workers,
                processors,
            },
        }
    }

    // The cluster after one more round, unless that failed.
    fn put_back(&mut self, played: Result<(Cluster<T, K>, Round), Fault>) -> Result<Round, Fault>
        requires left { self.old.rounds_done < self.old.settings.rounds }
        requires after { IfOk played
            (λ p. IsAfterRound T.table K.kept self.old.settings (self.old.rounds_done + 1) p.0) }
        ensures { IsPutBack K.kept self.old self.new played result }
    {
        match played {
            Ok((cluster, round)) => {
                self.cluster = Some(cluster);
                self.rounds_done += 1;
                Ok(round)
            }
            Err(fault) => Err(fault),
        }
    }

    /// The nodes' tables, in order; none where the simulation is broken.
    pub fn tables(&self) -> &[T]
        ensures value { result.now ≡ self.now.tables }
        ensures after { AreTablesAfter T.table self.now result.now }
        ensures none { self.now.broken ≡ true → result.now ≡ [] }
    {
        match &self.cluster {
            Some(cluster) => &cluster.tables,
            None => &[],
        }
    }

    /// How many rounds were carried out.
    pub fn rounds_done(&self) -> u32
        ensures value { result ≡ self.now.rounds_done }
        ensures within { result ≤ self.now.settings.rounds }
    {
        self.rounds_done
    }

    /// Whether a round has failed.
    pub fn is_broken(&self) -> bool
        ensures { result ≡ self.now.broken }
    {
        self.cluster.is_none()
    }

    /// The scenario that `new` was given.
    pub fn into_scenario(self) -> Scenario
        ensures { result ≡ self.settings }
    {
        let Sim {
            alloc: _,
            scenario,
            cluster,
            rounds_done: _,
            processors: _,
        } = self;
        drop(cluster);
        scenario
    }

    /// How many rounds there are in all.
    pub fn rounds(&self) -> u32
        ensures value { result ≡ self.now.settings.rounds }
        ensures some { 1 ≤ result }
    {
        self.scenario.rounds()
    }
}

impl<T: MemoryTable + Send + Sync, K: RoundHistories<T> + Send> Sim<T, K> {
    /// Carries out the next round: the restarts, the writes by node, the exchanges of the round's list,
    /// the figures. It comes to the same for every number of workers and every gate.
    ///
    /// With one worker the exchanges are done in list order and no thread is started for them. With more,
    /// each is a thread that lives for the round; they count the figures too. The gate is told of each exchange.
    ///
    /// It answers `Broken` where an earlier round failed and `Finished` where all rounds are done, and then
    /// changes nothing. Any other fault breaks the simulation: `OutOfMemory`, or `NoThread` where a worker
    /// couldn't be started.
    pub fn step<H: Threads + Wait + Sync, G: Gate + Sync>(
        &mut self,
        rt: &H,
        workers: u32,
        gate: &G,
    ) -> Result<Round, Fault>
        requires workers { AreWorkers workers }
        ensures played { IfOk result (PlaysNext T.table self.old self.new) }
        ensures fails { IfErr result (IsStepFault workers self.old self.new) }
    {
        let cluster = self.take_out()?;
        let resources = self.resources(rt, workers);
        let next = NextRound {
            cluster,
            scenario: &self.scenario,
            round: self.rounds_done + 1,
            gate,
        };
        let played = play_apart(next, &resources);
        self.put_back(played)
    }
}
