//! How far a schedule of a list has come.

ghost use Rattle.std.specs.Prelude.{◌≡◌, ◌<◌, ◌↔◌, ℕ, None, true, length, replicate, slice_get, count_by, IfOk, IfErr, OnOk, OnErr, IfSome, IsTrue, IsOkUnless};
ghost use Rattle.bench_types.specs.declared.faults.Fault.TheVariants.{OutOfMemory, NotAllowed, NotRunning};
ghost use Rattle.planner.specs.Stages.{not_started, runs, is_over};
ghost use Rattle.planner.specs.inner.Stages.{none_or_over};
ghost use Rattle.planner.specs.Stages.{IsSchedule, CanStart, IsFree, IsNextReady, IsRunning, IsFinished, Starts, Finishes, HasSchedule};

use bench_types::Fault;
use dependencies::Deps;
use std::alloc::Global;
use std::marker::Model;

/// How far an exchange is.
#[derive(Clone, Copy, Debug, PartialEq, Eq)]
pub enum Stage {
    Waiting,
    Running,
    Done,
}

/// A list of exchanges, and how far each of them is.
#[derive(Debug, Drop)]
pub struct Schedule {
    deps: Deps,
    stages: Vec<Stage>,
}

impl Model for Schedule {
    ghost use Rattle.planner.specs.Stages.{ScheduleView, IsSchedule, standing_of};

    ghost Value = { ScheduleView };

    ghost view = { λ s. standing_of s.deps s.stages.items };

    ghost invariant = { λ s. IsSchedule (standing_of s.deps s.stages.items) };
}

impl Schedule {
    /// A schedule of which nothing is started. Where memory runs out (`OutOfMemory`) the dependencies come back.
    /// Costs a step for each exchange of the list.
    pub fn new(alloc: Global, deps: Deps) -> Result<Schedule, (Fault, Deps)>
        ensures opens { IfOk result (λ s. s ≡ not_started deps) }
        ensures hands_back { IfErr result (λ e. (e.0 ≡ OutOfMemory) × (e.1 ≡ deps)) }
    {
        match all_waiting(alloc, deps.len()) {
            Ok(stages) => Ok(Schedule { deps, stages }),
            Err(fault) => Err((fault, deps)),
        }
    }

    /// Starts an exchange. Refused (`NotAllowed`) where it isn't in the list, has been started, or an earlier
    /// exchange that shares a node with it isn't finished.
    pub fn start(&mut self, i: u32) -> Result<(), Fault>
        ensures ok { OnOk result (Starts i self.old self.new) }
        ensures err { OnErr result (¬ (CanStart self.old i) × (self.new ≡ self.old)) }
        ensures only { IsOkUnless result NotAllowed }
    {
        if !self.may_start(i) {
            return Err(Fault::NotAllowed);
        }
        self.stages[i as usize] = Stage::Running;
        Ok(())
    }

    /// Finishes an exchange. Refused (`NotRunning`) where it isn't running.
    pub fn finish(&mut self, i: u32) -> Result<(), Fault>
        ensures ok { OnOk result (Finishes i self.old self.new) }
        ensures err { OnErr result (¬ (IsRunning self.old i) × (self.new ≡ self.old)) }
        ensures only { IsOkUnless result NotRunning }
    {
        if !self.is_running(i) {
            return Err(Fault::NotRunning);
        }
        self.stages[i as usize] = Stage::Done;
        Ok(())
    }

    /// Whether an exchange may start now. A place past the end may not.
    pub fn may_start(&self, i: u32) -> bool
        ensures can_start { IsTrue result ↔ CanStart self.now i }
        ensures lawful { HasSchedule self.now }
        ensures kept { IsSchedule self.now }
    {
        self.at(i) == Some(Stage::Waiting) && self.is_free(i)
    }

    pub fn is_running(&self, i: u32) -> bool
        ensures running { IsTrue result ↔ IsRunning self.now i }
        ensures lawful { HasSchedule self.now }
        ensures kept { IsSchedule self.now }
    {
        self.at(i) == Some(Stage::Running)
    }

    pub fn is_done(&self, i: u32) -> bool
        ensures done { IsTrue result ↔ IsFinished self.now i }
        ensures lawful { HasSchedule self.now }
        ensures kept { IsSchedule self.now }
    {
        self.at(i) == Some(Stage::Done)
    }

    /// How many exchanges are running. Costs a step for each exchange of the list.
    pub fn running_count(&self) -> u32
        ensures count { result ≡ count_by runs self.now.stages }
        ensures lawful { HasSchedule self.now }
    {
        self.stages
            .iter()
            .filter(|stage| **stage == Stage::Running)
            .count() as u32
    }

    /// How many exchanges are finished. Costs a step for each exchange of the list.
    pub fn done_count(&self) -> u32
        ensures count { result ≡ count_by is_over self.now.stages }
        ensures lawful { HasSchedule self.now }
    {
        self.stages
            .iter()
            .filter(|stage| **stage == Stage::Done)
            .count() as u32
    }

    /// The first exchange that may start now. Looks at each exchange up to it, and at the two at most
    /// that each of them waits for.
    pub fn next_ready(&self) -> Option<u32>
        ensures some { IfSome result (IsNextReady self.now) }
        ensures none { result ≡ None → (j : ℕ) → ¬ (CanStart self.now j) }
    {
        for i in 0..self.deps.len() {
            if self.may_start(i) {
                return Some(i);
            }
        }
        None
    }

    fn at(&self, i: u32) -> Option<Stage>
        ensures value { result ≡ slice_get self.now.stages i }
        ensures kept { IsSchedule self.now }
    {
        self.stages.get(i as usize).copied()
    }

    // Whether no exchange that it waits for is unfinished.
    fn is_free(&self, i: u32) -> bool
        requires within { i < length self.now.plan.exchanges }
        ensures { IsTrue result ↔ IsFree self.now i }
    {
        let before = self.deps.before(i);
        self.is_over(before.first) && self.is_over(before.second)
    }

    fn is_over(&self, i: Option<u32>) -> bool
        ensures { result ≡ none_or_over self.now.stages i }
    {
        match i {
            Some(i) => self.is_done(i),
            None => true,
        }
    }
}

fn all_waiting(alloc: Global, count: u32) -> Result<Vec<Stage>, Fault>
    ensures waiting { IfOk result (λ v. v.items ≡ replicate count Stage.Waiting) }
    ensures only { IsOkUnless result OutOfMemory }
{
    let mut stages = Vec::with_capacity(alloc, count as usize)?;
    for _ in 0..count {
        stages.push(Stage::Waiting)?;
    }
    Ok(stages)
}
