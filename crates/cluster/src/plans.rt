//! What a run draws round by round: the words of its nodes, and by them the list of a round and what the nodes write.

ghost use Rattle.std.specs.Prelude.{◌≡◌, ◌-◌, ◌≤◌, IfOk, IfSome, IsOkUnless, is_some};
ghost use Rattle.bench_types.specs.declared.faults.Fault.TheVariants.{OutOfMemory};
ghost use Rattle.round_plan.specs.calls.Words.{run_words_of};
ghost use Rattle.cluster.specs.calls.Plans.{AreCountsAfter, AreWritesOfAll, IsPlanOf, IsDrawnAfter};

use bench_types::Fault;
use bench_types::limits::MOST_ROUNDS;
use model::RoundList;
use round_histories::Resources;
use round_plan::{RunWords, Writes, any_restart_now, forgets_now, round_list_by, writes_by};
use scenario::Scenario;
use std::alloc::Global;
use std::thread::Threads;

/// A round of a scenario.
#[derive(Clone, Copy)]
pub struct RoundOf<'a> {
    pub scenario: &'a Scenario,
    pub round: u32,
}

/// The words of a round, whether any node restarts in it, its list, and by node what is written in it, where that is
/// worked out beforehand.
#[derive(Drop)]
pub struct Plan {
    pub words: RunWords,
    pub any_restart: bool,
    pub list: RoundList,
    pub writes: Option<Vec<Writes>>,
}

// What each node writes in a round, where it is told how many writes of its generation each has made before.
fn writes_of(
    alloc: Global,
    of: RoundOf,
    words: &RunWords,
    counts: Option<&[u32]>,
) -> Result<Option<Vec<Writes>>, Fault>
    requires first { 1 ≤ of.round }
    requires last { of.round ≤ MOST_ROUNDS }
    requires words { words.now ≡ run_words_of of.scenario.now of.round }
    requires counts { IfSome counts (λ counts. AreCountsAfter of.scenario.now (of.round - 1) counts.now) }
    ensures writes { IfOk result
        (λ writes. IfSome writes (λ v. AreWritesOfAll of.entry.scenario.now of.entry.round v.items)) }
    ensures told { IfOk result (λ writes. is_some writes ≡ is_some counts.entry) }
    ensures only { IsOkUnless result OutOfMemory }
{
    let Some(before) = counts else {
        return Ok(None);
    };
    let RoundOf { scenario, round } = of;
    let mut writes = Vec::with_capacity(alloc, before.len())?;
    for node in 0..scenario.nodes() {
        let count = if forgets_now(scenario, node, round) {
            0
        } else {
            before[node as usize]
        };
        writes.push_reserved(writes_by(scenario, node, round, count, words.of_node(node)));
    }
    Ok(Some(writes))
}

/// What is drawn once a round is done.
#[derive(Drop)]
pub enum Drawn {
    /// The words of that round.
    Words(RunWords),
    /// The plan of the next one.
    Next(Plan),
}

impl Drawn {
    /// The plan of a round: the one at hand, or else it is made.
    pub(crate) fn plan(
        self,
        resources: &Resources<impl Threads + Sync>,
        of: RoundOf,
    ) -> Result<Plan, Fault>
        requires first { 1 ≤ of.round }
        requires last { of.round ≤ MOST_ROUNDS }
        requires before { IsDrawnAfter of.scenario.now (of.round - 1) self }
        ensures plan { IfOk result (IsPlanOf of.entry.scenario.now of.entry.round) }
        ensures only { IsOkUnless result OutOfMemory }
    {
        match self {
            Drawn::Next(plan) => Ok(plan),
            Drawn::Words(words) => next_plan(words, resources.rt, resources.alloc, of, None),
        }
    }
}

/// The plan of a round, by the words of the round before; with what is written in it where it is told how many writes
/// of its generation each node has made before.
pub fn next_plan(
    mut words: RunWords,
    rt: &(impl Threads + Sync),
    alloc: Global,
    of: RoundOf,
    counts: Option<&[u32]>,
) -> Result<Plan, Fault>
    requires first { 1 ≤ of.round }
    requires last { of.round ≤ MOST_ROUNDS }
    requires words { words ≡ run_words_of of.scenario.now (of.round - 1) }
    requires counts { IfSome counts (λ counts. AreCountsAfter of.scenario.now (of.round - 1) counts.now) }
    ensures plan { IfOk result (IsPlanOf of.entry.scenario.now of.entry.round) }
    ensures told { IfOk result (λ plan. is_some plan.writes ≡ is_some counts.entry) }
    ensures only { IsOkUnless result OutOfMemory }
{
    words.next_round();
    let list = round_list_by(rt, alloc, of.scenario, of.round, &words)?;
    let writes = writes_of(alloc, of, &words, counts)?;
    Ok(Plan {
        words,
        any_restart: any_restart_now(of.scenario, of.round),
        list,
        writes,
    })
}
