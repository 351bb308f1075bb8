//! How a cluster plays a round.

ghost use Rattle.std.specs.Prelude.{◌≡◌, length, IfOk, IsOkUnless};
ghost use Rattle.bench_types.specs.declared.faults.Fault.TheVariants.{OutOfMemory};
ghost use Rattle.round_histories.specs.Histories.{StandAtRoundEnd};
ghost use Rattle.cluster.specs.Rounds.{rules_of};
ghost use Rattle.cluster.specs.calls.Clusters.{IsUnderWay};
ghost use Rattle.cluster.specs.calls.Plans.{IsDrawnAfter, MayDraw};
ghost use Rattle.played_rounds.specs.inner.Playing.{HasEnded};
ghost use Rattle.played_rounds.specs.calls.Playing.{IsPlayed, MayPlay, Plays};

use crate::rounds::Round;
use bench_types::{Fault, Rules};
use cluster::{Begun, Cluster, Drawn, RoundOf, UnderWay, next_plan};
use crew::Crew;
use model::{MemoryTable, RoundList};
use round_histories::{Counted, Resources, RoundHistories};
use scenario::Scenario;
use std::sync::Wait;
use std::thread::Threads;
use workers::{Batch, Done, Gate, Posts};

/// A cluster, the round of its scenario that comes next, and what is told of its exchanges.
#[derive(Drop)]
pub struct NextRound<'a, T, K, G> {
    pub cluster: Cluster<T, K>,
    pub scenario: &'a Scenario,
    pub round: u32,
    pub gate: G,
}

impl<T: MemoryTable + Send + Sync, K: RoundHistories<T>, G: Gate + Sync + Drop> NextRound<
    '_,
    T,
    K,
    G,
> {
    /// The round, by workers at their posts. Where it fails, the tables are given up.
    pub fn play<H: Threads + Wait + Sync>(
        self,
        resources: &Resources<H>,
        posts: &Posts<T, K, G, K::Job>,
    ) -> Result<(Cluster<T, K>, Round), Fault>
        requires { MayPlay T.table K.kept K.may_write self }
        ensures played { IfOk result (λ p. Plays T.table K.kept self.entry p.0 p.1) }
        ensures only { IsOkUnless result OutOfMemory }
    {
        let begun = self.cluster.begin(resources, self.scenario, self.round)?;
        carry_out(resources, posts, begun, self.gate)
    }
}

// The rest of a round that has begun, by workers at their posts. Where it fails, the tables are given up.
fn carry_out<
    T: MemoryTable + Send + Sync,
    K: RoundHistories<T>,
    H: Threads + Wait + Sync,
    G: Gate + Sync + Drop,
>(
    resources: &Resources<H>,
    posts: &Posts<T, K, G, K::Job>,
    under_way: UnderWay<T, K>,
    gate: G,
) -> Result<(Cluster<T, K>, Round), Fault>
    requires { IsUnderWay T.table K.kept K.fits under_way.scenario.now under_way.round under_way }
    ensures played { IfOk result
        (λ p. IsPlayed T.table K.kept under_way.entry.scenario.now under_way.entry.round p.0 p.1) }
    ensures only { IsOkUnless result OutOfMemory }
{
    let rt = resources.rt;
    let alloc = resources.alloc;
    let scenario = under_way.scenario;
    let round = under_way.round;
    let Begun {
        list,
        words,
        counts,
    } = under_way.begun;
    let rules = rules_of(scenario);
    let batch = Batch {
        shared: under_way.histories,
        list: &list,
        rules: &rules,
        gate,
    };
    let draw = move || -> Result<Drawn, Fault>
        requires { MayDraw scenario.now round words counts }
        ensures drawn { IfOk result (IsDrawnAfter scenario.entry.now round) }
        ensures only { IsOkUnless result OutOfMemory }
    {
        let Some(counts) = counts else {
            return Ok(Drawn::Words(words));
        };
        let next = RoundOf {
            scenario,
            round: round + 1,
        };
        Ok(Drawn::Next(next_plan(words, rt, alloc, next, Some(&counts))?))
    };
    let done = posts.carry_out(rt, batch, under_way.tables, draw)?;
    end_round(resources, posts, round, list, done)
}

// A round whose exchanges are carried out ends: its figures are counted.
fn end_round<T: MemoryTable, K: RoundHistories<T>, H: Threads + Wait + Sync, C: Crew<K::Job>>(
    resources: &Resources<H>,
    crew: &C,
    round: u32,
    list: RoundList,
    done: Done<T, K, Result<Drawn, Fault>>,
) -> Result<(Cluster<T, K>, Round), Fault>
    requires standing { StandAtRoundEnd T.table done.tables.items (K.kept done.shared) }
    requires recorded { length done.records.items ≡ length list.exchanges }
    requires made { IsOkUnless done.made OutOfMemory }
    ensures ended { IfOk result (λ p. HasEnded T.table K.kept round list done.tables.items done.records.items
        done.shared done.made p.0 p.1) }
    ensures only { IsOkUnless result OutOfMemory }
{
    let Done {
        tables,
        records,
        shared: histories,
        made,
    } = done;
    let drawn = made?;
    let counted = match histories.figures_by(resources, crew, tables) {
        Ok(counted) => counted,
        Err(fault) => {
            drop(drawn);
            return Err(fault);
        }
    };
    let Counted {
        figures,
        tables,
        histories,
    } = counted;
    let played = Round::of(round, list, records, figures);
    Ok((
        Cluster {
            tables,
            histories,
            drawn,
        },
        played,
    ))
}

// The rules of all exchanges of the scenario's run.
fn rules_of(scenario: &Scenario) -> Rules
    ensures { result ≡ rules_of scenario.now }
{
    Rules {
        mode: scenario.mode(),
        budget: scenario.budget(),
    }
}
