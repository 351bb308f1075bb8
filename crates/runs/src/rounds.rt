//! All rounds of a scenario, each carried out and then written.

ghost use Rattle.std.specs.Prelude.{◌≡◌, OnOk, IfOk, IfErr};
ghost use Rattle.cluster.specs.calls.Standing.{MayWriteAll};
ghost use Rattle.played_rounds.specs.calls.Playing.{MayPlay};
ghost use Rattle.runs.specs.inner.Rounds.{AnswersRounds, AreWrittenInTurn, IsFaultInTurn, StopsNext, WritesNext};

use bench_types::Fault;
use cluster::Cluster;
use model::MemoryTable;
use played_rounds::{NextRound, Round};
use round_histories::{Hands, Resources, RoundHistories};
use scenario::Scenario;
use std::sync::Wait;
use std::thread::Threads;
use workers::{FreeGate, Posts};

/// What the rounds of a scenario are written to, one after another.
pub(crate) trait RoundWriter {
    ghost use Rattle.std.specs.Prelude.{OnOk, IfErr};
    ghost use Rattle.bench_types.specs.declared.faults.Fault.{Fault};
    ghost use Rattle.played_rounds.specs.calls.RoundView.{RoundView};

    // What the writer is once a round was written, and where writing it came to a fault.
    ghost wrote: { Self → Self → RoundView → Type 0 };

    ghost stops: { Self → Self → RoundView → Fault → Type 0 };

    /// Writes a round that was carried out.
    fn write(&mut self, round: &Round) -> Result<(), Fault>
        ensures written { OnOk result (wrote self.old self.new round.now) }
        ensures fault { IfErr result (stops self.old self.new round.now) };
}

/// Carries out each round of a scenario over tables and histories of one kind, and writes it. The scenario comes back.
/// The threads of the workers live for all rounds. They are started before the tables are made, so that a scenario is
/// lent to them and no cluster.
pub(crate) fn write_over<
    'b,
    T: MemoryTable + Send + Sync,
    K: RoundHistories<T> + Send,
    H: Threads + Wait + Sync,
    O: RoundWriter,
>(resources: &Resources<H>, scenario: Scenario, output: &'b mut O) -> Result<Scenario, Fault>
    requires may_write { MayWriteAll K.may_write scenario }
    ensures { AnswersRounds O.wrote O.stops scenario output.old output.new resources.now.hands.workers result }
{
    // (there is a first round, for which memory or a thread may be lacking)
    let _rounds = scenario.rounds();
    let Resources { rt, alloc, hands } = *resources;
    let processors = hands.processors;
    let posts: Posts<T, K, FreeGate, K::Job> = Posts::new(alloc, hands.workers)?;
    let by = &posts;
    let lent = Beside {
        held: scenario,
        output,
    };
    let done = posts.with_threads(
        rt,
        lent,
        move |lent|
            requires { MayWriteAll K.may_write lent.held }
            ensures name { result.output.ghost_name ≡ lent.entry.output.ghost_name }
            ensures answers { AnswersRounds O.wrote O.stops lent.entry.held lent.entry.output.now
                result.output.now by.entry.now result.held }
        {
            let Beside {
                held: scenario,
                output,
            } = lent;
            let resources = Resources {
                rt,
                alloc,
                hands: Hands {
                    workers: by.workers(),
                    processors,
                },
            };
            let held = write_by(&resources, by, scenario, output);
            Beside { held, output }
        },
    );
    drop(posts);
    match done {
        Ok(
            Beside {
                held: answer,
                output,
            },
        ) => {
            take_back(output);
            answer
        }
        Err(
            Beside {
                held: _scenario,
                output,
            },
        ) => {
            take_back(output);
            Err(Fault::NoThread)
        }
    }
}

// A scenario, or what came of it, and what its rounds are written to.
#[derive(Drop)]
struct Beside<'a, S, O> {
    held: S,
    output: &'a mut O,
}

// Does nothing, but this use of a reference that came back ties it to the parameter that lent it.
fn take_back<O>(output: &mut O)
    ensures { output.new ≡ output.old }
{}

// All rounds by workers that wait at posts.
fn write_by<
    T: MemoryTable + Send + Sync,
    K: RoundHistories<T>,
    H: Threads + Wait + Sync,
    O: RoundWriter,
>(
    resources: &Resources<H>,
    posts: &Posts<T, K, FreeGate, K::Job>,
    scenario: Scenario,
    output: &mut O,
) -> Result<Scenario, Fault>
    requires may_write { MayWriteAll K.may_write scenario }
    ensures { AnswersRounds O.wrote O.stops scenario output.old output.new posts.now result }
{
    write_all(resources, posts, &scenario, output)?;
    Ok(scenario)
}

// The tables are opened, and each round is carried out and written.
fn write_all<
    T: MemoryTable + Send + Sync,
    K: RoundHistories<T>,
    H: Threads + Wait + Sync,
    O: RoundWriter,
>(
    resources: &Resources<H>,
    posts: &Posts<T, K, FreeGate, K::Job>,
    scenario: &Scenario,
    output: &mut O,
) -> Result<(), Fault>
    requires { MayWriteAll K.may_write scenario.now }
    ensures written { OnOk result (AreWrittenInTurn O.wrote scenario.now output.old output.new scenario.now.rounds) }
    ensures fault { IfErr result (IsFaultInTurn O.wrote O.stops scenario.now output.old output.new posts.now) }
{
    // (there is a first round, for which memory may be lacking)
    let _rounds = scenario.rounds();
    let Resources { rt, alloc, hands } = *resources;
    let mut cluster = Cluster::new_by(rt, alloc, scenario, hands.workers)?;
    for done in 0..scenario.rounds() {
        let next = NextRound {
            cluster,
            scenario,
            round: done + 1,
            gate: FreeGate,
        };
        cluster = write_next(resources, posts, next, output)?;
    }
    cluster.end();
    Ok(())
}

// Plays the next round, and writes it.
fn write_next<
    T: MemoryTable + Send + Sync,
    K: RoundHistories<T>,
    H: Threads + Wait + Sync,
    O: RoundWriter,
>(
    resources: &Resources<H>,
    posts: &Posts<T, K, FreeGate, K::Job>,
    next: NextRound<T, K, FreeGate>,
    output: &mut O,
) -> Result<Cluster<T, K>, Fault>
    requires { MayPlay T.table K.kept K.may_write next }
    ensures written { IfOk result (WritesNext T.table K.kept O.wrote next.entry output.old output.new) }
    ensures fault { IfErr result (StopsNext O.stops next.entry output.old output.new) }
{
    let (cluster, round) = next.play(resources, posts)?;
    match output.write(&round) {
        Ok(()) => Ok(cluster),
        Err(fault) => {
            // (by a call of its own crate, so that letting a cluster go isn't proved here once more)
            cluster.end();
            Err(fault)
        }
    }
}
