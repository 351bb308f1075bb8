//! How a scenario is carried out by how large it is: by how many workers, and in numbers of how many bits.

ghost use Rattle.std.specs.Prelude.{◌≡◌, ◌+◌, ◌*◌, ◌≤◌};
ghost use Rattle.limits.specs.declared.TheConstants.{MOST_ROUNDS, MOST_WRITES};
ghost use Rattle.model.specs.Runs.{AreWorkers};
ghost use Rattle.runs.specs.inner.Rounds.{AnswersRounds, workers_worth};
ghost use Rattle.runs.specs.inner.Writes.{AreWrittenIn, HasWritesBelow};

use crate::rounds::{RoundWriter, write_over};
use bench_types::Fault;
use round_histories::{Hands, Resources};
use round_plan::writes_in;
use scenario::Scenario;
use std::sync::Wait;
use std::thread::Threads;
use version_tables::{Histories, SharedNumber, Short, VersionTable, Written};

// So few numbers in all tables are gone over by one thread: to hand out their exchanges takes longer than it saves.
const FEW_NUMBERS: u64 = 524_288;

// How many of the workers that are asked for are worth their threads.
fn workers_worth(scenario: &Scenario, asked: u32) -> u32
    requires asked { AreWorkers asked }
    ensures worth { result ≡ workers_worth scenario.now FEW_NUMBERS asked }
    ensures lawful { AreWorkers result }
    ensures within { result ≤ asked }
{
    let nodes = u64::from(scenario.nodes());
    if nodes * nodes * u64::from(scenario.keys()) < FEW_NUMBERS {
        1
    } else {
        asked
    }
}

// How many writes a node makes that is up in all rounds. Costs a step for each round and load.
fn most_in_a_run(scenario: &Scenario) -> u32
    ensures below { HasWritesBelow (result + 1) scenario.now }
    ensures within { result ≤ MOST_WRITES * MOST_ROUNDS }
{
    let mut most = 0;
    for done in 0..scenario.rounds() {
        most += writes_in(scenario, done + 1);
    }
    most
}

/// Carries out each round of a scenario, and writes it. The scenario comes back.
pub(crate) fn write_rounds<L: Written + Send + Sync, H: Threads + Wait + Sync, O: RoundWriter>(
    resources: &Resources<H>,
    scenario: Scenario,
    output: &mut O,
) -> Result<Scenario, Fault>
    requires { AreWrittenIn L.lists scenario }
    ensures { AnswersRounds O.wrote O.stops scenario output.old output.new resources.now.hands.workers result }
{
    let Resources { rt, alloc, hands } = *resources;
    let resources = Resources {
        rt,
        alloc,
        hands: Hands {
            workers: workers_worth(&scenario, hands.workers),
            processors: hands.processors,
        },
    };
    write_in_few_bits::<L, H, O>(&resources, scenario, output)
}

// The rounds over tables that keep versions alone, in numbers of 8 bits, of 16 or of 32: as few as are enough.
fn write_in_few_bits<L: Written + Send + Sync, H: Threads + Wait + Sync, O: RoundWriter>(
    resources: &Resources<H>,
    scenario: Scenario,
    output: &mut O,
) -> Result<Scenario, Fault>
    requires { AreWrittenIn L.lists scenario }
    ensures { AnswersRounds O.wrote O.stops scenario output.old output.new resources.now.hands.workers result }
{
    let most = most_in_a_run(&scenario);
    if most < u8::MAX as u32 {
        write_in::<u8, L, H, O>(resources, scenario, output)
    } else if most < i16::MAX as u32 {
        write_in::<Short, L, H, O>(resources, scenario, output)
    } else {
        write_in::<u32, L, H, O>(resources, scenario, output)
    }
}

// The rounds over tables of numbers that are enough for all writes.
fn write_in<
    N: SharedNumber + Send + Sync,
    L: Written + Send + Sync,
    H: Threads + Wait + Sync,
    O: RoundWriter,
>(resources: &Resources<H>, scenario: Scenario, output: &mut O) -> Result<Scenario, Fault>
    requires are { AreWrittenIn L.lists scenario }
    requires enough { HasWritesBelow N.most scenario }
    ensures { AnswersRounds O.wrote O.stops scenario output.old output.new resources.now.hands.workers result }
{
    write_over::<VersionTable<N, L>, Histories<N, L>, H, O>(resources, scenario, output)
}
