//! The modes beside each other, from bytes to bytes.

ghost use Rattle.std.specs.Prelude.{OnOk, IfErr};
ghost use Rattle.bench_types.specs.Output.{IsWritten};
ghost use Rattle.runs.specs.Runs.{TellsOfFailing, ComesOnceAccepted};
ghost use Rattle.runs.specs.Comparisons.{comparison_text, IsComparingFault, IsCompared, IsCompareFault};
ghost use Rattle.model.specs.Runs.{AreWorkers};
ghost use Rattle.runs.specs.inner.Lines.{AnswersLines};

use crate::outputs::ModeRows;
use crate::runs::check_input;
use crate::sizes::write_rounds;
use bench_types::{Fault, Mode, Sink, Source};
use played_rounds::processors_of;
use report::compare_header;
use round_histories::{Hands, Resources};
use scenario::Scenario;
use std::alloc::Global;
use std::marker::Brand;
use std::sync::Wait;
use std::thread::Threads;

/// Reads a scenario, and writes the comparison of the modes: the header, and for each mode, in the
/// order of `Mode::ALL`, the row of each round of the scenario under that mode. The scenario's own
/// mode has no effect. Nothing is written if the scenario is at fault or reading failed. Workers and errors
/// are as for `run`.
pub fn compare<H: Threads + Wait + Sync, R: Source, W: Sink>(
    rt: &H,
    alloc: Global,
    reader: &mut R,
    writer: &mut W,
    workers: u32,
) -> Result<(), Fault>
    requires workers { AreWorkers workers }
    ensures compared { OnOk result
        (IsCompared R.Source reader.old reader.new W.Sink writer.old writer.new) }
    ensures fault { IfErr result
        (IsCompareFault R.Source reader.old reader.new W.Sink writer.old writer.new workers) }
    ensures checked_first { IfErr result (ComesOnceAccepted R.Source reader.old reader.new) }
    ensures failing_end { IfErr result (TellsOfFailing W.Sink writer.old writer.new) }
{
    let scenario = check_input(alloc, reader)?;
    let resources = Resources {
        rt,
        alloc,
        hands: Hands {
            workers,
            processors: processors_of(rt),
        },
    };
    write_comparison(&resources, scenario, writer)
}

fn write_comparison<H: Threads + Wait + Sync, W: Sink>(
    resources: &Resources<H>,
    mut scenario: Scenario,
    writer: &mut W,
) -> Result<(), Fault>
    ensures written { OnOk result
        (IsWritten W.Sink writer.old writer.new (comparison_text scenario)) }
    ensures fault { IfErr result
        (IsComparingFault W.Sink writer.old writer.new scenario resources.now.hands.workers) }
{
    compare_header(resources.alloc, writer, scenario.format())?;
    for mode in Mode::ALL {
        scenario = write_mode(resources, scenario.with_mode(mode), writer)?;
    }
    Ok(())
}

// The rows of a scenario's rounds under its own mode. The scenario comes back.
fn write_mode<H: Threads + Wait + Sync, W: Sink>(
    resources: &Resources<H>,
    scenario: Scenario,
    writer: &mut W,
) -> Result<Scenario, Fault>
    ensures { AnswersLines W.Sink writer.old writer.new scenario resources.now.hands.workers result }
{
    let mut output = ModeRows {
        alloc: resources.alloc,
        format: scenario.format(),
        mode: scenario.mode(),
        writer,
    };
    write_rounds::<Brand, H, ModeRows<W>>(resources, scenario, &mut output)
}
