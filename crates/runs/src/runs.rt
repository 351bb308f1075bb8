//! A whole run, from bytes to bytes.

ghost use Rattle.std.specs.Prelude.{Ok, IfOk, OnOk, IfErr};
ghost use Rattle.runs.specs.Inputs.{IsRead, IsInputFault};
ghost use Rattle.runs.specs.Runs.{AreWritten, AreWrittenUpto, IsWritingFault, IsReported, IsRunFault, TellsOfFailing, ComesOnceAccepted};
ghost use Rattle.model.specs.Runs.{AreWorkers};

use crate::inputs::read_all;
use crate::outputs::ReportAndTrace;
use crate::sizes::write_rounds;
use bench_types::{Fault, Sink, Source};
use played_rounds::processors_of;
use report::{report_header, trace_header};
use round_histories::{Hands, Resources};
use scenario::{Scenario, read};
use std::alloc::Global;
use std::marker::Brand;
use std::sync::Wait;
use std::thread::Threads;

/// Reads a scenario, and writes the report of its run to `writer` and its trace to `trace`: the two
/// headers, and after each round its exchanges and its row. Pass `Discard` if no trace is wanted.
/// Nothing is written if the scenario is at fault or reading failed.
///
/// What is written is the same for every number of workers. With one, the exchanges of a round are done one
/// after another; with more, so many threads do them, that of the caller and others, which live for the run. Where one
/// can't be started the fault is `NoThread`. Other errors are those of `check_input`, lack of memory in a round
/// (`OutOfMemory`), and what a writer answers (`WriteFailed`).
pub fn run<H: Threads + Wait + Sync, R: Source, W: Sink, X: Sink>(
    rt: &H,
    alloc: Global,
    reader: &mut R,
    writer: &mut W,
    trace: &mut X,
    workers: u32,
) -> Result<(), Fault>
    requires workers { AreWorkers workers }
    ensures reported { OnOk result
        (IsReported R.Source reader.old reader.new W.Sink writer.old writer.new X.Sink trace.old
        trace.new) }
    ensures fault { IfErr result
        (IsRunFault R.Source reader.old reader.new W.Sink writer.old writer.new X.Sink trace.old
        trace.new workers) }
    ensures checked_first { IfErr result (ComesOnceAccepted R.Source reader.old reader.new) }
    ensures failing_end { IfErr result (λ fault.
        TellsOfFailing W.Sink writer.old writer.new fault
        × TellsOfFailing X.Sink trace.old trace.new fault) }
{
    let scenario = check_input(alloc, reader)?;
    let resources = Resources {
        rt,
        alloc,
        hands: Hands {
            workers,
            processors: processors_of(rt),
        },
    };
    write_run(&resources, scenario, writer, trace)
}

/// Reads a scenario whole and checks it. An error is that of `read_all`, or else the fault of the first check
/// that fails.
pub fn check_input<R: Source>(alloc: Global, reader: &mut R) -> Result<Scenario, Fault>
    ensures accepted { IfOk result
        (λ settings. IsRead R.Source reader.old reader.new (Ok settings)) }
    ensures fault { IfErr result (IsInputFault R.Source reader.old reader.new) }
{
    let bytes = read_all(alloc, reader)?;
    read(alloc, &bytes)
}

fn write_run<H: Threads + Wait + Sync, W: Sink, X: Sink>(
    resources: &Resources<H>,
    scenario: Scenario,
    writer: &mut W,
    trace: &mut X,
) -> Result<(), Fault>
    ensures written { OnOk result
        (AreWritten W.Sink writer.old writer.new X.Sink trace.old trace.new scenario) }
    ensures fault { IfErr result (IsWritingFault W.Sink writer.old writer.new X.Sink trace.old trace.new scenario
        resources.now.hands.workers) }
{
    write_headers(resources, &scenario, writer, trace)?;
    let mut output = ReportAndTrace {
        alloc: resources.alloc,
        format: scenario.format(),
        writer,
        trace,
    };
    write_rounds::<Brand, H, ReportAndTrace<W, X>>(resources, scenario, &mut output)?;
    Ok(())
}

fn write_headers<H, W: Sink, X: Sink>(
    resources: &Resources<H>,
    scenario: &Scenario,
    writer: &mut W,
    trace: &mut X,
) -> Result<(), Fault>
    ensures written { OnOk result
        (AreWrittenUpto W.Sink writer.old writer.new X.Sink trace.old trace.new scenario.now 0) }
    ensures fault { IfErr result (IsWritingFault W.Sink writer.old writer.new X.Sink trace.old trace.new scenario.now
        resources.now.hands.workers) }
{
    report_header(resources.alloc, writer, scenario.format())?;
    trace_header(resources.alloc, trace)
}
