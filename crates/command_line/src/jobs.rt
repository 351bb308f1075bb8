//! What the program does for its words.

ghost use Rattle.std.specs.Prelude.{OnOk, IfErr};
ghost use Rattle.command_words.specs.Workers.{HasLawfulWorkers};
ghost use Rattle.command_line.specs.Jobs.{IsChecked, IsCheckFault, IsPerformed, IsJobFault};

use bench_types::{Discard, Fault, Push, Sink, Source, write_text};
use command_words::{Job, trace_file};
use runs::{check_input, compare, run};
use std::alloc::Global;
use std::rt::Files;
use std::sync::Wait;
use std::thread::Threads;

/// The runtime and the memory of a process.
#[derive(Drop)]
pub struct Host<'a, H> {
    pub rt: &'a H,
    pub alloc: Global,
}

/// Reads a scenario and does the job: `out` gets what is asked for. The file of a trace is made anew
/// before anything is read; if it can't be made, or is the process's own input or output, the fault is
/// `WriteFailed`. Other faults are those of `check_input`, `run` and `compare`, and `WriteFailed` if `ok`
/// can't be printed.
pub fn perform<H: Threads + Wait + Sync + Files, R: Source, W: Sink>(
    host: &Host<H>,
    job: Job,
    reader: &mut R,
    out: &mut W,
) -> Result<(), Fault>
    requires workers { HasLawfulWorkers job }
    ensures performed { OnOk result (IsPerformed R.Source reader.old reader.new W.Sink out.old out.new
        ⟦<Discard as Sink>⟧ ⟦<Push<H::File> as Sink>⟧ job.entry) }
    ensures fault { IfErr result (IsJobFault R.Source reader.old reader.new W.Sink out.old out.new
        ⟦<Discard as Sink>⟧ ⟦<Push<H::File> as Sink>⟧ job.entry) }
{
    let Host { rt, alloc } = *host;
    match job {
        Job::Check => check(alloc, reader, out),
        Job::Run { trace, workers } => match trace {
            None => run(rt, alloc, reader, out, &mut Discard, workers),
            Some(path) => match trace_file(rt, path) {
                Some(file) => run(rt, alloc, reader, out, &mut Push::new(file), workers),
                None => Err(Fault::WriteFailed),
            },
        },
        Job::Compare { workers } => compare(rt, alloc, reader, out, workers),
    }
}

fn check<R: Source, W: Sink>(alloc: Global, reader: &mut R, out: &mut W) -> Result<(), Fault>
    ensures checked { OnOk result (IsChecked R.Source reader.old reader.new W.Sink out.old out.new) }
    ensures fault { IfErr result (IsCheckFault R.Source reader.old reader.new W.Sink out.old out.new) }
{
    check_input(alloc, reader)?;
    write_text(out, b"ok\n")
}
