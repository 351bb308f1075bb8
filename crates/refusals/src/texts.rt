//! From a text to texts.

use crate::cases::Case;
use crate::failures::{Failure, check, pass, refused_with, retried};
use crate::trials::Trial;
use bench::{check_input, compare, read_all, run};
use bench_types::{Fault, Pull, Push};
use fixtures::Team;
use std::alloc::Global;
use std::sync::Wait;
use std::thread::Threads;

// More room than a text takes, so that writing takes no memory.
const ROOM: usize = 1000;

// A writer to memory that takes none.
fn writer(alloc: Global) -> Result<Push<Vec<u8>>, Fault> {
    Ok(Push::new(Vec::with_capacity(alloc, ROOM)?))
}

// Whether what was written is a text or a beginning of it, in whole lines.
fn is_beginning(written: &[u8], text: &str) -> bool {
    text.as_bytes().starts_with(written) && (written.is_empty() || written.ends_with(b"\n"))
}

/// What a run or a comparison answers, and what it has written.
#[derive(Drop)]
struct Outcome {
    answer: Result<(), Fault>,
    report: Vec<u8>,
    trace: Vec<u8>,
}

/// Which texts are asked for.
#[derive(Clone, Copy)]
pub(crate) enum Job {
    Run,
    Compare,
}

impl Job {
    // What must be written of a case.
    fn texts(self, case: &Case) -> (&'static str, &'static str) {
        match self {
            Job::Run => (case.texts.report, case.texts.trace),
            Job::Compare => (case.texts.comparison, ""),
        }
    }

    fn carry_out<R: Eprint + AllocGlobal + Threads + Wait + Sync>(
        self,
        rt: &R,
        case: &Case,
        team: Team,
    ) -> Result<Outcome, Failure> {
        let alloc = rt.alloc();
        let mut report = retried!(rt, "room", writer(alloc));
        let mut trace = retried!(rt, "room", writer(alloc));
        let answer = self.write(rt, case, team, &mut report, &mut trace);
        Ok(Outcome {
            answer,
            report: report.into_inner(),
            trace: trace.into_inner(),
        })
    }

    fn write<R: AllocGlobal + Threads + Wait + Sync>(
        self,
        rt: &R,
        case: &Case,
        team: Team,
        report: &mut Push<Vec<u8>>,
        trace: &mut Push<Vec<u8>>,
    ) -> Result<(), Fault> {
        let (alloc, workers) = (rt.alloc(), team.workers());
        let reader = &mut Pull::new(case.texts.scenario.as_bytes());
        match self {
            Job::Run => run(rt, alloc, reader, report, trace, workers),
            Job::Compare => compare(rt, alloc, reader, report, workers),
        }
    }
}

fn check_whole(job: Job, case: &Case, report: &[u8], trace: &[u8]) -> Result<(), Failure> {
    let (whole_report, whole_trace) = job.texts(case);
    check(report == whole_report.as_bytes())?;
    check(trace == whole_trace.as_bytes())
}

fn check_beginnings(job: Job, case: &Case, report: &[u8], trace: &[u8]) -> Result<(), Failure> {
    let (whole_report, whole_trace) = job.texts(case);
    check(is_beginning(report, whole_report))?;
    check(is_beginning(trace, whole_trace))
}

/// The report and the trace of a run are those of the case, and so is its comparison.
pub(crate) fn try_job<R: Print + Eprint + AllocGlobal + Threads + Wait + Sync>(
    rt: &R,
    job: Job,
    case: &Case,
    trial: Trial,
) -> Result<(), Failure> {
    let outcome = job.carry_out(rt, case, trial.team)?;
    try_outcome(rt, job, case, trial, outcome)?;
    pass(rt, trial)
}

fn try_outcome<R: Eprint + AllocGlobal + Threads + Wait + Sync>(
    rt: &R,
    job: Job,
    case: &Case,
    trial: Trial,
    outcome: Outcome,
) -> Result<(), Failure> {
    let Outcome {
        answer,
        report,
        trace,
    } = outcome;
    match answer {
        Ok(()) => check_whole(job, case, &report, &trace),
        Err(fault) => {
            check_beginnings(job, case, &report, &trace)?;
            refused_with(rt, trial, trial.team.workers(), fault)?;
            try_again(rt, job, case, trial.team)
        }
    }
}

fn try_again<R: Eprint + AllocGlobal + Threads + Wait + Sync>(
    rt: &R,
    job: Job,
    case: &Case,
    team: Team,
) -> Result<(), Failure> {
    let second = job.carry_out(rt, case, team)?;
    second.answer?;
    check_whole(job, case, &second.report, &second.trace)
}

/// A text is read whole, and checked.
pub(crate) fn try_input<R: Eprint + AllocGlobal>(rt: &R, case: &Case) -> Result<(), Failure> {
    let (alloc, text) = (rt.alloc(), case.texts.scenario.as_bytes());
    let bytes = retried!(rt, "read_all", read_all(alloc, &mut Pull::new(text)));
    check(bytes.as_slice() == text)?;
    let scenario = retried!(rt, "check_input", check_input(alloc, &mut Pull::new(text)));
    check(scenario.nodes() == case.first.writers.nodes)
}
