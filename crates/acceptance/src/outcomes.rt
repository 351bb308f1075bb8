//! What comes of a text.

ghost use Rattle.model.specs.Runs.{AreWorkers};

use crate::stored::{compare_part, stored_comparison, stored_text};
use bench::{check_input, compare, run};
use bench_types::limits::MOST_WORKERS;
use bench_types::{Fault, Pull, Push};
use std::alloc::{AllocError, AllocGlobal};
use std::io;
use std::rt::Files;
use std::sync::Wait;
use std::thread::Threads;

/// What a run and a comparison of a text answer, and what they have written.
#[derive(Drop)]
pub struct Outcome {
    answer: Result<(), Fault>,
    report: Vec<u8>,
    trace: Vec<u8>,
    compared: Result<(), Fault>,
    comparison: Vec<u8>,
}

impl Outcome {
    fn of<R: Threads + Wait + AllocGlobal + Sync>(rt: &R, text: &[u8], workers: u32) -> Outcome
        requires workers { AreWorkers workers }
    {
        let alloc = rt.alloc();
        let mut report = Push::new(Vec::new(alloc));
        let mut trace = Push::new(Vec::new(alloc));
        let answer = run(
            rt,
            alloc,
            &mut Pull::new(text),
            &mut report,
            &mut trace,
            workers,
        );
        let mut comparison = Push::new(Vec::new(alloc));
        let compared = compare(rt, alloc, &mut Pull::new(text), &mut comparison, workers);
        Outcome {
            answer,
            report: report.into_inner(),
            trace: trace.into_inner(),
            compared,
            comparison: comparison.into_inner(),
        }
    }

    fn has_written(&self) -> bool {
        !(self.report.is_empty() && self.trace.is_empty() && self.comparison.is_empty())
    }
}

/// Runs a text, and compares what it writes with each text that is stored of a case. It does so with 1 to
/// 5 and the most workers; where these don't come to the same line, it is that of the first that
/// differs from one worker's.
pub fn run_line<R: Files + Threads + Wait + AllocGlobal + Sync>(
    rt: &R,
    case: &str,
    text: &[u8],
) -> io::Result<String> {
    let alone = line_with(rt, case, text, 1)?;
    for workers in 2..=5 {
        let line = line_with(rt, case, text, workers)?;
        if line.as_str() != alone.as_str() {
            return Ok(format!(in rt.alloc(); "with {workers} workers {line}")?);
        }
    }
    let line = line_with(rt, case, text, MOST_WORKERS)?;
    if line.as_str() != alone.as_str() {
        return Ok(format!(in rt.alloc(); "with {MOST_WORKERS} workers {line}")?);
    }
    Ok(alone)
}

// The line of a run with so many workers.
fn line_with<R: Files + Threads + Wait + AllocGlobal + Sync>(
    rt: &R,
    case: &str,
    text: &[u8],
    workers: u32,
) -> io::Result<String>
    requires workers { AreWorkers workers }
{
    let outcome = Outcome::of(rt, text, workers);
    if let Err(fault) = outcome.answer.and(outcome.compared) {
        return Ok(format!(in rt.alloc(); "{fault}")?);
    }
    let alloc = rt.alloc();
    let mut line = String::new(alloc);
    let report = stored_text(rt, case, "report")?;
    compare_part(alloc, &mut line, "report", report, &outcome.report)?;
    let trace = stored_text(rt, case, "trace")?;
    compare_part(alloc, &mut line, "trace", trace, &outcome.trace)?;
    let rows = stored_comparison(rt, case)?;
    compare_part(alloc, &mut line, "comparison", rows, &outcome.comparison)?;
    Ok(line)
}

/// Runs a text that is refused, and answers the line of its fault.
pub fn refusal<R: Threads + Wait + AllocGlobal + Sync>(
    rt: &R,
    text: &[u8],
) -> Result<String, AllocError> {
    let outcome = Outcome::of(rt, text, 1);
    if outcome.has_written() {
        return String::from_str(rt.alloc(), "not refused before it wrote");
    }
    match (outcome.answer, outcome.compared) {
        (Err(fault), Err(same)) if fault == same => format!(in rt.alloc(); "{fault}"),
        _ => String::from_str(rt.alloc(), "not refused alike"),
    }
}

/// The line of the fault of a text, or `ok`.
pub fn check_line<R: Threads + Wait + AllocGlobal + Sync>(
    rt: &R,
    text: &[u8],
) -> Result<String, AllocError> {
    match check_input(rt.alloc(), &mut Pull::new(text)) {
        Ok(_) => String::from_str(rt.alloc(), "ok"),
        Err(_) => refusal(rt, text),
    }
}
