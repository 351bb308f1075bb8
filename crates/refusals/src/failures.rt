//! What ends the program before its end, and what goes on where memory is refused once: the call is made again.
//!
//! The program prints the name of each call once all of its answers were right, and so the same whichever growth is
//! refused. The name of a call that was refused goes to standard error. Where the second try is refused too the
//! program gives up, with a status for lack of memory and one for a thread that couldn't be started.

ghost use Rattle.std.specs.Prelude.{IsTrue, OnOk};
ghost use Rattle.bench_types.specs.calls.Budget.{IsLawfulBudget};

use bench_types::{Budget, Fault};
use std::alloc::AllocFailed;
use std::fmt::Display;
use std::io;
use std::process::ExitCode;

// What it ends with where an answer is wrong, where a call was refused memory or a thread twice, and where
// printing failed.
const WRONG: u8 = 1;

const NO_MEMORY: u8 = 3;

const NOT_PRINTED: u8 = 4;

const NO_THREAD: u8 = 5;

/// Why the program ends before its end.
#[derive(Debug, Drop)]
pub(crate) enum Failure {
    /// What came behind the call that was named last isn't as it should be.
    Wrong,
    /// A call answers this fault, and no fault is right or it is the second.
    Fault(Fault),
    NotPrinted,
}

impl From<Fault> for Failure {
    fn from(fault: Fault) -> Failure {
        Failure::Fault(fault)
    }
}

impl<T: Drop> From<AllocFailed<T>> for Failure {
    fn from(_refused: AllocFailed<T>) -> Failure {
        Failure::Fault(Fault::OutOfMemory)
    }
}

impl From<io::Error> for Failure {
    fn from(_error: io::Error) -> Failure {
        Failure::NotPrinted
    }
}

/// Goes on where it holds.
pub(crate) fn check(holds: bool) -> Result<(), Failure>
    ensures { OnOk result (IsTrue holds) }
{
    if holds { Ok(()) } else { Err(Failure::Wrong) }
}

/// Goes on where a budget has room for any one entry.
pub(crate) fn check_budget(budget: Budget) -> Result<(), Failure>
    ensures { OnOk result (IsLawfulBudget budget) }
{
    match budget {
        Budget::Entries(entries) => check(entries >= 1),
        Budget::Bytes(bytes) => check(bytes >= 1023),
    }
}

/// All answers of a call were right.
pub(crate) fn pass(rt: &impl Print, name: impl Display + Drop) -> Result<(), Failure> {
    println!(rt; "{name}")?;
    Ok(())
}

/// A call was refused, and what it wanted has to be memory.
pub(crate) fn refused(
    rt: &impl Eprint,
    name: impl Display + Drop,
    fault: impl Into<Failure> + Drop,
) -> Result<(), Failure> {
    refused_with(rt, name, 1, fault)
}

/// The same, and what stands then is as it should be.
pub(crate) fn refused_once(
    rt: &impl Eprint,
    name: &str,
    fault: impl Into<Failure> + Drop,
    stands: bool,
) -> Result<(), Failure>
    ensures { OnOk result (IsTrue stands) }
{
    refused(rt, name, fault)?;
    check(stands)
}

/// As `refused`, of a call with so many workers: of several, one may want a thread.
pub(crate) fn refused_with(
    rt: &impl Eprint,
    name: impl Display + Drop,
    workers: u32,
    fault: impl Into<Failure> + Drop,
) -> Result<(), Failure> {
    match fault.into() {
        Failure::Fault(Fault::OutOfMemory) => {}
        Failure::Fault(Fault::NoThread) if workers > 1 => {}
        other => return Err(other),
    }
    eprintln!(rt; "{name}")?;
    Ok(())
}

/// The status of the program. What was wrong is printed.
pub(crate) fn end(rt: &impl Print, done: Result<(), Failure>) -> ExitCode {
    let status = match done {
        Ok(()) => return ExitCode::SUCCESS,
        Err(Failure::Wrong) => told(println!(rt; "wrong, after what is named above"), WRONG),
        Err(Failure::Fault(Fault::OutOfMemory)) => NO_MEMORY,
        Err(Failure::Fault(Fault::NoThread)) => NO_THREAD,
        Err(Failure::Fault(fault)) => told(println!(rt; "wrong: {fault}"), WRONG),
        Err(Failure::NotPrinted) => NOT_PRINTED,
    };
    ExitCode::from(status)
}

// The status, or that of printing that failed.
fn told(printed: io::Result<()>, status: u8) -> u8 {
    match printed {
        Ok(()) => status,
        Err(_) => NOT_PRINTED,
    }
}

// What a call answers, at the second try where memory was refused once. Between the tries stands what the last argument
// says.
macro_rules! retried {
    ($rt:expr, $name:expr, $call:expr) => {
        crate::failures::retried!($rt, $name, $call, true)
    };
    ($rt:expr, $name:expr, $call:expr, $stands:expr) => {
        match $call {
            Ok(value) => value,
            Err(fault) => {
                crate::failures::refused_once($rt, $name, fault, $stands)?;
                $call?
            }
        }
    };
}

pub(crate) use retried;
