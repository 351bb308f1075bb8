//! Goes over the cases that `data/cases.txt` names, and prints a line for each: whether what the bench
//! writes is what is stored, or the fault of a text that it refuses. What must be printed stands in
//! the file `stdout`.
//!
//! | Folder | Cases |
//! |---|---|
//! | `small` | runs that can be followed by hand |
//! | `lawful` | scenarios of many shapes, whose texts an independent program worked out |
//! | `bytes` | the same of format 2, with budgets in bytes, with their comparisons |
//! | `forgetful` | the same of format 2, with nodes that forget |
//! | `examples` | the scenarios of the repository's `examples/` |
//! | `refused` | texts that are refused, each with the fault that `stdout` has |
//! | `changed` | tables of changes to the scenario `small/two_nodes.toml` |
//! | `texts` | texts of which nearly all are refused, with the faults that an independent program has |
//!
//! Beside a scenario `NAME.toml` of the first five stand the texts that it must give, byte for byte:
//! `NAME.report.csv`, and where it is wanted `NAME.trace.csv`. Where its comparison is wanted, `NAME.MODE.csv` is its
//! report under each other mode, and `modes.txt` has the order of the modes. It must give all of these for every number
//! of workers.
#![tactic(auto)]

mod changes;
mod outcomes;
mod stored;
mod texts;

use changes::table_line;
use outcomes::{refusal, run_line};
use std::alloc::AllocGlobal;
use std::rt::Files;
use std::sync::Wait;
use std::thread::Threads;
use std::{fs, io};
use texts::texts_line;

fn main(rt: HostRuntime) -> io::Result<()> {
    let cases = fs::read_to_string(&rt, "cases.txt")?;
    for case in cases.lines() {
        let line = line_of(&rt, case)?;
        println!(rt; "{case}: {line}")?;
    }
    Ok(())
}

fn line_of<R: Files + Threads + Wait + AllocGlobal + Sync>(
    rt: &R,
    case: &str,
) -> io::Result<String> {
    let alloc = rt.alloc();
    if case.starts_with("changed/") {
        let table = fs::read_to_string(rt, format!(in alloc; "{case}.txt")?)?;
        return table_line(rt, table.as_str());
    }
    if case.starts_with("texts/") {
        let file = fs::read(rt, format!(in alloc; "{case}.txt")?)?;
        return Ok(texts_line(rt, &file)?);
    }
    let text = fs::read(rt, format!(in alloc; "{case}.toml")?)?;
    if case.starts_with("refused/") {
        Ok(refusal(rt, &text)?)
    } else {
        run_line(rt, case, &text)
    }
}
