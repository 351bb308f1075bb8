//! Carrying out the exchanges of a list on tables with entries.

ghost use Rattle.std.specs.Prelude.{IfOk, IfErr};
ghost use Rattle.bench_types.specs.calls.Budget.{IsLawfulBudget};
ghost use Rattle.model.specs.calls.Tables.{IsCluster};
ghost use Rattle.node_table.specs.NodeTableView.{kept_table, tables_in};
ghost use Rattle.model.specs.Runs.{AreWorkers, IsFaultOfWorkers};
ghost use Rattle.work.specs.Carrying.{AreExchanged};

use crate::runs::run_list_with;
use bench_types::{Fault, Record, Rules};
use exchange::Entries;
use model::RoundList;
use node_table::NodeTable;
use std::alloc::Global;
use std::sync::Wait;
use std::thread::Threads;
use workers::{Gate, Work};

/// Carries out the exchanges of a list, each between two calls of the gate. The answer is the tables, by
/// node, and the records, in list order: those of one thread that goes through the list in order, whatever
/// order the workers take.
///
/// With one worker no thread is started, and the list is done in order. With more, each is a thread of its
/// own, also where the list has fewer exchanges, and all have ended when this returns. It waits for them, so
/// no contract says that it returns.
///
/// An error is lack of memory (`OutOfMemory`), or with more than one worker that a thread couldn't be
/// started (`NoThread`), which goes before a worker's lack of memory. The tables are then given up.
///
/// Beside the exchanges, several workers cost a step for each node and a few for each exchange, a thread for
/// each worker, and a way from each to each other.
pub fn run_list<R: Threads + Wait + Sync, G: Gate + Sync>(
    rt: &R,
    alloc: Global,
    list: &RoundList,
    tables: Vec<NodeTable>,
    workers: u32,
    gate: &G,
    rules: &Rules,
) -> Result<(Vec<NodeTable>, Vec<Record>), Fault>
    requires workers { AreWorkers workers }
    requires cluster { IsCluster list.now.nodes (tables_in tables.items) }
    requires budget { IsLawfulBudget rules.now.budget }
    ensures exchanged { IfOk result
        (λ p. AreExchanged kept_table rules.now list.now.exchanges tables.items p.0.items p.1.items) }
    ensures fault { IfErr result (IsFaultOfWorkers workers) }
{
    let work = Work {
        shared: &Entries,
        list,
        rules,
        gate,
        workers,
    };
    let (tables, records, ()) = run_list_with(rt, alloc, work, tables, || ())?;
    Ok((tables, records))
}
