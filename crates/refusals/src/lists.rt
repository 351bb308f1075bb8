//! The list of a first round, carried out by workers.

ghost use Rattle.std.specs.Prelude.{IfOk};
ghost use Rattle.node_table.specs.NodeTableView.{tables_in};
ghost use Rattle.model.specs.calls.Tables.{IsCluster};

use crate::cases::{Case, FirstRound, LoneList};
use crate::counting::Counter;
use crate::failures::{Failure, check, check_budget, pass, refused_with, retried};
use crate::trials::Trial;
use bench_types::limits::{MOST_KEYS, MOST_NODES};
use bench_types::{Entry, Fault, Mode, Record, Rules};
use fixtures::{Team, WRITTEN, Writers, list_of, tables_of};
use node_table::NodeTable;
use pool::run_list;
use round_plan::RoundList;
use std::sync::Wait;
use std::thread::Threads;

// The tables and the records that a list leaves.
type Exchanged = (Vec<NodeTable>, Vec<Record>);

fn fresh_tables<R: Eprint + AllocGlobal>(
    rt: &R,
    writers: Writers,
) -> Result<Vec<NodeTable>, Failure>
    ensures { IfOk result (λ tables. IsCluster writers.nodes (tables_in tables.items)) }
{
    check(1 <= writers.nodes && writers.nodes <= MOST_NODES)?;
    check(1 <= writers.keys && writers.keys <= MOST_KEYS)?;
    let alloc = rt.alloc();
    Ok(retried!(rt, "tables", tables_of(alloc, writers)))
}

// Carries out a list with fresh tables. Where memory is refused these are given up.
fn exchanged<R: Eprint + AllocGlobal + Threads + Wait + Sync>(
    rt: &R,
    list: &RoundList,
    first: &FirstRound,
    team: Team,
    gate: &Counter,
) -> Result<Result<Exchanged, Fault>, Failure> {
    check(list.nodes() == first.writers.nodes)?;
    check_budget(first.budget)?;
    let rules = Rules {
        mode: Mode::ScuttleBreadth,
        budget: first.budget,
    };
    let tables = fresh_tables(rt, first.writers)?;
    Ok(run_list(rt, rt.alloc(), list, tables, team.workers(), gate, &rules))
}

fn check_exchanged(
    first: &FirstRound,
    (tables, records): Exchanged,
    gate: &Counter,
) -> Result<(), Failure> {
    check(records.as_slice() == first.records)?;
    check(gate.counts().are_whole(first.records.len()))?;
    check(tables.len() == first.held.len())?;
    let keys = first.writers.keys;
    check(
        tables
            .iter()
            .zip(first.held)
            .all(|(table, owners)| holds_all_of(table, owners, keys)),
    )
}

// Whether a table holds each key of these owners, who wrote it once, and nothing else.
fn holds_all_of(table: &NodeTable, owners: &[u32], keys: u32) -> bool {
    table.count() as usize == owners.len().saturating_mul(keys as usize)
        && owners.iter().all(|owner| (0..keys).all(|key| table.get(*owner, key)
            == Some(written(key))))
}

// The one write of a key, which comes behind those of the keys before it.
fn written(key: u32) -> Entry {
    Entry {
        key,
        version: key.saturating_add(1),
        ..WRITTEN
    }
}

/// The answer is the fold's or one fault, and after that the gate hears nothing.
pub(crate) fn try_list<R: Print + Eprint + AllocGlobal + Threads + Wait + Sync>(
    rt: &R,
    case: &Case,
    trial: Trial,
) -> Result<(), Failure> {
    try_exchanges(rt, &case.first, trial, &Counter::new())
}

/// The same of a list alone.
pub(crate) fn try_lone<R: Print + Eprint + AllocGlobal + Threads + Wait + Sync>(
    rt: &R,
    list: &LoneList,
    trial: Trial,
) -> Result<(), Failure> {
    try_exchanges(rt, &list.first, trial, &Counter::new())
}

fn try_exchanges<R: Print + Eprint + AllocGlobal + Threads + Wait + Sync>(
    rt: &R,
    first: &FirstRound,
    trial: Trial,
    gate: &Counter,
) -> Result<(), Failure> {
    let nodes = first.writers.nodes;
    let list = retried!(rt, "RoundList::of", list_of(rt.alloc(), nodes, first.pairs));
    try_listed(rt, &list, first, trial, gate)?;
    pass(rt, trial)
}

fn try_listed<R: Eprint + AllocGlobal + Threads + Wait + Sync>(
    rt: &R,
    list: &RoundList,
    first: &FirstRound,
    trial: Trial,
    gate: &Counter,
) -> Result<(), Failure> {
    let team = trial.team;
    match exchanged(rt, list, first, team, gate)? {
        Ok(exchanged) => check_exchanged(first, exchanged, gate),
        Err(fault) => {
            check(fault != Fault::NoThread || gate.counts().entered == 0)?;
            refused_with(rt, trial, team.workers(), fault)?;
            try_list_again(rt, list, first, team, gate)
        }
    }
}

// The second try, with a gate of its own: the first one's counts stay as they are.
fn try_list_again<R: Eprint + AllocGlobal + Threads + Wait + Sync>(
    rt: &R,
    list: &RoundList,
    first: &FirstRound,
    team: Team,
    gate: &Counter,
) -> Result<(), Failure> {
    let counts = gate.counts();
    let second = Counter::new();
    let exchanged = exchanged(rt, list, first, team, &second)??;
    check_exchanged(first, exchanged, &second)?;
    check(counts.are_broken_off(team.workers()) && gate.counts() == counts)
}
