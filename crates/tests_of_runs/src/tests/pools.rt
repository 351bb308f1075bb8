//! Lists that workers carry out.

ghost use Rattle.std.specs.Prelude.{◌≤◌};
ghost use Rattle.limits.specs.declared.TheConstants.{MOST_WORKERS, MOST_KEYS};
ghost use Rattle.bench_types.specs.calls.Budget.{IsLawfulBudget};

use crate::tests::comparing::{check, expect};
use crate::tests::gates::{Call, Gathering, Handover, Meeting, Notes, Theft};
use crate::tests::small_boards::{CROSSING, ONE_ENTRY, TWICE, list_of};
use bench_types::limits::{MOST_KEYS, MOST_WORKERS};
use bench_types::{Fault, Record, Rules};
use fixtures::{Writers, tables_of};
use node_table::NodeTable;
use pool::{FreeGate, Gate, run_list};
use round_plan::RoundList;
use std::alloc::AllocGlobal;
use std::process::Abort;
use std::sync::Wait;
use std::thread::Threads;

/// Four pairs that share no node.
const FOUR_PAIRS: &[(u32, u32)] = &[(0, 1), (2, 3), (4, 5), (6, 7)];

/// Three pairs that share no node.
const THREE_PAIRS: &[(u32, u32)] = &[(0, 1), (2, 3), (4, 5)];

/// Two pairs, and then one node of each.
const BRIDGED: &[(u32, u32)] = &[(0, 1), (2, 3), (1, 2)];

/// Carries out a list, on tables whose nodes have written each key once.
pub(crate) fn run_fresh<R: Abort + AllocGlobal + Threads + Wait + Sync, G: Gate + Sync>(
    rt: &R,
    list: &RoundList,
    keys: u32,
    rules: &Rules,
    workers: u32,
    gate: &G,
) -> Result<(Vec<NodeTable>, Vec<Record>), Fault>
    requires keys { (1 ≤ keys) × (keys ≤ MOST_KEYS) }
    requires workers { (1 ≤ workers) × (workers ≤ MOST_WORKERS) }
    requires budget { IsLawfulBudget rules.now.budget }
{
    let tables = tables_of(rt.alloc(), Writers::all(list.nodes(), keys))?;
    run_list(rt, rt.alloc(), list, tables, workers, gate, rules)
}

// Each of these nodes holds as many entries, and there are so many records.
fn expect_counts(
    rt: &impl Abort,
    (tables, records): (Vec<NodeTable>, Vec<Record>),
    count: u32,
    exchanges: u32,
) {
    check!(rt; tables.iter().all(|table| table.count() == count));
    expect(rt, records.len(), exchanges as usize);
}

// Workers carry out a list, and each node then holds so many entries.
fn expect_run<R: Abort + AllocGlobal + Threads + Wait + Sync, G: Gate + Sync>(
    rt: &R,
    list: &RoundList,
    workers: u32,
    gate: &G,
    count: u32,
) -> Result<(), Fault>
    requires workers { (1 ≤ workers) × (workers ≤ MOST_WORKERS) }
{
    let left = run_fresh(rt, list, 1, &ONE_ENTRY, workers, gate)?;
    expect_counts(rt, left, count, list.len());
    Ok(())
}

// What a gate is told while so many workers carry out the eight exchanges of a list.
fn calls_of<R: Abort + AllocGlobal + Threads + Wait + Sync>(
    rt: &R,
    workers: u32,
) -> Result<Vec<Call>, Fault>
    requires workers { (1 ≤ workers) × (workers ≤ MOST_WORKERS) }
{
    let gate = Notes::new(rt);
    expect_run(rt, &list_of(rt, 8, CROSSING), workers, &gate, 3)?;
    Ok(gate.into_calls())
}

// Of each of the eight exchanges a gate was told that it is entered, and then that it is left.
fn expect_each_once(rt: &impl Abort, calls: &[Call]) {
    expect(rt, calls.len(), 16);
    for i in 0..8 {
        expect_once(rt, calls, i);
    }
}

fn expect_once(rt: &impl Abort, calls: &[Call], i: u32) {
    let mut of_one = calls.iter().copied().filter(|call| call.place() == i);
    let found = (of_one.next(), of_one.next(), of_one.next());
    expect(
        rt,
        found,
        (Some(Call::Enter(i)), Some(Call::Leave(i)), None),
    );
}

// They were entered and left one behind the other, in list order.
fn expect_in_list_order(rt: &impl Abort, calls: &[Call]) {
    expect(rt, calls.len(), 16);
    for (place, call) in (0..16).zip(calls) {
        let i = place / 2;
        let wanted = if place % 2 == 0 {
            Call::Enter(i)
        } else {
            Call::Leave(i)
        };
        expect(rt, *call, wanted);
    }
}

#[test]
fn one_worker_tells_the_gate_in_list_order(rt: HostRuntime) -> Result<(), Fault> {
    expect_in_list_order(&rt, &calls_of(&rt, 1)?);
    Ok(())
}

#[test]
fn each_exchange_is_entered_and_then_left_once(rt: HostRuntime) -> Result<(), Fault> {
    for workers in [1, 2, 3, MOST_WORKERS] {
        expect_each_once(&rt, &calls_of(&rt, workers)?);
    }
    Ok(())
}

#[test]
fn an_exchange_is_put_back_before_it_is_left(rt: HostRuntime) -> Result<(), Fault> {
    let gate = Handover::new();
    let list = list_of(&rt, 4, BRIDGED);
    let (tables, records) = run_fresh(&rt, &list, 1, &ONE_ENTRY, 2, &gate)?;
    check!(&rt; gate.has_happened());
    check!(&rt; tables.len() == 4 && records.len() == 3);
    Ok(())
}

#[test]
fn as_many_threads_as_workers(rt: HostRuntime) -> Result<(), Fault> {
    let gate = Gathering::of(3);
    expect_run(&rt, &list_of(&rt, 6, THREE_PAIRS), 3, &gate, 2)?;
    check!(&rt; gate.has_gathered());
    Ok(())
}

#[test]
fn two_exchanges_at_once(rt: HostRuntime) -> Result<(), Fault> {
    let gate = Meeting::new();
    expect_run(&rt, &list_of(&rt, 4, TWICE), 2, &gate, 2)?;
    check!(&rt; gate.has_met());
    Ok(())
}

#[test]
fn stealing_from_the_other_deque(rt: HostRuntime) -> Result<(), Fault> {
    let gate = Theft::new();
    expect_run(&rt, &list_of(&rt, 8, FOUR_PAIRS), 2, &gate, 2)?;
    check!(&rt; gate.has_happened());
    Ok(())
}

#[test]
fn an_empty_list(rt: HostRuntime) -> Result<(), Fault> {
    let list = list_of(&rt, 2, &[]);
    for workers in [1, MOST_WORKERS] {
        expect_run(&rt, &list, workers, &FreeGate, 1)?;
    }
    Ok(())
}
