//! A long list, done in list order and by two, three and four threads.

ghost use Rattle.std.specs.Prelude.{◌≡◌, ◌<◌, ◌≤◌};
ghost use Rattle.limits.specs.declared.TheConstants.{MOST_WORKERS};
ghost use Rattle.bench_types.specs.calls.Budget.{IsLawfulBudget};
ghost use Rattle.tests_of_runs.specs.declared.tests.long_lists.TheConstants.{NODES};

use crate::tests::comparing::{check, expect};
use crate::tests::jobs::{Job, expect_tables_of};
use crate::tests::pools::run_fresh;
use crate::tests::threads::{Order, Worked, work_in_four, work_in_three, work_in_two};
use bench_types::limits::MOST_WORKERS;
use bench_types::{Budget, Exchange, Fault, Mode, Record, Rules};
use exchange::exchange;
use fixtures::{Writers, tables_of};
use node_table::NodeTable;
use pool::FreeGate;
use round_plan::RoundList;
use std::alloc::AllocGlobal;
use std::process::Abort;
use std::sync::Wait;
use std::thread::Threads;

const NODES: u32 = 256;

const KEYS: u32 = 4;

const EXCHANGES: u32 = 2000;

const BUDGET: Budget = Budget::Entries(40);

/// Numbers without an order that one could see.
#[derive(Drop)]
struct Numbers {
    state: u64,
}

impl Numbers {
    fn below(&mut self, bound: u32) -> u32
        requires { 1 ≤ bound }
        ensures { result < bound }
    {
        self.state = self
            .state
            .wrapping_mul(6_364_136_223_846_793_005)
            .wrapping_add(1_442_695_040_888_963_407);
        ((self.state >> 33) % u64::from(bound)) as u32
    }
}

// An exchange of two nodes, of which one in eight loses a message.
fn drawn(numbers: &mut Numbers) -> Exchange {
    let initiator = numbers.below(NODES);
    let responder = (initiator + 1 + numbers.below(NODES - 1)) % NODES;
    let loss = numbers.below(24);
    Exchange {
        initiator,
        responder,
        lost1: loss == 1,
        lost2: loss == 2,
        lost3: loss == 3,
        rotation: numbers.below(NODES),
    }
}

fn long_list(rt: &(impl Abort + AllocGlobal)) -> RoundList
    ensures { result.nodes ≡ NODES }
{
    let mut numbers = Numbers { state: 2008 };
    let mut exchanges = Vec::new(rt.alloc());
    for _ in 0..EXCHANGES {
        exchanges.push(drawn(&mut numbers)).expect(rt, "memory");
    }
    let list = RoundList::of(NODES, 0, exchanges).expect(rt, "a list of these nodes");
    check!(rt; list.nodes() == NODES && list.len() == EXCHANGES);
    list
}

/// What a list leaves: the tables, by node, and the records, in list order.
#[derive(Drop)]
struct Left {
    tables: Vec<NodeTable>,
    records: Vec<Record>,
}

// What is left where one thread does the exchanges in list order.
fn in_list_order(
    rt: &(impl Abort + AllocGlobal),
    list: &RoundList,
    rules: &Rules,
) -> Result<Left, Fault>
    requires budget { IsLawfulBudget rules.now.budget }
{
    let mut tables = tables_of(rt.alloc(), Writers::all(NODES, KEYS))?;
    let mut records = Vec::new(rt.alloc());
    for plan in list.exchanges() {
        records.push(exchange_two(rt, &mut tables, plan, rules)?)?;
    }
    Ok(Left { tables, records })
}

fn exchange_two(
    rt: &(impl Abort + AllocGlobal),
    tables: &mut [NodeTable],
    plan: &Exchange,
    rules: &Rules,
) -> Result<Record, Fault>
    requires budget { IsLawfulBudget rules.now.budget }
{
    let initiator = plan.initiator as usize;
    let responder = plan.responder as usize;
    check!(rt; initiator < tables.len() && responder < tables.len() && initiator != responder);
    let (initiator, responder) = if initiator < responder {
        let (below, from) = tables.split_at_mut(responder);
        (&mut below[initiator], &mut from[0])
    } else {
        let (below, from) = tables.split_at_mut(initiator);
        (&mut from[0], &mut below[responder])
    };
    expect_tables_of(rt, plan, initiator, responder);
    exchange(rt.alloc(), initiator, responder, plan, rules)
}

fn holds_the_same(one: &NodeTable, two: &NodeTable) -> bool {
    one.node() == two.node()
        && one.nodes() == two.nodes()
        && (0..one.nodes()).all(|owner| one.entries_of(owner) == two.entries_of(owner))
}

fn expect_the_same(rt: &impl Abort, tables: &[NodeTable], wanted: &[NodeTable]) {
    expect(rt, tables.len(), wanted.len());
    check!(rt;
        tables
            .iter()
            .zip(wanted)
            .all(|(one, two)| holds_the_same(one, two))
    );
}

// Each exchange was put back by one thread, once.
fn expect_each_once(rt: &impl Abort, mut made: Vec<u32>) {
    made.sort_unstable();
    expect(rt, made.len(), EXCHANGES as usize);
    check!(rt; made.iter().zip(0..EXCHANGES).all(|(i, at)| *i == at));
}

// Each board is done by two, three and four threads, and each list by so many workers.
fn expect_list_order<R: Abort + AllocGlobal + Threads + Wait + Sync>(
    rt: &R,
    list: &RoundList,
    mode: Mode,
) -> Result<(), Fault> {
    let rules = Rules {
        mode,
        budget: BUDGET,
    };
    let wanted = in_list_order(rt, list, &rules)?;
    for threads in 2..=4 {
        expect_shared(rt, &rules, threads, &wanted)?;
    }
    for workers in [1, 2, 3, 5, MOST_WORKERS] {
        expect_pooled(rt, list, &rules, workers, &wanted)?;
    }
    Ok(())
}

fn expect_pooled<R: Abort + AllocGlobal + Threads + Wait + Sync>(
    rt: &R,
    list: &RoundList,
    rules: &Rules,
    workers: u32,
    wanted: &Left,
) -> Result<(), Fault>
    requires workers { (1 ≤ workers) × (workers ≤ MOST_WORKERS) }
    requires budget { IsLawfulBudget rules.now.budget }
{
    let (tables, records) = run_fresh(rt, list, KEYS, rules, workers, &FreeGate)?;
    expect_the_same(rt, &tables, &wanted.tables);
    check!(rt; *records == *wanted.records);
    Ok(())
}

fn expect_shared<R: Abort + AllocGlobal + Threads + Sync>(
    rt: &R,
    rules: &Rules,
    threads: u32,
    wanted: &Left,
) -> Result<(), Fault>
    requires budget { IsLawfulBudget rules.now.budget }
{
    let (job, mut first) = Job::new(rt, long_list(rt), KEYS, *rules)?;
    let second = job.board.split(&mut first);
    let third = job.board.split(&mut first);
    let fourth = job.board.split(&mut first);
    let Worked { seat, made } = match threads {
        2 => work_in_two(rt, &job, (first, second), Order::Shuffled),
        3 => work_in_three(rt, &job, first, (second, third)),
        _ => work_in_four(rt, &job, (first, second), (third, fourth)),
    };
    expect_each_once(rt, made);
    let Job { board, .. } = job;
    expect_the_same(rt, &board.close(seat)?, &wanted.tables);
    Ok(())
}

#[test]
fn a_long_list_by_several_threads(rt: HostRuntime) {
    let list = long_list(&rt);
    for mode in Mode::ALL {
        expect_list_order(&rt, &list, mode).expect(&rt, "memory and threads");
    }
}
