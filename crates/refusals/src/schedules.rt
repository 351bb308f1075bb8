//! Dependencies and schedules of a list of four nodes.

ghost use Rattle.std.specs.Prelude.{◌≡◌, IfOk};

use crate::failures::{Failure, check, pass, refused, retried};
use bench_types::{Budget, Fault, Item, Mode, Record, Rules};
use fixtures::{Writers, between, holds, item, list_of, sent, tables_of};
use node_table::NodeTable;
use planner::{After, Deps, Event, Schedule, play};
use round_plan::RoundList;

// Two pairs of nodes, and then one node of each pair with one of the other.
const CROSSING: [(u32, u32); 4] = [(0, 1), (2, 3), (1, 2), (0, 3)];

// How many exchanges each of them waits for, and which wait for it.
const WAITING: [(u32, Option<u32>, Option<u32>); 4] = [
    (0, Some(3), Some(2)),
    (0, Some(2), Some(3)),
    (2, None, None),
    (2, None, None),
];

/// Four nodes that have written their one key.
pub(crate) const FOUR: Writers = Writers {
    nodes: 4,
    keys: 1,
    writers: 4,
};

pub(crate) const ALL_ENTRIES: Rules = Rules {
    mode: Mode::ScuttleBreadth,
    budget: Budget::Entries(10),
};

const EVENTS: &[Event] = &[
    Event::Start(1),
    Event::Start(0),
    Event::Finish(0),
    Event::Finish(1),
    Event::Start(3),
    Event::Start(2),
    Event::Finish(2),
    Event::Finish(3),
];

const TOO_EARLY: &[Event] = &[Event::Start(0), Event::Finish(0), Event::Start(2)];

const RECORDS: &[Record] = &[
    sent!(1, 1, 1, 1, 0, 0),
    sent!(1, 1, 1, 1, 0, 0),
    sent!(2, 2, 2, 2, 0, 0),
    sent!(2, 2, 2, 2, 0, 0),
];

const LEFT: &[Item] = &[
    item!(0, 0, 1, 7, 1),
    item!(1, 0, 1, 7, 1),
    item!(2, 0, 1, 7, 1),
    item!(3, 0, 1, 7, 1),
];

// Whether these are the dependencies of the crossing list, and that list.
fn are_crossing(deps: &Deps) -> bool {
    if deps.len() != 4 || deps.first_ready() != [0, 1].as_slice() {
        return false;
    }
    for i in 0..4 {
        let (initiator, responder) = CROSSING[i as usize];
        let (pending, first, second) = WAITING[i as usize];
        if deps.exchange(i) != between(initiator, responder)
            || deps.pending(i) != pending
            || deps.after(i) != (After { first, second })
        {
            return false;
        }
    }
    true
}

pub(crate) fn crossing<R: Eprint + AllocGlobal>(rt: &R) -> Result<RoundList, Failure>
    ensures { IfOk result (λ list. list.nodes ≡ 4) }
{
    let alloc = rt.alloc();
    Ok(retried!(rt, "RoundList::of", list_of(alloc, 4, &CROSSING)))
}

pub(crate) fn deps_of<R: Eprint + AllocGlobal>(rt: &R, list: &RoundList) -> Result<Deps, Failure>
    ensures { IfOk result (λ deps. deps ≡ list.now) }
{
    let alloc = rt.alloc();
    Ok(retried!(rt, "Deps::new", Deps::new(alloc, list)))
}

fn try_schedule<R: Eprint + AllocGlobal>(rt: &R, deps: Deps) -> Result<(), Failure> {
    match Schedule::new(rt.alloc(), deps) {
        Ok(schedule) => check_schedule(&schedule),
        Err((fault, deps)) => {
            refused(rt, "Schedule::new", fault)?;
            check(are_crossing(&deps))?;
            let schedule = Schedule::new(rt.alloc(), deps).map_err(|(fault, _)| fault)?;
            check_schedule(&schedule)
        }
    }
}

// A schedule of the crossing list, of which nothing has begun.
fn check_schedule(schedule: &Schedule) -> Result<(), Failure> {
    check(schedule.next_ready() == Some(0) && schedule.may_start(1) && !schedule.may_start(2))?;
    check(schedule.running_count() == 0 && schedule.done_count() == 0)
}

// Plays a schedule on fresh tables. Where memory is refused these are given up.
fn played<R: AllocGlobal>(
    rt: &R,
    list: &RoundList,
    events: &[Event],
) -> Result<(Vec<NodeTable>, Vec<Record>), Failure>
    requires { list.now.nodes ≡ 4 }
{
    let tables = tables_of(rt.alloc(), FOUR)?;
    Ok(play(rt.alloc(), list, tables, events, &ALL_ENTRIES)?)
}

// The fault of a schedule that may not be played, or that isn't played to its end.
fn try_unlawful<R: Eprint + AllocGlobal>(
    rt: &R,
    list: &RoundList,
    events: &[Event],
    wanted: Fault,
) -> Result<(), Failure>
    requires { list.now.nodes ≡ 4 }
{
    let mut answer = played(rt, list, events);
    if let Err(Failure::Fault(Fault::OutOfMemory)) = answer {
        refused(rt, "play", Fault::OutOfMemory)?;
        answer = played(rt, list, events);
    }
    match answer {
        Err(Failure::Fault(fault)) if fault == wanted => Ok(()),
        Err(other) => Err(other),
        Ok(_) => Err(Failure::Wrong),
    }
}

fn try_play<R: Eprint + AllocGlobal>(rt: &R, list: &RoundList) -> Result<(), Failure>
    requires { list.now.nodes ≡ 4 }
{
    let (tables, records) = retried!(rt, "play", played(rt, list, EVENTS));
    check(records.as_slice() == RECORDS)?;
    check(tables.len() == 4 && tables.iter().all(|table| holds(table, LEFT)))
}

// The dependencies of a list, and a schedule of it.
fn try_deps<R: Print + Eprint + AllocGlobal>(rt: &R, list: &RoundList) -> Result<(), Failure> {
    let deps = deps_of(rt, list)?;
    check(are_crossing(&deps))?;
    pass(rt, "Deps::new")?;
    try_schedule(rt, deps)?;
    pass(rt, "Schedule::new")
}

fn try_plays<R: Print + Eprint + AllocGlobal>(rt: &R, list: &RoundList) -> Result<(), Failure>
    requires { list.now.nodes ≡ 4 }
{
    try_play(rt, list)?;
    try_unlawful(rt, list, TOO_EARLY, Fault::NotAllowed)?;
    try_unlawful(rt, list, &[], Fault::Unfinished)?;
    pass(rt, "play")
}

pub(crate) fn try_schedules<R: Print + Eprint + AllocGlobal>(rt: &R) -> Result<(), Failure> {
    let list = crossing(rt)?;
    try_deps(rt, &list)?;
    try_plays(rt, &list)
}
