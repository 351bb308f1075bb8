//! How far a schedule comes, event by event.

use crate::tests::comparing::expect_at;
use crate::tests::exchange_lists::CROSSING;
use crate::tests::predecessors::schedule_of;
use bench_types::Fault;
use planner::{Event, Schedule};
use std::process::Abort;

// Which exchanges may start, which are running, and which are done.
type Places = [&'static [u32]; 3];

// Those of a crossing list at first.
const OPENING: Places = [&[0, 1], &[], &[]];

// Events, their answers, and the places behind them.
const STEPS: &[(Event, Result<(), Fault>, Places)] = &[
    (Event::Start(0), Ok(()), [&[1], &[0], &[]]),
    (Event::Start(0), Err(Fault::NotAllowed), [&[1], &[0], &[]]),
    (Event::Finish(1), Err(Fault::NotRunning), [&[1], &[0], &[]]),
    (Event::Start(1), Ok(()), [&[], &[0, 1], &[]]),
    (Event::Finish(0), Ok(()), [&[], &[1], &[0]]),
    (Event::Finish(1), Ok(()), [&[2, 3], &[], &[0, 1]]),
];

fn answer_to(schedule: &mut Schedule, event: Event) -> Result<(), Fault> {
    match event {
        Event::Start(i) => schedule.start(i),
        Event::Finish(i) => schedule.finish(i),
    }
}

// Four exchanges, and a place past the end, at which there is none.
fn expect_places(rt: &impl Abort, schedule: &Schedule, places: Places) {
    let [ready, running, done] = places;
    for i in 0..5 {
        expect_at(rt, schedule.may_start(i), ready.contains(&i), i);
        expect_at(rt, schedule.is_running(i), running.contains(&i), i);
        expect_at(rt, schedule.is_done(i), done.contains(&i), i);
    }
}

// What is counted, and found first, by going over the list.
fn expect_walks(rt: &impl Abort, schedule: &Schedule, places: Places) {
    let [ready, running, done] = places;
    expect_at(rt, schedule.next_ready(), ready.first().copied(), ready);
    let running_count = schedule.running_count() as usize;
    expect_at(rt, running_count, running.len(), running);
    expect_at(rt, schedule.done_count() as usize, done.len(), done);
}

fn expect_schedule(rt: &impl Abort, schedule: &Schedule, places: Places) {
    expect_places(rt, schedule, places);
    expect_walks(rt, schedule, places);
}

#[test]
fn a_schedule_goes_on(rt: HostRuntime) {
    let mut schedule = schedule_of(&rt, 4, CROSSING);
    expect_schedule(&rt, &schedule, OPENING);
    for (event, answer, places) in STEPS {
        expect_at(&rt, &answer_to(&mut schedule, *event), answer, *event);
        expect_schedule(&rt, &schedule, *places);
    }
}
