//! Threads that share a board.

ghost use Rattle.std.specs.Prelude.{◌<◌, length};
ghost use Rattle.node_table.specs.NodeTableView.{kept_table};
ghost use Rattle.board.specs.Boards.{exchanges_of, IsSeatOf};
ghost use Rattle.tests_of_runs.specs.Seats.{AreSeatsOf};

use crate::tests::comparing::check;
use crate::tests::jobs::Job;
use crate::tests::small_boards::{CROSSING, ONE_ENTRY, list_of};
use crate::tests::tables::{Board, Seat};
use bench_types::Fault;
use board::Claim;
use std::alloc::AllocGlobal;
use std::process::Abort;
use std::thread;
use std::thread::Threads;

/// How often a thread goes through the list at most.
const TURNS: u32 = 1_000_000;

/// In which order a thread claims the exchanges of a list.
#[derive(Clone, Copy)]
pub(crate) enum Order {
    Ascending,
    Descending,
    Shuffled,
}

/// What a thread comes back with: its seat, and the exchanges that it has put back.
#[derive(Drop)]
pub(crate) struct Worked {
    pub seat: Seat,
    pub made: Vec<u32>,
}

impl Order {
    // The exchange that comes at a place. The shuffle goes by steps of a prime number.
    fn at(self, place: u32, len: u32) -> u32
        requires { place < len }
        ensures { result < len }
    {
        match self {
            Order::Ascending => place,
            Order::Descending => len - 1 - place,
            Order::Shuffled => ((u64::from(place) * 1237 + 5) % u64::from(len)) as u32,
        }
    }
}

fn try_one(rt: &(impl Abort + AllocGlobal), job: &Job, worked: &mut Worked, i: u32)
    requires within { i < length (exchanges_of job.now.board) }
    requires seat { IsSeatOf kept_table worked.old.seat job.now.board }
    ensures seat { IsSeatOf kept_table worked.new.seat job.now.board }
{
    if let Claim::Held(hold) = job.board.claim(&mut worked.seat, i) {
        job.carry_out(rt, &mut worked.seat, hold)
            .expect(rt, "memory");
        worked.made.push(i).expect(rt, "memory");
    }
}

fn try_each(rt: &(impl Abort + AllocGlobal), job: &Job, worked: &mut Worked, order: Order)
    requires seat { IsSeatOf kept_table worked.old.seat job.now.board }
    ensures seat { IsSeatOf kept_table worked.new.seat job.now.board }
{
    let len = job.list.len();
    for place in 0..len {
        try_one(rt, job, worked, order.at(place, len));
    }
}

// Goes through the list until all exchanges are put back.
fn work(rt: &(impl Abort + AllocGlobal), job: &Job, seat: Seat, order: Order) -> Worked
    requires seat { IsSeatOf kept_table seat job.now.board }
    ensures seat { IsSeatOf kept_table result.seat job.now.board }
{
    let mut worked = Worked {
        seat,
        made: Vec::new(rt.alloc()),
    };
    for _ in 0..TURNS {
        try_each(rt, job, &mut worked, order);
        if job.board.look(&mut worked.seat).finished == job.list.len() {
            break;
        }
    }
    worked
}

/// Joins what two threads came back with.
pub(crate) fn together(rt: &impl Abort, board: &Board, mut first: Worked, second: Worked) -> Worked
    requires seats { AreSeatsOf board.now first.seat second.seat }
    ensures seat { IsSeatOf kept_table result.seat board.now }
{
    board.join(&mut first.seat, second.seat);
    first
        .made
        .extend_from_slice(&second.made)
        .expect(rt, "memory");
    first
}

/// Two threads go through the list, one in this order, one from the end.
pub(crate) fn work_in_two<R: Abort + AllocGlobal + Threads + Sync>(
    rt: &R,
    job: &Job,
    seats: (Seat, Seat),
    order: Order,
) -> Worked
    requires seats { AreSeatsOf job.now.board seats.0 seats.1 }
    ensures seat { IsSeatOf kept_table result.seat job.now.board }
{
    let (first, second) = seats;
    let (one, two) = thread::join(
        rt,
        move || work(rt, job, first, order),
        move || work(rt, job, second, Order::Descending),
    );
    together(rt, &job.board, one, two)
}

/// Three threads go through the list: in a shuffled order, in ascending order, and from the end.
pub(crate) fn work_in_three<R: Abort + AllocGlobal + Threads + Sync>(
    rt: &R,
    job: &Job,
    first: Seat,
    others: (Seat, Seat),
) -> Worked
    requires first { IsSeatOf kept_table first job.now.board }
    requires others { AreSeatsOf job.now.board others.0 others.1 }
    ensures seat { IsSeatOf kept_table result.seat job.now.board }
{
    let (one, two) = thread::join(
        rt,
        move || work(rt, job, first, Order::Shuffled),
        move || -> Worked
            requires seats { AreSeatsOf job.now.board others.0 others.1 }
        { work_in_two(rt, job, others, Order::Ascending) },
    );
    together(rt, &job.board, one, two)
}

/// Four threads go through the list: in ascending order, in a shuffled order, and two from the end.
pub(crate) fn work_in_four<R: Abort + AllocGlobal + Threads + Sync>(
    rt: &R,
    job: &Job,
    firsts: (Seat, Seat),
    others: (Seat, Seat),
) -> Worked
    requires firsts { AreSeatsOf job.now.board firsts.0 firsts.1 }
    requires others { AreSeatsOf job.now.board others.0 others.1 }
    ensures seat { IsSeatOf kept_table result.seat job.now.board }
{
    let (one, two) = thread::join(
        rt,
        move || -> Worked
            requires seats { AreSeatsOf job.now.board firsts.0 firsts.1 }
        { work_in_two(rt, job, firsts, Order::Ascending) },
        move || -> Worked
            requires seats { AreSeatsOf job.now.board others.0 others.1 }
        { work_in_two(rt, job, others, Order::Shuffled) },
    );
    together(rt, &job.board, one, two)
}

#[test]
fn two_threads_on_one_board(rt: HostRuntime) -> Result<(), Fault> {
    let (job, mut first) = Job::new(&rt, list_of(&rt, 8, CROSSING), 1, ONE_ENTRY)?;
    let second = job.board.split(&mut first);
    let worked = work_in_two(&rt, &job, (first, second), Order::Ascending);
    let Job { board, .. } = job;
    let tables = board.close(worked.seat)?;
    check!(&rt; tables.len() == 8 && tables.iter().all(|table| table.count() == 3));
    Ok(())
}
