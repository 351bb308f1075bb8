//! Two threads of a scope that share a board.

ghost use Rattle.std.specs.Prelude.{◌≤◌, ◌<◌, length};
ghost use Rattle.node_table.specs.NodeTableView.{kept_table};
ghost use Rattle.board.specs.Boards.{exchanges_of, IsSeatOf};
ghost use Rattle.tests_of_runs.specs.Seats.{AreSeatsOf};

use crate::tests::comparing::expect;
use crate::tests::jobs::Job;
use crate::tests::small_boards::{ONE_ENTRY, TWICE, expect_owners, list_of};
use crate::tests::tables::{Board, Seat};
use crate::tests::threads::{Worked, together};
use crate::tests::turns::{expect_next, held};
use bench_types::Fault;
use node_table::NodeTable;
use std::alloc::AllocGlobal;
use std::process::Abort;
use std::snapshot::Snapshot;
use std::sync::Wait;
use std::thread;
use std::thread::{Promise, Scope, Threads};

// What a thread promises: that it comes back with a seat of this board.
#[derive(Drop)]
struct SeatOf(Snapshot<Board>);

impl Promise<Worked> for SeatOf {
    ghost kept_by = { λ promise worked. IsSeatOf kept_table worked.seat promise.0.value };
}

// Claims an exchange, does it and puts it back, which makes another ready, and then the same with that one,
// which makes none ready.
fn do_both(
    rt: &(impl Abort + AllocGlobal),
    job: &Job,
    mut seat: Seat,
    first: u32,
    second: u32,
) -> Worked
    requires first { first < length (exchanges_of job.now.board) }
    requires second { second < length (exchanges_of job.now.board) }
    requires seat { IsSeatOf kept_table seat job.now.board }
    ensures seat { IsSeatOf kept_table result.seat job.now.board }
{
    let hold = held(rt, &job.board, &mut seat, first);
    expect_next(rt, job, &mut seat, hold, Some(second)).expect(rt, "memory");
    let hold = held(rt, &job.board, &mut seat, second);
    expect_next(rt, job, &mut seat, hold, None).expect(rt, "memory");
    let made = Vec::from_slice(rt.alloc(), &[first, second]).expect(rt, "memory");
    Worked { seat, made }
}

// One thread does exchange 0 and then 2, the other 1 and then 3.
fn do_all<R: Abort + AllocGlobal + Threads + Wait + Sync>(
    rt: &R,
    job: &Job,
    seats: (Seat, Seat),
) -> Worked
    requires four { 4 ≤ length (exchanges_of job.now.board) }
    requires seats { AreSeatsOf job.now.board seats.0 seats.1 }
    ensures seat { IsSeatOf kept_table result.seat job.now.board }
{
    thread::scope(
        thread::scope_env(),
        rt,
        |scope| -> Worked
            requires four { 4 ≤ length (exchanges_of job.now.board) }
            requires seats { AreSeatsOf job.now.board seats.0 seats.1 }
        { do_all_in_scope(scope, rt, job, seats) },
    )
}

// The same, in an open scope.
fn do_all_in_scope<'s, 'e: 's, R: Abort + AllocGlobal + Threads + Sync>(
    scope: &Scope<'s, &'e ()>,
    rt: &'e R,
    job: &'e Job,
    seats: (Seat, Seat),
) -> Worked
    requires four { 4 ≤ length (exchanges_of job.now.board) }
    requires seats { AreSeatsOf job.now.board seats.0 seats.1 }
    ensures seat { IsSeatOf kept_table result.seat job.now.board }
{
    let (first, second) = seats;
    let one = scope.spawn_with(
        SeatOf(Snapshot::of(&job.board)),
        move || do_both(rt, job, first, 0, 2),
    );
    let two = scope.spawn_with(
        SeatOf(Snapshot::of(&job.board)),
        move || do_both(rt, job, second, 1, 3),
    );
    let (Ok(one), Ok(two)) = (one, two) else {
        panic!(rt; "a thread didn't start")
    };
    let (one, two) = (one.join(rt), two.join(rt));
    together(rt, &job.board, one, two)
}

// Nodes 0 and 2 hold the entries of both, and so do nodes 1 and 3.
fn expect_pairs(rt: &impl Abort, tables: &[NodeTable]) {
    expect(rt, tables.len(), 4);
    for (table, owners) in tables.iter().zip([[0, 2], [1, 3], [0, 2], [1, 3]]) {
        expect_owners(rt, table, &owners);
    }
}

fn expect_each_once(rt: &impl Abort, mut made: Vec<u32>) {
    made.sort_unstable();
    expect(rt, made.as_slice(), [0, 1, 2, 3].as_slice());
}

#[test]
fn two_scoped_threads_on_one_board(rt: HostRuntime) -> Result<(), Fault> {
    let (job, mut first) = Job::new(&rt, list_of(&rt, 4, TWICE), 1, ONE_ENTRY)?;
    let second = job.board.split(&mut first);
    let Worked { mut seat, made } = do_all(&rt, &job, (first, second));
    expect_each_once(&rt, made);
    expect(&rt, job.board.look(&mut seat).finished, 4);
    let Job { board, .. } = job;
    expect_pairs(&rt, &board.close(seat)?);
    Ok(())
}
