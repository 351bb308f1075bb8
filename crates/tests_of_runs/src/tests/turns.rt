//! Two seats that take turns.

ghost use Rattle.std.specs.Prelude.{◌≡◌, ◌<◌, length, IfOk};
ghost use Rattle.board.specs.Weights.{Has};
ghost use Rattle.board.specs.SeatView.{first_seat};
ghost use Rattle.node_table.specs.NodeTableView.{kept_table};
ghost use Rattle.board.specs.Boards.{plan_of, exchanges_of, IsSeatOf, IsHoldOf, seat_view};

use crate::tests::comparing::{check, expect};
use crate::tests::jobs::Job;
use crate::tests::seats::expect_claim;
use crate::tests::small_boards::{ONE_ENTRY, list_of};
use crate::tests::tables::{Board, Hold, Seat};
use bench_types::Fault;
use board::{Claim, Freed};
use std::alloc::AllocGlobal;
use std::process::Abort;

/// Two nodes that meet twice.
const PAIR: &[(u32, u32)] = &[(0, 1), (1, 0)];

/// An exchange that is held by the seat now.
pub(crate) fn held(rt: &impl Abort, board: &Board, seat: &mut Seat, i: u32) -> Hold
    requires within { i < length (exchanges_of board.now) }
    requires seat { IsSeatOf kept_table seat.old board.now }
    ensures seat { IsSeatOf kept_table seat.new board.now }
    ensures parts { (seat_view seat.new).parts ≡ (seat_view seat.old).parts }
    ensures held { Has (seat_view seat.new).held result.index }
    ensures hold { IsHoldOf kept_table (plan_of kept_table board.now) result.index result }
{
    match board.claim(seat, i) {
        Claim::Held(hold) => hold,
        _ => panic!(rt; "exchange {i} isn't held"),
    }
}

/// Does it, which makes the next ready, if there is one.
pub(crate) fn expect_next(
    rt: &(impl Abort + AllocGlobal),
    job: &Job,
    seat: &mut Seat,
    hold: Hold,
    next: Option<u32>,
) -> Result<(), Fault>
    requires seat { IsSeatOf kept_table seat.old job.now.board }
    requires held { Has (seat_view seat.old).held hold.index }
    requires hold { IsHoldOf kept_table (plan_of kept_table job.now.board) hold.index hold }
    ensures seat { IsSeatOf kept_table seat.new job.now.board }
{
    let freed = Freed {
        first: next,
        second: None,
    };
    expect(rt, job.carry_out(rt, seat, hold)?, freed);
    Ok(())
}

// The first exchange, whose end makes the second ready for a seat that was split off before.
fn first_of_two(rt: &(impl Abort + AllocGlobal), job: &Job, first: &mut Seat) -> Result<Seat, Fault>
    requires two { length (exchanges_of job.now.board) ≡ 2 }
    requires first { IsSeatOf kept_table first.old job.now.board }
    requires fresh { seat_view first.old ≡ first_seat }
    ensures first { IsSeatOf kept_table first.new job.now.board }
    ensures second { IfOk result (λ second. IsSeatOf kept_table second job.now.board) }
{
    expect_claim(rt, &job.board, first, 1, "not ready");
    let hold = held(rt, &job.board, first, 0);
    expect_claim(rt, &job.board, first, 0, "taken");
    let second = job.board.split(first);
    expect_next(rt, job, first, hold, Some(1))?;
    Ok(second)
}

// The second exchange, of nodes that each hold both entries.
fn second_of_two(rt: &(impl Abort + AllocGlobal), job: &Job, second: &mut Seat) -> Result<(), Fault>
    requires two { length (exchanges_of job.now.board) ≡ 2 }
    requires second { IsSeatOf kept_table second.old job.now.board }
    ensures second { IsSeatOf kept_table second.new job.now.board }
{
    let hold = held(rt, &job.board, second, 1);
    check!(rt; hold.initiator.count() == 2 && hold.responder.count() == 2);
    expect_next(rt, job, second, hold, None)
}

fn expect_both_entries(rt: &impl Abort, board: Board, seat: Seat) -> Result<(), Fault>
    requires seat { IsSeatOf kept_table seat board }
{
    let tables = board.close(seat)?;
    check!(rt; tables.len() == 2 && tables[0].count() == 2 && tables[1].count() == 2);
    Ok(())
}

#[test]
fn two_seats_on_one_board(rt: HostRuntime) -> Result<(), Fault> {
    let (job, mut first) = Job::new(&rt, list_of(&rt, 2, PAIR), 1, ONE_ENTRY)?;
    let mut second = first_of_two(&rt, &job, &mut first)?;
    expect(&rt, job.board.look(&mut first).finished, 1);
    second_of_two(&rt, &job, &mut second)?;
    let Job { board, .. } = job;
    expect(&rt, board.look(&mut first).finished, 2);
    board.join(&mut first, second);
    expect_both_entries(&rt, board, first)
}
