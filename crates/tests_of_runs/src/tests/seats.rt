//! Seats that claim, look and stop.

ghost use Rattle.std.specs.Prelude.{ℕ, ◌≡◌, ◌<◌, length};
ghost use Rattle.board.specs.Weights.{Has};
ghost use Rattle.node_table.specs.NodeTableView.{kept_table};
ghost use Rattle.board.specs.Boards.{exchanges_of, IsSeatOf, seat_view};

use crate::tests::comparing::expect;
use crate::tests::small_boards::{ONE_ENTRY, TWICE, board_of, expect_owners, list_of};
use crate::tests::tables::{Board, Seat};
use bench_types::Fault;
use board::{Claim, Progress};
use node_table::NodeTable;
use std::process::Abort;

// The answer in a word.
fn answer_to(claim: &Claim<NodeTable>) -> &'static str {
    match claim {
        Claim::Held(_) => "held",
        Claim::Taken => "taken",
        Claim::NotReady => "not ready",
    }
}

pub(crate) fn expect_claim(rt: &impl Abort, board: &Board, seat: &mut Seat, i: u32, answer: &str)
    requires within { i < length (exchanges_of board.now) }
    requires seat { IsSeatOf kept_table seat.old board.now }
    ensures seat { IsSeatOf kept_table seat.new board.now }
    ensures parts { (seat_view seat.new).parts ≡ (seat_view seat.old).parts }
    ensures held { (k : ℕ) → Has (seat_view seat.old).held k → Has (seat_view seat.new).held k }
{
    let claim = board.claim(seat, i);
    expect(rt, answer_to(&claim), answer);
}

// It is held with the tables of these two nodes, each of which has its own entry alone.
fn expect_fresh(rt: &impl Abort, board: &Board, seat: &mut Seat, i: u32, nodes: (u32, u32))
    requires within { i < length (exchanges_of board.now) }
    requires seat { IsSeatOf kept_table seat.old board.now }
    ensures seat { IsSeatOf kept_table seat.new board.now }
    ensures parts { (seat_view seat.new).parts ≡ (seat_view seat.old).parts }
{
    let Claim::Held(hold) = board.claim(seat, i) else {
        panic!(rt; "exchange {i} isn't held")
    };
    let (initiator, responder) = (&hold.initiator, &hold.responder);
    expect(rt, (initiator.node(), responder.node()), nodes);
    expect_owners(rt, initiator, &[nodes.0]);
    expect_owners(rt, responder, &[nodes.1]);
}

fn expect_unfinished(rt: &impl Abort, board: Board, seat: Seat)
    requires seat { IsSeatOf kept_table seat board }
{
    match board.close(seat) {
        Ok(_) => panic!(rt; "closed"),
        Err(fault) => expect(rt, fault, Fault::Unfinished),
    }
}

#[test]
fn claims_of_two_seats(rt: HostRuntime) -> Result<(), Fault> {
    let (board, mut first) = board_of(&rt, &list_of(&rt, 4, TWICE), 1, &ONE_ENTRY)?;
    let mut second = board.split(&mut first);
    expect_fresh(&rt, &board, &mut first, 0, (0, 2));
    expect_fresh(&rt, &board, &mut second, 1, (1, 3));
    expect_claim(&rt, &board, &mut second, 0, "taken");
    expect_claim(&rt, &board, &mut second, 2, "not ready");
    expect_claim(&rt, &board, &mut second, 3, "not ready");
    board.join(&mut first, second);
    expect_unfinished(&rt, board, first);
    Ok(())
}

#[test]
fn a_fresh_board_is_unfinished(rt: HostRuntime) -> Result<(), Fault> {
    let (board, seat) = board_of(&rt, &list_of(&rt, 4, TWICE), 1, &ONE_ENTRY)?;
    expect_unfinished(&rt, board, seat);
    Ok(())
}

#[test]
fn a_stop_is_seen(rt: HostRuntime) -> Result<(), Fault> {
    let (board, mut first) = board_of(&rt, &list_of(&rt, 4, TWICE), 1, &ONE_ENTRY)?;
    let mut second = board.split(&mut first);
    board.stop(&mut first);
    let progress = Progress {
        finished: 0,
        stopped: true,
    };
    expect(&rt, board.look(&mut second), progress);
    expect_claim(&rt, &board, &mut second, 0, "held");
    Ok(())
}
