//! Boards, and what collects records.

ghost use Rattle.std.specs.Prelude.{◌≡◌, IfOk};
ghost use Rattle.node_table.specs.NodeTableView.{kept_table};
ghost use Rattle.board.specs.Boards.{IsSeatOf};

use crate::failures::{Failure, check, pass, refused, retried};
use crate::schedules::{ALL_ENTRIES, FOUR, crossing, deps_of};
use bench_types::{Fault, Record};
use collector::{Collector, Stamped};
use fixtures::{sent, tables_of};
use node_table::NodeTable;
use planner::Deps;

type Board = board::Board<NodeTable>;

type Seat = board::Seat<NodeTable>;

const FIRST: Record = sent!(1, 1, 1, 1, 0, 0);

const SECOND: Record = sent!(2, 2, 2, 2, 0, 0);

fn crossing_deps<R: Eprint + AllocGlobal>(rt: &R) -> Result<Deps, Failure>
    ensures { IfOk result (λ deps. deps.nodes ≡ 4) }
{
    let list = crossing(rt)?;
    deps_of(rt, &list)
}

// A board of four nodes with fresh tables. Where memory is refused these are given up.
fn board_of<R: Eprint + AllocGlobal>(rt: &R) -> Result<Result<(Board, Seat), Fault>, Failure>
    ensures { IfOk result (λ answer. IfOk answer (λ made. IsSeatOf kept_table made.1 made.0)) }
{
    let alloc = rt.alloc();
    let deps = crossing_deps(rt)?;
    let tables = retried!(rt, "tables", tables_of(alloc, FOUR));
    Ok(Board::new(alloc, deps, ALL_ENTRIES, tables))
}

// A board is closed before any exchange is finished.
fn check_unfinished(board: Board, seat: Seat) -> Result<(), Failure>
    requires { IsSeatOf kept_table seat board }
{
    match board.close(seat) {
        Err(Fault::Unfinished) => Ok(()),
        _ => Err(Failure::Wrong),
    }
}

fn try_board<R: Eprint + AllocGlobal>(rt: &R) -> Result<(), Failure> {
    match board_of(rt)? {
        Ok((board, seat)) => check_unfinished(board, seat),
        Err(fault) => {
            refused(rt, "Board::new", fault)?;
            let (board, seat) = board_of(rt)??;
            check_unfinished(board, seat)
        }
    }
}

fn try_collector<R: Eprint + AllocGlobal>(rt: &R) -> Result<(), Failure> {
    let alloc = rt.alloc();
    let mut collector = retried!(rt, "Collector::new", Collector::new(alloc, 2));
    for (index, outcome) in [(1, SECOND), (0, FIRST)] {
        collector.put(Stamped { index, outcome })?;
    }
    match collector.finish() {
        Ok(records) => check(records.as_slice() == [FIRST, SECOND].as_slice()),
        Err((fault, _)) => Err(Failure::Fault(fault)),
    }
}

pub(crate) fn try_boards<R: Print + Eprint + AllocGlobal>(rt: &R) -> Result<(), Failure> {
    try_board(rt)?;
    pass(rt, "Board::new")?;
    try_collector(rt)?;
    pass(rt, "Collector::new")
}
