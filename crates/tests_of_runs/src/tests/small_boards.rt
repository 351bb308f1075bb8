//! Boards of nodes that have written each of their keys once.

ghost use Rattle.std.specs.Prelude.{◌≡◌, ◌≤◌, length, IfOk};
ghost use Rattle.limits.specs.declared.TheConstants.{MOST_KEYS};
ghost use Rattle.node_table.specs.NodeTableView.{kept_table};
ghost use Rattle.board.specs.Boards.{plan_of, IsSeatOf, seat_view};
ghost use Rattle.board.specs.SeatView.{first_seat};

use crate::tests::comparing::expect;
use crate::tests::tables::{Board, Seat};
use bench_types::{Budget, Fault, Mode, Rules};
use dependencies::Deps;
use fixtures::{WRITTEN, Writers, tables_of};
use node_table::NodeTable;
use round_plan::RoundList;
use std::alloc::AllocGlobal;
use std::process::Abort;

/// One entry each way, which is all that two of these nodes have to tell when they first meet.
pub(crate) const ONE_ENTRY: Rules = Rules {
    mode: Mode::ScuttleBreadth,
    budget: Budget::Entries(1),
};

/// Four pairs, and then each node meets one of another pair. At each of its two meetings a node is told of one key
/// that it lacks.
pub(crate) const CROSSING: &[(u32, u32)] = &[
    (0, 1),
    (2, 3),
    (4, 5),
    (6, 7),
    (1, 2),
    (3, 4),
    (5, 6),
    (7, 0),
];

/// Two pairs of nodes that meet twice, the second time the other way round.
pub(crate) const TWICE: &[(u32, u32)] = &[(0, 2), (1, 3), (2, 0), (3, 1)];

/// The list of a round that has these exchanges and reached every node. It stops where no round has them.
pub(crate) fn list_of(
    rt: &(impl Abort + AllocGlobal),
    nodes: u32,
    pairs: &[(u32, u32)],
) -> RoundList
    ensures size { (result.nodes ≡ nodes) × (length result.exchanges ≡ length pairs.now) }
{
    fixtures::list_of(rt.alloc(), nodes, pairs).expect(rt, "a list of these nodes")
}

/// A board of a round's exchanges, and its first seat. Each node has written its keys once.
pub(crate) fn board_of(
    rt: &(impl Abort + AllocGlobal),
    list: &RoundList,
    keys: u32,
    rules: &Rules,
) -> Result<(Board, Seat), Fault>
    requires keys { (1 ≤ keys) × (keys ≤ MOST_KEYS) }
    ensures list { IfOk result (λ made. (plan_of kept_table made.0).list ≡ list.now) }
    ensures rules { IfOk result (λ made. (plan_of kept_table made.0).rules ≡ rules.now) }
    ensures seat { IfOk result (λ made. IsSeatOf kept_table made.1 made.0 × (seat_view made.1 ≡ first_seat)) }
{
    let tables = tables_of(rt.alloc(), Writers::all(list.nodes(), keys))?;
    Board::new(rt.alloc(), Deps::new(rt.alloc(), list)?, *rules, tables)
}

/// A table that holds the first keys of these owners, and nothing else.
pub(crate) fn expect_owners(rt: &impl Abort, table: &NodeTable, owners: &[u32]) {
    let node = table.node();
    expect(rt, (node, table.count() as usize), (node, owners.len()));
    for owner in owners {
        let held = table.get(*owner, 0);
        expect(rt, (node, *owner, held), (node, *owner, Some(WRITTEN)));
    }
}
