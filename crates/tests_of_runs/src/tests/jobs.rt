//! Exchanges of a board, carried out.

ghost use Rattle.std.specs.Prelude.{◌≡◌, ◌≤◌, IfOk};
ghost use Rattle.limits.specs.declared.TheConstants.{MOST_KEYS};
ghost use Rattle.bench_types.specs.calls.Budget.{IsLawfulBudget};
ghost use Rattle.board.specs.Weights.{Has};
ghost use Rattle.board.specs.SeatView.{first_seat};
ghost use Rattle.model.specs.calls.Exchanging.{MayBeExchanged};
ghost use Rattle.node_table.specs.NodeTableView.{kept_table};
ghost use Rattle.board.specs.Boards.{plan_of, IsSeatOf, IsHoldOf, seat_view};

use crate::tests::comparing::check;
use crate::tests::small_boards::board_of;
use crate::tests::tables::{Board, Hold, Seat};
use bench_types::{Exchange, Fault, Rules};
use board::Freed;
use exchange::exchange;
use node_table::NodeTable;
use round_plan::RoundList;
use std::alloc::AllocGlobal;
use std::process::Abort;

/// A board, and the list and the rules that it was made of.
#[derive(Drop)]
pub(crate) struct Job {
    pub board: Board,
    pub list: RoundList,
    pub rules: Rules,
    ghost same_list: { (plan_of kept_table board).list ≡ list },
    ghost same_rules: { (plan_of kept_table board).rules ≡ rules },
    ghost budget: { IsLawfulBudget rules.budget },
}

impl Job {
    /// A board of a round's exchanges, and its first seat. Each node has written its keys once.
    pub(crate) fn new(
        rt: &(impl Abort + AllocGlobal),
        list: RoundList,
        keys: u32,
        rules: Rules,
    ) -> Result<(Job, Seat), Fault>
        requires keys { (1 ≤ keys) × (keys ≤ MOST_KEYS) }
        requires budget { IsLawfulBudget rules.budget }
        ensures list { IfOk result (λ made. made.0.list ≡ list) }
        ensures seat { IfOk result (λ made. IsSeatOf kept_table made.1 made.0.board × (seat_view made.1 ≡ first_seat)) }
    {
        let (board, seat) = board_of(rt, &list, keys, &rules)?;
        Ok((Job { board, list, rules }, seat))
    }

    /// Does a held exchange and puts it back.
    pub(crate) fn carry_out(
        &self,
        rt: &(impl Abort + AllocGlobal),
        seat: &mut Seat,
        mut hold: Hold,
    ) -> Result<Freed, Fault>
        requires seat { IsSeatOf kept_table seat.old self.now.board }
        requires held { Has (seat_view seat.old).held hold.index }
        requires hold { IsHoldOf kept_table (plan_of kept_table self.now.board) hold.index hold }
        ensures seat { IsSeatOf kept_table seat.new self.now.board }
    {
        let (initiator, responder) = (&mut hold.initiator, &mut hold.responder);
        let plan = self
            .list
            .get(hold.index)
            .expect(rt, "an exchange of the list");
        expect_tables_of(rt, &plan, initiator, responder);
        exchange(rt.alloc(), initiator, responder, &plan, &self.rules)?;
        Ok(self.board.put_back(seat, hold))
    }
}

/// Sees that the exchange may be carried out on these tables.
pub(crate) fn expect_tables_of(
    rt: &impl Abort,
    plan: &Exchange,
    initiator: &NodeTable,
    responder: &NodeTable,
)
    ensures { MayBeExchanged plan.now initiator.now.table responder.now.table }
{
    check!(rt; initiator.node() == plan.initiator && responder.node() == plan.responder);
    check!(rt;
        initiator.nodes() == responder.nodes()
            && initiator.keys() == responder.keys()
            && plan.rotation < initiator.nodes()
    );
}
