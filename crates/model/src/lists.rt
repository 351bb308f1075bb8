//! The list of exchanges of one round.

ghost use Rattle.std.specs.Prelude.{◌≡◌, ◌==◌, ◌↔◌, length, slice_get, IsSome, IfSome, IsTrue};
ghost use Rattle.bench_types.specs.calls.Exchange.{IsPlanned};
ghost use Rattle.model.specs.RoundLists.{RoundListView, round_list_view};
ghost use Rattle.model.specs.calls.RoundLists.{IsRoundPlan};

use bench_types::Exchange;
use bench_types::limits::{LEAST_NODES, MOST_NODES};
use std::marker::Model;

/// The most exchanges of a round: one for each node.
pub const MOST_EXCHANGES: u32 = MOST_NODES;

/// The exchanges of one round, in their order: each of two nodes, among 2 to 4096 in all.
#[derive(Debug, Drop)]
pub struct RoundList {
    nodes: u32,
    unreached: u32,
    exchanges: Vec<Exchange>,
}

impl Model for RoundList {
    ghost use Rattle.model.specs.RoundLists.{RoundListView, round_list_view};
    ghost use Rattle.model.specs.calls.RoundLists.{IsRoundPlan};

    ghost Value = { RoundListView };

    ghost view = { λ l. round_list_view l.nodes l.unreached l.exchanges.items };

    ghost invariant = { λ l. IsRoundPlan (round_list_view l.nodes l.unreached l.exchanges.items) };
}

impl RoundList {
    /// The list of these exchanges, where they are a round's plan. Costs a step for each of them.
    pub fn of(nodes: u32, unreached: u32, exchanges: Vec<Exchange>) -> Option<RoundList>
        ensures lawful { IsSome result ↔ IsRoundPlan (round_list_view nodes unreached exchanges.items) }
        ensures value { IfSome result (λ list. list ≡ round_list_view nodes unreached exchanges.items) }
    {
        let is_lawful = (LEAST_NODES..=MOST_NODES).contains(&nodes)
            && exchanges.len() <= MOST_EXCHANGES as usize
            && exchanges.iter().all(|exchange| is_planned(nodes, exchange));
        if is_lawful {
            Some(RoundList {
                nodes,
                unreached,
                exchanges,
            })
        } else {
            None
        }
    }

    /// As `of`, for what is known to be a plan.
    pub fn planned(nodes: u32, unreached: u32, exchanges: Vec<Exchange>) -> RoundList
        requires { IsRoundPlan (round_list_view nodes unreached exchanges.items) }
        ensures { result ≡ round_list_view nodes unreached exchanges.items }
    {
        RoundList {
            nodes,
            unreached,
            exchanges,
        }
    }

    /// How many exchanges there are.
    pub fn len(&self) -> u32
        ensures value { result ≡ length self.now.exchanges }
        ensures kept { IsRoundPlan self.now }
    {
        self.exchanges.len() as u32
    }

    pub fn is_empty(&self) -> bool
        ensures value { result ≡ (length self.now.exchanges == 0) }
        ensures kept { IsRoundPlan self.now }
    {
        self.exchanges.is_empty()
    }

    /// The exchange at a place of the list, from 0; none past the end.
    pub fn get(&self, i: u32) -> Option<Exchange>
        ensures value { result ≡ slice_get self.now.exchanges i }
        ensures planned { IfSome result (IsPlanned self.now.nodes) }
        ensures kept { IsRoundPlan self.now }
    {
        self.exchanges.get(i as usize).copied()
    }

    /// All of them, in order.
    pub fn exchanges(&self) -> &[Exchange]
        ensures value { result.now ≡ self.now.exchanges }
        ensures kept { IsRoundPlan self.now }
    {
        &self.exchanges
    }

    /// How many nodes there are.
    pub fn nodes(&self) -> u32
        ensures value { result ≡ self.now.nodes }
        ensures kept { IsRoundPlan self.now }
    {
        self.nodes
    }

    /// How many nodes are up and make no exchange, since their peer is out of reach.
    pub fn unreached(&self) -> u32
        ensures value { result ≡ self.now.unreached }
        ensures kept { IsRoundPlan self.now }
    {
        self.unreached
    }
}

fn is_planned(nodes: u32, exchange: &Exchange) -> bool
    ensures { IsTrue result ↔ IsPlanned nodes exchange.now }
{
    exchange.initiator < nodes
        && exchange.responder < nodes
        && exchange.initiator != exchange.responder
        && exchange.rotation < nodes
}
