//! Exchanges of two nodes that have written one of their keys.

use crate::failures::{Failure, check, pass, retried};
use crate::tables::{OTHER, OWN, written};
use bench_types::{Budget, Exchange, Fate, Item, Mode, Record, Rules};
use exchange::exchange;
use fixtures::{between, holds};
use node_table::NodeTable;
use std::alloc::Global;

// The fate of an exchange, what is sent until then, and what the two nodes then hold.
#[derive(Clone, Copy)]
struct Meeting {
    fate: Fate,
    digest2: u32,
    back: u32,
    forth: u32,
    initiator: &'static [Item],
    responder: &'static [Item],
}

const MEETINGS: [Meeting; 4] = [
    Meeting {
        fate: Fate::Ok,
        digest2: 1,
        back: 1,
        forth: 1,
        initiator: &[OWN, OTHER],
        responder: &[OWN, OTHER],
    },
    Meeting {
        fate: Fate::Lost1,
        digest2: 0,
        back: 0,
        forth: 0,
        initiator: &[OWN],
        responder: &[OTHER],
    },
    Meeting {
        fate: Fate::Lost2,
        digest2: 1,
        back: 1,
        forth: 0,
        initiator: &[OWN],
        responder: &[OTHER],
    },
    Meeting {
        fate: Fate::Lost3,
        digest2: 1,
        back: 1,
        forth: 1,
        initiator: &[OWN, OTHER],
        responder: &[OTHER],
    },
];

impl Meeting {
    fn plan(self) -> Exchange {
        Exchange {
            lost1: self.fate == Fate::Lost1,
            lost2: self.fate == Fate::Lost2,
            lost3: self.fate == Fate::Lost3,
            ..between(0, 1)
        }
    }

    fn record(self) -> Record {
        Record {
            digest1: 1,
            digest2: self.digest2,
            back: self.back,
            forth: self.forth,
            back_cut: 0,
            forth_cut: 0,
            fate: self.fate,
        }
    }
}

// An exchange of two tables that are seen to be its, with one entry each way.
fn exchanged(
    alloc: Global,
    initiator: &mut NodeTable,
    responder: &mut NodeTable,
    plan: &Exchange,
    mode: Mode,
) -> Result<Record, Failure> {
    let rules = Rules {
        mode,
        budget: Budget::Entries(1),
    };
    check(initiator.node() == plan.initiator && responder.node() == plan.responder)?;
    check(
        initiator.nodes() == responder.nodes()
            && initiator.keys() == responder.keys()
            && plan.rotation < initiator.nodes(),
    )?;
    Ok(exchange(alloc, initiator, responder, plan, &rules)?)
}

// Two nodes that have written meet.
fn meet<R: Eprint + AllocGlobal>(
    rt: &R,
    initiator: &mut NodeTable,
    responder: &mut NodeTable,
    meeting: Meeting,
    mode: Mode,
) -> Result<(), Failure> {
    let (alloc, plan) = (rt.alloc(), meeting.plan());
    let record = retried!(
        rt,
        "exchange",
        exchanged(alloc, initiator, responder, &plan, mode),
        holds(initiator, &[OWN]) && holds(responder, &[OTHER])
    );
    check(record == meeting.record())?;
    check(holds(initiator, meeting.initiator) && holds(responder, meeting.responder))
}

fn try_meeting<R: Eprint + AllocGlobal>(
    rt: &R,
    meeting: Meeting,
    mode: Mode,
) -> Result<(), Failure> {
    let (mut initiator, mut responder) = (written(rt, 0)?, written(rt, 1)?);
    meet(rt, &mut initiator, &mut responder, meeting, mode)
}

pub(crate) fn try_exchanges<R: Print + Eprint + AllocGlobal>(rt: &R) -> Result<(), Failure> {
    for mode in [Mode::ScuttleDepth, Mode::PreciseNewest] {
        for meeting in MEETINGS {
            try_meeting(rt, meeting, mode)?;
        }
    }
    pass(rt, "exchange")
}
