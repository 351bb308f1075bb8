//! Exchanges of two tables, with records and tables worked out from the rules.

use crate::tests::comparing::{check, expect_at};
use crate::tests::deltas::unturned;
use crate::tests::table_fixtures::{Turn, expect_held, item, lawful, new_table, take, write};
use bench_types::{Budget, Exchange, Fate, Fault, Item, Mode, Record, Rules};
use exchange::exchange;
use node_table::NodeTable;
use std::alloc::Global;
use std::process::Abort;

// How two nodes meet, and which message is lost first, if any.
#[derive(Clone, Copy)]
struct Plan {
    fate: Fate,
    turn: Turn,
}

const PLAN: Plan = Plan {
    fate: Fate::Ok,
    turn: Turn {
        mode: Mode::ScuttleBreadth,
        rotation: 0,
        budget: Budget::Entries(1),
    },
};

// An exchange that the first table's node begins with the second's.
fn meet(
    rt: &impl Abort,
    alloc: Global,
    first: &mut NodeTable,
    second: &mut NodeTable,
    plan: Plan,
) -> Result<Record, Fault> {
    check!(rt; first.nodes() == second.nodes() && first.keys() == second.keys());
    let Plan { fate, turn } = plan;
    check!(rt; turn.rotation < first.nodes());
    let planned = Exchange {
        initiator: first.node(),
        responder: second.node(),
        lost1: fate == Fate::Lost1,
        lost2: fate == Fate::Lost2,
        lost3: fate == Fate::Lost3,
        rotation: turn.rotation,
    };
    let rules = Rules {
        mode: turn.mode,
        budget: lawful(rt, turn.budget),
    };
    exchange(alloc, first, second, &planned, &rules)
}

// Compares a record: sizes of the digests, entries sent back and forth, and their cuts.
fn expect_record(rt: &impl Abort, sent: Record, fate: Fate, wanted: [u32; 6]) {
    let [digest1, digest2, back, forth, back_cut, forth_cut] = wanted;
    let record = Record {
        digest1,
        digest2,
        back,
        forth,
        back_cut,
        forth_cut,
        fate,
    };
    expect_at(rt, sent, record, "record");
}

// Two nodes meet, and their record is compared: the sizes of both digests, the entries sent back and
// forth, and their cuts.
fn expect_sent(
    rt: &impl Abort,
    alloc: Global,
    first: &mut NodeTable,
    second: &mut NodeTable,
    plan: Plan,
    wanted: [u32; 6],
) {
    let sent = meet(rt, alloc, first, second, plan).expect(rt, "memory");
    expect_record(rt, sent, plan.fate, wanted);
}

// The two writes of either node.
const A1: Item = item!(0, 0, 1, 1, 1);

const A2: Item = item!(0, 1, 2, 2, 1);

const B1: Item = item!(1, 0, 1, 1, 1);

const B2: Item = item!(1, 1, 2, 2, 1);

// The table of a node of two that wrote its only key.
fn with_one_key(rt: &impl Abort, alloc: Global, own: Item) -> NodeTable {
    check!(rt; own.owner < 2);
    let mut table = new_table(rt, alloc, own.owner, 2, 1);
    write(rt, &mut table, own.entry);
    table
}

// The table of a node of two that wrote both of its keys.
fn with_two_keys(rt: &impl Abort, alloc: Global, first: Item, second: Item) -> NodeTable {
    check!(rt; first.owner < 2);
    let mut table = new_table(rt, alloc, first.owner, 2, 2);
    write(rt, &mut table, first.entry);
    write(rt, &mut table, second.entry);
    table
}

#[test]
fn two_nodes(rt: HostRuntime) {
    let alloc = rt.alloc();
    let mut first = with_one_key(&rt, alloc, A1);
    let mut second = with_one_key(&rt, alloc, B1);
    expect_sent(
        &rt,
        alloc,
        &mut first,
        &mut second,
        PLAN,
        [1, 1, 1, 1, 0, 0],
    );
    expect_held(&rt, "first", &first, &[A1, B1]);
    expect_held(&rt, "second", &second, &[A1, B1]);
    expect_sent(
        &rt,
        alloc,
        &mut second,
        &mut first,
        PLAN,
        [2, 2, 0, 0, 0, 0],
    );
}

// An exchange that loses a message. The second node holds its own entry alone.
fn expect_lost(rt: &impl Abort, alloc: Global, fate: Fate, wanted: [u32; 6], first_holds: &[Item]) {
    let plan = Plan { fate, ..PLAN };
    let mut first = with_one_key(rt, alloc, A1);
    let mut second = with_one_key(rt, alloc, B1);
    expect_sent(rt, alloc, &mut first, &mut second, plan, wanted);
    expect_held(rt, "first", &first, first_holds);
    expect_held(rt, "second", &second, &[B1]);
}

#[test]
fn lost_messages_of_one_exchange(rt: HostRuntime) {
    let alloc = rt.alloc();
    expect_lost(&rt, alloc, Fate::Lost1, [1, 0, 0, 0, 0, 0], &[A1]);
    expect_lost(&rt, alloc, Fate::Lost2, [1, 1, 1, 0, 0, 0], &[A1]);
    expect_lost(&rt, alloc, Fate::Lost3, [1, 1, 1, 1, 0, 0], &[A1, B1]);
}

// Two exchanges, each of which carries one entry each way. The first cuts one each way.
fn expect_cut(rt: &impl Abort, alloc: Global, mode: Mode, digests: [u32; 2], first_then: &[Item]) {
    let plan = Plan {
        turn: unturned(mode, 1),
        ..PLAN
    };
    let [before, after] = digests;
    let mut first = with_two_keys(rt, alloc, A1, A2);
    let mut second = with_two_keys(rt, alloc, B1, B2);
    let wanted = [before, before, 1, 1, 1, 1];
    expect_sent(rt, alloc, &mut first, &mut second, plan, wanted);
    expect_held(rt, "first, cut", &first, first_then);
    let wanted = [after, after, 1, 1, 0, 0];
    expect_sent(rt, alloc, &mut second, &mut first, plan, wanted);
    expect_held(rt, "first", &first, &[A1, A2, B1, B2]);
    expect_held(rt, "second", &second, &[A1, A2, B1, B2]);
}

// Each side sends its older entry first, but in the mode that sends the newest first.
#[test]
fn two_nodes_cut_by_the_budget(rt: HostRuntime) {
    let alloc = rt.alloc();
    expect_cut(&rt, alloc, Mode::ScuttleBreadth, [1, 2], &[A1, A2, B1]);
    expect_cut(&rt, alloc, Mode::ScuttleDepth, [1, 2], &[A1, A2, B1]);
    expect_cut(&rt, alloc, Mode::PreciseOldest, [2, 3], &[A1, A2, B1]);
    expect_cut(&rt, alloc, Mode::PreciseNewest, [2, 3], &[A1, A2, B2]);
}

// An exchange that goes through or leaves both tables.
fn expect_all_or_nothing(rt: &impl Abort, alloc: Global, mode: Mode) {
    let plan = Plan {
        turn: unturned(mode, 1),
        ..PLAN
    };
    let mut first = with_one_key(rt, alloc, A1);
    let mut second = with_one_key(rt, alloc, B1);
    match meet(rt, alloc, &mut first, &mut second, plan) {
        Ok(sent) => expect_record(rt, sent, Fate::Ok, [1, 1, 1, 1, 0, 0]),
        Err(fault) => {
            check!(rt; fault == Fault::OutOfMemory);
            expect_held(rt, "first", &first, &[A1]);
            expect_held(rt, "second", &second, &[B1]);
        }
    }
}

// To be run with each allocation refused in turn, by `rt try --test --fail-alloc N`.
#[test]
fn refused_memory_leaves_both_tables(rt: HostRuntime) {
    expect_all_or_nothing(&rt, rt.alloc(), Mode::ScuttleBreadth);
    expect_all_or_nothing(&rt, rt.alloc(), Mode::PreciseNewest);
}

// One owner's versions 3 and 5 and another's version 1, which node 3 holds.
const OLD: Item = item!(1, 0, 3, 3, 2);

const NEW: Item = item!(1, 1, 5, 5, 3);

const OTHER: Item = item!(2, 0, 1, 1, 1);

// The table of node 3.
fn holder(rt: &impl Abort, alloc: Global) -> NodeTable {
    let mut table = new_table(rt, alloc, 3, 4, 2);
    take(rt, &mut table, &[OLD, NEW, OTHER]);
    table
}

// Node 3 answers the empty node 0, with so many entries in the second message. The third is lost.
fn expect_back(rt: &impl Abort, alloc: Global, plan: Plan, sent: &[Item], sizes: [u32; 2]) {
    let [count, cut] = sizes;
    let fate = Fate::Lost3;
    let mut holder = holder(rt, alloc);
    let mut empty = new_table(rt, alloc, 0, 4, 2);
    let plan = Plan { fate, ..plan };
    let wanted = [0, 2, count, 0, cut, 0];
    expect_sent(rt, alloc, &mut empty, &mut holder, plan, wanted);
    expect_held(rt, "sent back", &empty, sent);
    expect_held(rt, "holder", &holder, &[OLD, NEW, OTHER]);
}

// Node 3 begins, and sends so many entries in the third message.
fn expect_forth(rt: &impl Abort, alloc: Global, plan: Plan, sent: &[Item], sizes: [u32; 2]) {
    let [count, cut] = sizes;
    let mut holder = holder(rt, alloc);
    let mut empty = new_table(rt, alloc, 0, 4, 2);
    let wanted = [2, 0, 0, count, 0, cut];
    expect_sent(rt, alloc, &mut holder, &mut empty, plan, wanted);
    expect_held(rt, "sent forth", &empty, sent);
    expect_held(rt, "holder", &holder, &[OLD, NEW, OTHER]);
}

// Either way node 0 gets these entries, and so many are sent and cut.
fn expect_turned(
    rt: &impl Abort,
    alloc: Global,
    rotation: u32,
    budget: u32,
    sent: &[Item],
    sizes: [u32; 2],
) {
    let turn = Turn {
        rotation,
        budget: Budget::Entries(budget),
        ..PLAN.turn
    };
    let plan = Plan { turn, ..PLAN };
    expect_back(rt, alloc, plan, sent, sizes);
    expect_forth(rt, alloc, plan, sent, sizes);
}

#[test]
fn rotation_turns_the_order(rt: HostRuntime) {
    let alloc = rt.alloc();
    expect_turned(&rt, alloc, 0, 2, &[OLD, OTHER], [2, 1]);
    expect_turned(&rt, alloc, 0, 1, &[OLD], [1, 2]);
    expect_turned(&rt, alloc, 2, 1, &[OTHER], [1, 2]);
    expect_turned(&rt, alloc, 0, 3, &[OLD, NEW, OTHER], [3, 0]);
}
