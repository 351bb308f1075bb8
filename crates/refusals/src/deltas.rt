//! Digests, and the deltas that answer them.

ghost use Rattle.std.specs.Prelude.{◌≡◌, IfOk};
ghost use Rattle.bench_types.specs.Mode.{digest_kind};
ghost use Rattle.reconcile.specs.Digests.{IsDigestOf};

use crate::failures::{Failure, check, check_budget, pass, retried};
use crate::tables::{new_table, take};
use bench_types::{Budget, Item, Mode};
use fixtures::item;
use node_table::NodeTable;
use reconcile::{Digest, delta};

// One owner's versions 3 and 5 and another's version 1, whose entries take 24, 1023 and 24 bytes.
const OLD: Item = item!(1, 0, 3, 0, 2);

const NEW: Item = item!(1, 1, 5, 999, 3);

const OTHER: Item = item!(2, 0, 1, 0, 1);

// What a mode and a budget send of them to a node that holds nothing, the size of their digest, and how many are cut.
#[derive(Clone, Copy)]
struct Sent {
    mode: Mode,
    budget: Budget,
    size: u32,
    items: &'static [Item],
    cut: u32,
}

const SENT: [Sent; 6] = [
    Sent {
        mode: Mode::ScuttleBreadth,
        budget: Budget::Entries(2),
        size: 2,
        items: &[OLD, OTHER],
        cut: 1,
    },
    Sent {
        mode: Mode::ScuttleDepth,
        budget: Budget::Entries(2),
        size: 2,
        items: &[OLD, NEW],
        cut: 1,
    },
    Sent {
        mode: Mode::PreciseOldest,
        budget: Budget::Entries(2),
        size: 3,
        items: &[OTHER, OLD],
        cut: 1,
    },
    Sent {
        mode: Mode::PreciseNewest,
        budget: Budget::Entries(2),
        size: 3,
        items: &[NEW, OLD],
        cut: 1,
    },
    Sent {
        mode: Mode::ScuttleBreadth,
        budget: Budget::Bytes(1071),
        size: 2,
        items: &[OLD, OTHER, NEW],
        cut: 0,
    },
    Sent {
        mode: Mode::ScuttleDepth,
        budget: Budget::Bytes(1023),
        size: 2,
        items: &[OLD],
        cut: 2,
    },
];

// The table of node 3 that holds those entries.
fn sender<R: Eprint + AllocGlobal>(rt: &R) -> Result<NodeTable, Failure> {
    let mut table = new_table(rt, 3, 4, 2)?;
    take_all(rt, &mut table)?;
    Ok(table)
}

fn take_all(rt: &impl Eprint, table: &mut NodeTable) -> Result<(), Failure> {
    take(rt, table, &[], &[OLD, NEW])?;
    take(rt, table, &[OLD, NEW], &[OTHER])
}

fn digest_of<R: Eprint + AllocGlobal>(
    rt: &R,
    table: &NodeTable,
    mode: Mode,
) -> Result<Digest, Failure>
    ensures { IfOk result (IsDigestOf (digest_kind mode) table.now.table) }
{
    let alloc = rt.alloc();
    Ok(retried!(rt, "Digest::of", Digest::of(alloc, table, mode)))
}

fn try_digest<R: Eprint + AllocGlobal>(
    rt: &R,
    from: &NodeTable,
    sent: Sent,
) -> Result<(), Failure> {
    let digest = digest_of(rt, from, sent.mode)?;
    check(digest.size() == sent.size)
}

// The answer to the digest of node 0.
fn try_answer<R: Eprint + AllocGlobal>(
    rt: &R,
    from: &NodeTable,
    to: &NodeTable,
    digest: &Digest,
    sent: Sent,
) -> Result<(), Failure>
    requires node { to.now.table.node ≡ 0 }
    requires digest { IsDigestOf (digest_kind sent.mode) to.now.table digest.now }
{
    check(from.nodes() == to.nodes() && from.keys() == to.keys() && from.nodes() > 0)?;
    check_budget(sent.budget)?;
    let alloc = rt.alloc();
    let delta = retried!(
        rt,
        "delta",
        delta(alloc, from, digest, 0, sent.mode, 0, sent.budget)
    );
    check(delta.items() == sent.items && delta.cut() == sent.cut)
}

fn try_sent<R: Eprint + AllocGlobal>(rt: &R, from: &NodeTable, sent: Sent) -> Result<(), Failure> {
    let to = new_table(rt, 0, 4, 2)?;
    let digest = digest_of(rt, &to, sent.mode)?;
    try_answer(rt, from, &to, &digest, sent)
}

fn try_all<R: Print + Eprint + AllocGlobal>(rt: &R, from: &NodeTable) -> Result<(), Failure> {
    for sent in SENT {
        try_digest(rt, from, sent)?;
    }
    pass(rt, "Digest::of")?;
    for sent in SENT {
        try_sent(rt, from, sent)?;
    }
    pass(rt, "delta")
}

pub(crate) fn try_digests_and_deltas<R: Print + Eprint + AllocGlobal>(
    rt: &R,
) -> Result<(), Failure> {
    let from = sender(rt)?;
    try_all(rt, &from)
}
