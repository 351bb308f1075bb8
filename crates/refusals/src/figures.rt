//! An owner that wrote its one key in three rounds, and a copy that holds the first version.

ghost use Rattle.std.specs.Prelude.{◌≡◌, ◌≤◌, IfOk, OnOk};
ghost use Rattle.model.specs.calls.OwnerListView.{written};
ghost use Rattle.model.specs.calls.Writes.{AreBornBy};

use crate::failures::{Failure, check, pass, retried};
use crate::tables::{new_table, take, write};
use bench_types::{Figures, Item};
use fixtures::{NO_FIGURES, item};
use node_table::NodeTable;
use staleness::{OwnerList, figures};
use std::thread::Threads;

// What it writes, of which the last three are in the long list alone.
const WRITTEN: [Item; 6] = [
    item!(0, 0, 1, 0, 1),
    item!(0, 0, 2, 0, 2),
    item!(0, 0, 3, 0, 3),
    item!(0, 0, 4, 0, 3),
    item!(0, 0, 5, 0, 3),
    item!(0, 0, 6, 0, 3),
];

// One key is stale, since the write of round 2.
const STALE: Figures = Figures {
    stale: 1,
    greatest: 2,
    ..NO_FIGURES
};

// Whether a list of generation 0 has a write of its owner.
fn has_write(list: &OwnerList, written: &Item) -> bool {
    let entry = written.entry;
    match list.numbered(entry.version) {
        Some(kept) => {
            kept.key == entry.key
                && kept.version == entry.version
                && kept.value == entry.value
                && kept.born == entry.born
        }
        None => false,
    }
}

// Whether a list has the first so many of them, and no other.
fn has_written(list: &OwnerList, count: u32) -> bool {
    list.len() == count
        && WRITTEN
            .iter()
            .take(count as usize)
            .all(|written| has_write(list, written))
}

// The owner writes its key in a round.
fn push(rt: &impl Eprint, list: &mut OwnerList, born: u32) -> Result<(), Failure>
    requires born { born ≤ 3 }
    requires earlier { AreBornBy 3 (written list.old) }
    ensures { OnOk result (AreBornBy 3 (written list.new)) }
{
    let before = list.len();
    check(before < 9)?;
    retried!(
        rt,
        "OwnerList::push",
        list.push(0, born),
        has_written(list, before)
    );
    check(has_written(list, before + 1))
}

fn owner_list<R: Eprint + AllocGlobal>(rt: &R) -> Result<OwnerList, Failure>
    ensures { IfOk result (λ list. AreBornBy 3 (written list)) }
{
    let mut list = OwnerList::new(rt.alloc());
    push(rt, &mut list, 1)?;
    push(rt, &mut list, 2)?;
    push(rt, &mut list, 3)?;
    Ok(list)
}

// A list of six, which grows while it has writes.
fn try_long_list<R: Eprint + AllocGlobal>(rt: &R) -> Result<(), Failure> {
    let mut list = owner_list(rt)?;
    push(rt, &mut list, 3)?;
    push(rt, &mut list, 3)?;
    push(rt, &mut list, 3)
}

// Goes on where this is the table of a node of two, with one key.
fn check_node(table: &NodeTable, node: u32) -> Result<(), Failure>
    ensures node { OnOk result (table.now.table.node ≡ node) }
    ensures nodes { OnOk result (table.now.table.nodes ≡ 2) }
    ensures keys { OnOk result (table.now.table.keys ≡ 1) }
{
    check(table.node() == node)?;
    check(table.nodes() == 2)?;
    check(table.keys() == 1)
}

// The owner's table.
fn owner_table<R: Eprint + AllocGlobal>(rt: &R) -> Result<NodeTable, Failure> {
    let mut table = new_table(rt, 0, 2, 1)?;
    write_three(rt, &mut table)?;
    Ok(table)
}

fn write_three(rt: &impl Eprint, table: &mut NodeTable) -> Result<(), Failure> {
    write(rt, table, &[], WRITTEN[0])?;
    write(rt, table, &[WRITTEN[0]], WRITTEN[1])?;
    write(rt, table, &[WRITTEN[1]], WRITTEN[2])
}

// That of the node that holds the copy.
fn holder_table<R: Eprint + AllocGlobal>(rt: &R) -> Result<NodeTable, Failure> {
    let mut table = new_table(rt, 1, 2, 1)?;
    take(rt, &mut table, &[], &[WRITTEN[0]])?;
    Ok(table)
}

// The tables of both.
fn both_tables<R: Eprint + AllocGlobal>(rt: &R) -> Result<(NodeTable, NodeTable), Failure>
    ensures owner { IfOk result (λ both.
        (both.0.table.node ≡ 0) × (both.0.table.nodes ≡ 2) × (both.0.table.keys ≡ 1)) }
    ensures holder { IfOk result (λ both.
        (both.1.table.node ≡ 1) × (both.1.table.nodes ≡ 2) × (both.1.table.keys ≡ 1)) }
{
    let (owner, holder) = (owner_table(rt)?, holder_table(rt)?);
    check_node(&owner, 0)?;
    check_node(&holder, 1)?;
    Ok((owner, holder))
}

fn try_figures<R: Eprint + AllocGlobal + Threads + Sync>(rt: &R) -> Result<(), Failure> {
    let alloc = rt.alloc();
    let (owner, holder) = both_tables(rt)?;
    let (written, unwritten) = (owner_list(rt)?, OwnerList::new(alloc));
    let (tables, lists) = ([owner, holder], [written, unwritten]);
    let found = retried!(rt, "figures", figures(rt, alloc, &tables, &lists, 3));
    check(found == STALE)
}

pub(crate) fn try_lists_and_figures<R: Print + Eprint + AllocGlobal + Threads + Sync>(
    rt: &R,
) -> Result<(), Failure> {
    try_long_list(rt)?;
    pass(rt, "OwnerList::push")?;
    try_figures(rt)?;
    pass(rt, "figures")
}
