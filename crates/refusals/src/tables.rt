//! Tables of nodes.

ghost use Rattle.std.specs.Prelude.{◌≡◌, ◌<◌, ◌≤◌, IfOk};
ghost use Rattle.model.specs.Table.{empty_table};

use crate::failures::{Failure, check, pass, retried};
use bench_types::{Item, Mark};
use fixtures::{holds, item};
use node_table::NodeTable;

/// What each of two nodes writes of its first key.
pub(crate) const OWN: Item = item!(0, 0, 1, 0, 1);

pub(crate) const OTHER: Item = item!(1, 0, 1, 0, 1);

// What the first writes then.
const SECOND: Item = item!(0, 0, 2, 7, 2);

/// An empty table.
pub(crate) fn new_table<R: Eprint + AllocGlobal>(
    rt: &R,
    node: u32,
    nodes: u32,
    keys: u32,
) -> Result<NodeTable, Failure>
    requires node { node < nodes }
    requires nodes { nodes ≤ 4 }
    requires keys { (1 ≤ keys) × (keys ≤ 64) }
    ensures { IfOk result (λ t. t.table ≡ empty_table node nodes keys) }
{
    let alloc = rt.alloc();
    Ok(retried!(
        rt,
        "NodeTable::new",
        NodeTable::new(alloc, node, nodes, keys)
    ))
}

/// The node of a table that holds these items writes one of its keys.
pub(crate) fn write(
    rt: &impl Eprint,
    table: &mut NodeTable,
    before: &[Item],
    written: Item,
) -> Result<(), Failure> {
    let entry = written.entry;
    let greatest = table.greatest(table.node()).version;
    check(entry.key < table.keys() && greatest < 9)?;
    let version = retried!(
        rt,
        "NodeTable::write_own",
        table.write_own(entry.key, entry.value, entry.born),
        holds(table, before)
    );
    check(version == entry.version && table.get(written.owner, entry.key) == Some(entry))
}

/// A table that holds these items makes room for others, and takes them.
pub(crate) fn take(
    rt: &impl Eprint,
    table: &mut NodeTable,
    before: &[Item],
    taken: &[Item],
) -> Result<(), Failure> {
    retried!(
        rt,
        "NodeTable::reserve_for",
        table.reserve_for(taken),
        holds(table, before) && !table.may_apply(taken)
    );
    check(holds(table, before) && table.may_apply(taken))?;
    table.apply(taken);
    Ok(())
}

/// The table of one of two nodes, which has written the first of its four keys in round 1. It has room for no other
/// owner's keys.
pub(crate) fn written<R: Eprint + AllocGlobal>(rt: &R, node: u32) -> Result<NodeTable, Failure>
    requires { node < 2 }
{
    let mut table = new_table(rt, node, 2, 4)?;
    write(rt, &mut table, &[], item!(node, 0, 1, 0, 1))?;
    Ok(table)
}

fn cloned(rt: &impl Eprint, table: &NodeTable) -> Result<NodeTable, Failure> {
    Ok(retried!(
        rt,
        "NodeTable::try_clone",
        table.try_clone(),
        holds(table, &[OWN, OTHER])
    ))
}

fn is_first_of_two(table: &NodeTable) -> bool {
    (
        table.node(),
        table.nodes(),
        table.keys(),
        table.generation(),
    ) == (0, 2, 4, 0)
}

pub(crate) fn try_tables<R: Print + Eprint + AllocGlobal>(rt: &R) -> Result<(), Failure> {
    let mut table = written(rt, 0)?;
    try_table(rt, &mut table)
}

fn try_table(rt: &(impl Print + Eprint), table: &mut NodeTable) -> Result<(), Failure> {
    pass(rt, "NodeTable::new")?;
    take(rt, table, &[OWN], &[OTHER])?;
    pass(rt, "NodeTable::reserve_for")?;
    let copy = cloned(rt, table)?;
    try_changes(rt, table, &copy)
}

// The changes of a table, of which a copy sees nothing.
fn try_changes(
    rt: &(impl Print + Eprint),
    table: &mut NodeTable,
    copy: &NodeTable,
) -> Result<(), Failure> {
    forget_and_write(rt, table)?;
    pass(rt, "NodeTable::write_own")?;
    check(is_first_of_two(copy) && holds(copy, &[OWN, OTHER]))?;
    pass(rt, "NodeTable::try_clone")
}

// A node forgets the other, writes, and forgets all.
fn forget_and_write(rt: &impl Eprint, table: &mut NodeTable) -> Result<(), Failure> {
    table.forget_others();
    check(holds(table, &[OWN]) && table.greatest(1) == Mark::ABSENT)?;
    write(rt, table, &[OWN], SECOND)?;
    check(holds(table, &[SECOND]))?;
    check(table.generation() < 9)?;
    table.forget_all();
    check(holds(table, &[]) && table.generation() == 1)
}
