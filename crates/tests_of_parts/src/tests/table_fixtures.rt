//! Items, steps of a table and comparisons that several tests share. Where memory is refused they stop.

ghost use Rattle.std.specs.Prelude.{◌≡◌, ◌≢◌, ◌<◌, ◌≤◌, All, IsTrue};
ghost use Rattle.bench_types.specs.calls.Budget.{IsLawfulBudget};
ghost use Rattle.model.specs.Table.{empty_table};
ghost use Rattle.model.specs.calls.Table.{IsItemInPlace};

use crate::tests::comparing::{check, expect_at};
use bench_types::{Budget, Entry, Fault, Item, Mark, Mode};
use node_table::NodeTable;
use std::alloc::Global;
use std::process::Abort;

// An entry and its owner, by owner, key, generation, version, value and born. Where it is left out the
// generation is 0.
macro_rules! item {
    ($owner:expr, $key:expr, generation $generation:expr, $version:expr, $value:expr, $born:expr) => {
        bench_types::Item {
            owner: $owner,
            entry: bench_types::Entry {
                key: $key,
                generation: $generation,
                version: $version,
                value: $value,
                born: $born,
            },
        }
    };
    ($owner:expr, $key:expr, $version:expr, $value:expr, $born:expr) => {
        crate::tests::table_fixtures::item!($owner, $key, generation 0, $version, $value, $born)
    };
}

// Items of generation 0 that were born in round 1: by owner and key, the version and the value.
macro_rules! items {
    ($($owner:literal $key:literal: $version:literal $value:literal),+) => {
        [$(crate::tests::table_fixtures::item!($owner, $key, $version, $value, 1)),+]
    };
}

pub(crate) use item;
pub(crate) use items;

/// How a delta is ordered and cut.
#[derive(Clone, Copy)]
pub(crate) struct Turn {
    pub(crate) mode: Mode,
    pub(crate) rotation: u32,
    pub(crate) budget: Budget,
}

/// Whether a node may take the items.
pub(crate) fn may_take(node: u32, nodes: u32, keys: u32, items: &[Item]) -> bool
    ensures others { IsTrue result → All (λ i. i.owner ≢ node) items.now }
    ensures in_place { IsTrue result → All (IsItemInPlace nodes keys) items.now }
{
    for item in items {
        let entry = item.entry;
        if item.owner == node || item.owner >= nodes {
            return false;
        }
        if entry.key >= keys || entry.version == 0 {
            return false;
        }
    }
    true
}

/// A budget that has room for any one entry.
pub(crate) fn lawful(rt: &impl Abort, budget: Budget) -> Budget
    ensures same { result ≡ budget }
    ensures lawful { IsLawfulBudget result }
{
    match budget {
        Budget::Entries(entries) => check!(rt; entries >= 1),
        Budget::Bytes(bytes) => check!(rt; bytes >= 1023),
    }
    budget
}

/// Makes room for the items and takes them.
pub(crate) fn take(rt: &impl Abort, table: &mut NodeTable, items: &[Item]) {
    table.reserve_for(items).expect(rt, "memory");
    let (node, nodes, keys) = (table.node(), table.nodes(), table.keys());
    check!(rt; may_take(node, nodes, keys, items));
    table.apply(items);
}

/// The node writes one of its keys, where memory allows.
pub(crate) fn try_write(
    rt: &impl Abort,
    table: &mut NodeTable,
    key: u32,
    value: u32,
    born: u32,
) -> Result<u32, Fault> {
    check!(rt; key < table.keys());
    check!(rt; table.greatest(table.node()).version < u32::MAX);
    table.write_own(key, value, born)
}

/// The node writes an entry, whose version is the one that it is to get, at the second try where memory
/// is refused once.
pub(crate) fn write(rt: &impl Abort, table: &mut NodeTable, entry: Entry) {
    let version = match try_write(rt, table, entry.key, entry.value, entry.born) {
        Ok(version) => version,
        Err(_) => try_write(rt, table, entry.key, entry.value, entry.born).expect(rt, "memory"),
    };
    expect_at(rt, version, entry.version, "version");
}

/// The node forgets so often.
pub(crate) fn forget(rt: &impl Abort, table: &mut NodeTable, times: u32) {
    for _ in 0..times {
        check!(rt; table.generation() < u32::MAX);
        table.forget_all();
    }
}

/// Compares a mark, by its generation and its version.
pub(crate) fn expect_mark(rt: &impl Abort, name: &str, found: Mark, wanted: (u32, u32)) {
    expect_at(rt, (found.generation, found.version), wanted, name);
}

/// The empty table of a node, at the second try where memory is refused once.
pub(crate) fn new_table(
    rt: &impl Abort,
    alloc: Global,
    node: u32,
    nodes: u32,
    keys: u32,
) -> NodeTable
    requires node { node < nodes }
    requires nodes { nodes ≤ 4 }
    requires some_key { 1 ≤ keys }
    requires keys { keys ≤ 64 }
    ensures { result.table ≡ empty_table node nodes keys }
{
    match NodeTable::new(alloc, node, nodes, keys) {
        Ok(table) => table,
        Err(_) => NodeTable::new(alloc, node, nodes, keys).expect(rt, "memory"),
    }
}

/// Compares what a table holds, by owner and then by key.
pub(crate) fn expect_held(rt: &impl Abort, name: &str, table: &NodeTable, wanted: &[Item]) {
    let mut count = 0usize;
    for owner in 0..table.nodes() {
        for key in 0..table.keys() {
            if let Some(entry) = table.get(owner, key) {
                let found = Item { owner, entry };
                expect_at(rt, Some(found), wanted.get(count).copied(), name);
                count = count.saturating_add(1);
            }
        }
    }
    check!(rt; count == wanted.len());
    check!(rt; table.count() as usize == count);
}

/// Compares two tables with the same nodes and keys.
pub(crate) fn expect_same(rt: &impl Abort, name: &str, table: &NodeTable, other: &NodeTable) {
    for owner in 0..table.nodes() {
        for key in 0..table.keys() {
            expect_at(rt, table.get(owner, key), other.get(owner, key), name);
        }
    }
    expect_at(rt, table.count(), other.count(), name);
}

/// Compares entries with those of items.
pub(crate) fn expect_entries(rt: &impl Abort, name: &str, found: &[Entry], wanted: &[Item]) {
    expect_at(rt, found.len(), wanted.len(), name);
    for (entry, item) in found.iter().zip(wanted) {
        expect_at(rt, *entry, item.entry, name);
    }
}
