//! Tables by hand: what they hold is worked out from the rules.

use crate::tests::comparing::{check, expect_at};
use crate::tests::table_fixtures::{
    expect_held, expect_mark, expect_same, item, items, new_table, take, try_write, write,
};
use bench_types::{Entry, Item, Mark};
use node_table::NodeTable;
use std::process::Abort;

const NODES: u32 = 4;

const KEYS: u32 = 3;

// Compares what is held of a key.
fn expect_entry(rt: &impl Abort, table: &NodeTable, owner: u32, key: u32, wanted: Option<Entry>) {
    expect_at(rt, table.get(owner, key), wanted, "entry");
}

const OWN: Item = item!(0, 0, 1, 0, 1);

const OTHER: Item = item!(1, 0, 1, 0, 1);

const SECOND: Item = item!(0, 0, 2, 7, 2);

#[test]
fn forgetting_others(rt: HostRuntime) {
    let mut table = new_table(&rt, rt.alloc(), 0, 2, 1);
    write(&rt, &mut table, OWN.entry);
    take(&rt, &mut table, &[OTHER]);
    expect_held(&rt, "held", &table, &[OWN, OTHER]);
    let copy = table.try_clone().expect(&rt, "memory");
    table.forget_others();
    expect_held(&rt, "held", &table, &[OWN]);
    expect_mark(&rt, "greatest", table.greatest(1), (0, 0));
    write(&rt, &mut table, SECOND.entry);
    expect_held(&rt, "held", &table, &[SECOND]);
    expect_copy(&rt, &copy);
}

fn expect_copy(rt: &impl Abort, copy: &NodeTable) {
    expect_held(rt, "held", copy, &[OWN, OTHER]);
    expect_at(rt, copy.node(), 0, "node");
    expect_at(rt, copy.nodes(), 2, "nodes");
    expect_at(rt, copy.keys(), 1, "keys");
}

const FIRST_TAKEN: [Item; 2] = items!(3 1: 4 10, 0 2: 2 20);

const TAKEN: [Item; 9] = items!(
    3 1: 4 11, 1 0: 5 30, 0 2: 1 21, 1 0: 7 31, 3 0: 1 40, 1 0: 7 32, 0 2: 3 22, 1 0: 6 33, 0 2: 3 23
);

const LEFT: [Item; 5] = items!(0 2: 3 22, 1 0: 7 31, 2 1: 1 50, 3 0: 1 40, 3 1: 4 10);

#[test]
fn several_items_of_one_place(rt: HostRuntime) {
    let mut table = new_table(&rt, rt.alloc(), 2, NODES, KEYS);
    write(&rt, &mut table, LEFT[2].entry);
    take(&rt, &mut table, &FIRST_TAKEN);
    take(&rt, &mut table, &TAKEN);
    expect_held(&rt, "held", &table, &LEFT);
    expect_mark(&rt, "greatest", table.greatest(3), (0, 4));
    expect_entry(&rt, &table, 1, 1, None);
}

// The versions of a row of entries, ascending, and the keys.
type Row = (&'static [u32], &'static [u32]);

// Entries of owner 1 of two, with four keys, as they come, and the row that they make: ascending by
// version and then by key.
const ENTERING: [(Item, Row); 7] = [
    (item!(1, 0, 5, 10, 1), (&[5], &[0])),
    (item!(1, 3, 9, 11, 1), (&[5, 9], &[0, 3])),
    (item!(1, 1, 3, 12, 1), (&[3, 5, 9], &[1, 0, 3])),
    (item!(1, 2, 5, 13, 1), (&[3, 5, 5, 9], &[1, 0, 2, 3])),
    (item!(1, 1, 7, 14, 1), (&[5, 5, 7, 9], &[0, 2, 1, 3])),
    (item!(1, 3, 8, 15, 1), (&[5, 5, 7, 9], &[0, 2, 1, 3])),
    (item!(1, 2, 9, 16, 1), (&[5, 7, 9, 9], &[0, 1, 2, 3])),
];

// Compares the entries of owner 1 above a version with the end of a row.
fn expect_above(rt: &impl Abort, table: &NodeTable, version: u32, row: Row) {
    check!(rt; table.nodes() > 1);
    let (versions, _keys) = row;
    let front = versions.iter().filter(|held| **held <= version).count();
    let mark = Mark {
        generation: 0,
        version,
    };
    let above = table.above(1, mark);
    for (index, entry) in above.iter().enumerate() {
        expect_place(rt, table, *entry, front.saturating_add(index), row);
    }
    check!(rt; above.len() == versions.len().saturating_sub(front));
}

// Compares an entry with what stands at a place of the row, and with what is held of its key.
fn expect_place(rt: &impl Abort, table: &NodeTable, entry: Entry, at: usize, row: Row) {
    let (versions, keys) = row;
    let wanted = (versions.get(at).copied(), keys.get(at).copied());
    expect_at(
        rt,
        (Some(entry.version), Some(entry.key)),
        wanted,
        "version and key",
    );
    expect_entry(rt, table, 1, entry.key, Some(entry));
}

// Compares the row of owner 1, from each version on, and the greatest versions.
fn expect_row(rt: &impl Abort, table: &NodeTable, row: Row) {
    check!(rt; table.nodes() > 1);
    for version in 0..11 {
        expect_above(rt, table, version, row);
    }
    check!(rt; table.entries_of(1).len() == row.0.len());
    let greatest = row.0.last().copied().unwrap_or(0);
    expect_at(
        rt,
        table.greatest_versions(),
        [0, greatest].as_slice(),
        "greatest",
    );
}

#[test]
fn entries_above_a_version(rt: HostRuntime) {
    let mut table = new_table(&rt, rt.alloc(), 0, 2, 4);
    expect_row(&rt, &table, (&[], &[]));
    for (item, row) in ENTERING {
        take(&rt, &mut table, &[item]);
        expect_row(&rt, &table, row);
    }
}

// A clone, at the second try where memory is refused once.
fn clone_of(rt: &impl Abort, table: &NodeTable) -> NodeTable {
    match table.try_clone() {
        Ok(copy) => copy,
        Err(_) => table.try_clone().expect(rt, "memory"),
    }
}

// Writes a key. A refusal leaves the table, and then the write goes through. The clone stays as it was.
fn write_at_last(rt: &impl Abort, table: &mut NodeTable, entry: Entry) {
    let before = clone_of(rt, table);
    if try_write(rt, table, entry.key, entry.value, entry.born).is_err() {
        expect_same(rt, "after a refusal", table, &before);
        write(rt, table, entry);
    }
    expect_at(rt, before.count(), entry.key, "count before");
}

const ADDED: [Item; 3] = items!(3 0: 9 10, 0 2: 4 20, 2 1: 7 30);

const WRITTEN: [Item; 3] = items!(1 0: 1 50, 1 1: 2 50, 1 2: 3 50);

const WRITTEN_AND_ADDED: [Item; 6] = items!(
    0 2: 4 20, 1 0: 1 50, 1 1: 2 50, 1 2: 3 50, 2 1: 7 30, 3 0: 9 10
);

// Where a call is tried again until memory suffices, the table is what one call makes of it.
#[test]
fn a_refusal_leaves_the_table(rt: HostRuntime) {
    let mut table = new_table(&rt, rt.alloc(), 1, NODES, KEYS);
    for item in WRITTEN {
        write_at_last(&rt, &mut table, item.entry);
    }
    let before = clone_of(&rt, &table);
    if table.reserve_for(&ADDED).is_err() {
        expect_same(&rt, "after a refusal", &table, &before);
    }
    take(&rt, &mut table, &ADDED);
    expect_held(&rt, "held", &table, &WRITTEN_AND_ADDED);
}
