//! How a table lies in memory: each owner of whom something is held has a block of slots, one for
//! each key, at the front of which its entries lie ascending by version and then by key. So one
//! item changes one block alone. The entries of an owner are of one generation, and while all are of
//! generation 0 the generations take no walk and no memory that is touched.

ghost use Rattle.std.specs.Prelude.{◌≡◌, ◌⊎◌, ◌+◌, ◌^◌, ◌<◌, ◌≤◌, IsOk, OnOk, OnErr, length, nat_lt, slice_index, take, vec_len, vec_capacity};
ghost use Rattle.model.specs.Table.{mark_at, generation_held, greatest_mark, taken, without_others, without_all};
ghost use Rattle.model.specs.calls.Table.{IsItemInPlace};
ghost use Rattle.node_table.specs.Entries.{AreAbove};
ghost use Rattle.node_table.specs.NodeTableView.{blocks_below, blocks_for};
ghost use Rattle.node_table.specs.inner.Flags.{AreFlagged, AreUnflagged};
ghost use Rattle.node_table.specs.inner.Layouts.{entries_in_row, row_at, block_len, table_laid, AreLaid, IsLayout, IsEmptyRow, IsInSlots, IsFilledRow, AreOthersKept, IsRenewed, IsPutInSlots, FitsRow, MayTakeItem, HasTakenItem, IsHeld, HasRoomForBlock};

use crate::rows::{find, put_in, rank_above};
use bench_types::limits::{MOST_KEYS, MOST_NODES};
use bench_types::{Entry, Item, Mark};
use std::alloc::AllocError;

// Where an owner's row starts among the slots, and how many entries it has.
#[derive(Clone, Copy)]
pub(crate) struct Row {
    pub(crate) start: u32,
    pub(crate) len: u32,
}

// Slots behind a row, up to the end of its block, hold no matter what. The generations are those of
// each owner's copy, in order, or none while all are 0. They always have room for all.
#[derive(Drop)]
pub(crate) struct Layout {
    pub(crate) node: u32,
    pub(crate) nodes: u32,
    pub(crate) keys: u32,
    pub(crate) generation: u32,
    pub(crate) slots: Vec<Entry>,
    pub(crate) rows: Vec<Row>,
    pub(crate) greatest: Vec<u32>,
    pub(crate) generations: Vec<u32>,
    pub(crate) count: u32,
}

impl Layout {
    // The entries held of an owner.
    pub(crate) fn row(&self, owner: u32) -> &[Entry]
        requires layout { IsLayout self.now }
        requires owner { owner < self.now.nodes }
        ensures { result.now ≡ row_at self.now.slots.items self.now.rows.items owner }
    {
        let row = self.rows[owner as usize];
        let start = row.start as usize;
        &self.slots[start..start + row.len as usize]
    }

    // The entries held of an owner above a mark.
    pub(crate) fn above(&self, owner: u32, mark: Mark) -> &[Entry]
        requires layout { IsLayout self.now }
        requires owner { owner < self.now.nodes }
        ensures { AreAbove (table_laid self.now) owner mark result.now }
    {
        let row = self.row(owner);
        let generation = self.generation_of(owner);
        if generation < mark.generation {
            return &row[row.len()..];
        }
        if generation > mark.generation {
            return row;
        }
        &row[rank_above(row, mark.version)..]
    }

    fn generation_of(&self, owner: u32) -> u32
        requires layout { IsLayout self.now }
        requires owner { owner < self.now.nodes }
        ensures { result ≡ generation_held (table_laid self.now) owner }
    {
        if self.generations.is_empty() {
            0
        } else {
            self.generations[owner as usize]
        }
    }

    // The greatest mark held of an owner.
    pub(crate) fn greatest_mark(&self, owner: u32) -> Mark
        requires layout { IsLayout self.now }
        requires owner { owner < self.now.nodes }
        ensures { result ≡ greatest_mark (table_laid self.now) owner }
    {
        Mark {
            generation: self.generation_of(owner),
            version: self.greatest[owner as usize],
        }
    }

    // Takes an item: one of an older generation than its owner's copy changes nothing, one of a newer
    // is all that is then held of its owner, and one of the same is kept where it is newer than what
    // is held at its place. An error is lack of memory for a block, and then nothing changes.
    pub(crate) fn take(&mut self, item: Item) -> Result<(), AllocError>
        requires { MayTakeItem self.old item }
        ensures layout { IsLayout self.new }
        ensures ok { OnOk result (table_laid self.new ≡ taken (table_laid self.old) item) }
        ensures err { OnErr result (table_laid self.new ≡ table_laid self.old) }
        ensures keeps_slots { OnErr result (vec_len self.new.slots ≡ vec_len self.old.slots) }
        ensures capacity { vec_capacity self.old.slots ≤ vec_capacity self.new.slots }
        ensures same_slots { IsHeld self.old item.owner → vec_len self.new.slots ≡ vec_len self.old.slots }
        ensures slots { vec_len self.new.slots ≤ vec_len self.old.slots + self.old.keys }
        ensures held { IsHeld self.old item.owner → IsOk result }
        ensures succeeds { HasRoomForBlock self.old → IsOk result }
    {
        if self.rows[item.owner as usize].len == 0 {
            return self.put_first(item);
        }
        let held = self.generation_of(item.owner);
        if held < item.entry.generation {
            self.renew(item);
            Ok(())
        } else if held == item.entry.generation && self.is_newer(item) {
            self.put(item);
            Ok(())
        } else {
            Ok(())
        }
    }

    // Whether an item of the copy's generation is newer than what is held at its place. Where it is
    // the newest of its owner no entry is looked at.
    fn is_newer(&self, item: Item) -> bool
        requires layout { IsLayout self.now }
        requires in_place { IsItemInPlace self.now.nodes self.now.keys item }
        ensures { result ≡ nat_lt (mark_at (table_laid self.now) item.owner item.entry.key).version item.entry.version }
    {
        if self.greatest[item.owner as usize] < item.entry.version {
            return true;
        }
        match find(self.row(item.owner), item.entry.key) {
            Some(held) => held.version < item.entry.version,
            None => true,
        }
    }

    fn put_first(&mut self, item: Item) -> Result<(), AllocError>
        requires may { MayTakeItem self.old item }
        requires empty { IsEmptyRow self.old.rows.items item.owner }
        ensures layout { IsLayout self.new }
        ensures ok { OnOk result (table_laid self.new ≡ taken (table_laid self.old) item) }
        ensures err { OnErr result (table_laid self.new ≡ table_laid self.old) }
        ensures keeps_slots { OnErr result (vec_len self.new.slots ≡ vec_len self.old.slots) }
        ensures capacity { vec_capacity self.old.slots ≤ vec_capacity self.new.slots }
        ensures slots { vec_len self.new.slots ≤ vec_len self.old.slots + self.old.keys }
        ensures succeeds { HasRoomForBlock self.old → IsOk result }
    {
        open(
            &mut self.slots,
            &mut self.rows,
            self.keys,
            item.owner,
            item.entry,
        )?;
        self.count += 1;
        self.greatest[item.owner as usize] = item.entry.version;
        if item.entry.generation == 0 {
            return Ok(());
        }
        set_generation(
            &mut self.generations,
            self.nodes,
            item.owner,
            item.entry.generation,
        );
        Ok(())
    }

    fn put(&mut self, item: Item)
        requires may { MayTakeItem self.old item }
        requires some { IsFilledRow self.old.rows.items item.owner }
        requires same { item.entry.generation ≡ generation_held (table_laid self.old) item.owner }
        requires newer { (mark_at (table_laid self.old) item.owner item.entry.key).version < item.entry.version }
        ensures { HasTakenItem self.old self.new item }
    {
        let at = item.owner as usize;
        let row = self.rows[at];
        let grown = put_among(&mut self.slots, row, self.keys, item.entry);
        self.rows[at] = grown;
        self.count += grown.len - row.len;
        self.greatest[at] = self.greatest[at].max(item.entry.version);
    }

    fn renew(&mut self, item: Item)
        requires may { MayTakeItem self.old item }
        requires some { IsFilledRow self.old.rows.items item.owner }
        requires newer { generation_held (table_laid self.old) item.owner < item.entry.generation }
        ensures { HasTakenItem self.old self.new item }
    {
        let at = item.owner as usize;
        let row = self.rows[at];
        self.slots[row.start as usize] = item.entry;
        self.rows[at] = Row {
            start: row.start,
            len: 1,
        };
        self.count = self.count + 1 - row.len;
        self.greatest[at] = item.entry.version;
        set_generation(
            &mut self.generations,
            self.nodes,
            item.owner,
            item.entry.generation,
        );
    }

    // How many owners come in a list of whom nothing is held. Each is flagged by a version where its
    // first item stands, and the flags are taken away again.
    pub(crate) fn blocks_for(&mut self, added: &[Item]) -> usize
        requires { IsLayout self.old }
        ensures layout { IsLayout self.new }
        ensures table { table_laid self.new ≡ table_laid self.old }
        ensures slots { self.new.slots ≡ self.old.slots }
        ensures blocks { result ≡ blocks_for (table_laid self.old) added.now }
    {
        let blocks = flag_new(&mut self.greatest, added);
        if blocks > 0 {
            unflag(&mut self.greatest, &self.rows, added);
        }
        blocks
    }

    // Drops the rows of all owners but the node.
    pub(crate) fn forget_others(&mut self)
        requires { IsLayout self.old }
        ensures layout { IsLayout self.new }
        ensures table { table_laid self.new ≡ without_others (table_laid self.old) }
        ensures capacity { vec_capacity self.new.slots ≡ vec_capacity self.old.slots }
        ensures slots { vec_len self.new.slots ≤ vec_len self.old.slots }
        ensures keys { self.new.keys ≡ self.old.keys }
    {
        let own = self.node as usize;
        let row = self.rows[own];
        let greatest = self.greatest[own];
        let generation = self.generation_of(self.node);
        move_to_front(&mut self.slots, row, self.keys);
        self.rows.fill(Row { start: 0, len: 0 });
        self.rows[own] = Row {
            start: 0,
            len: row.len,
        };
        self.greatest.fill(0);
        self.greatest[own] = greatest;
        self.count = row.len;
        self.generations.clear();
        if generation > 0 {
            set_generation(&mut self.generations, self.nodes, self.node, generation);
        }
    }

    // Drops all rows and begins the next generation.
    pub(crate) fn forget_all(&mut self)
        requires layout { IsLayout self.old }
        requires fits { self.old.generation + 1 < 2 ^ 32 }
        ensures layout { IsLayout self.new }
        ensures table { table_laid self.new ≡ without_all (table_laid self.old) }
        ensures capacity { vec_capacity self.new.slots ≡ vec_capacity self.old.slots }
        ensures slots { vec_len self.new.slots ≤ vec_len self.old.slots }
        ensures keys { self.new.keys ≡ self.old.keys }
    {
        self.slots.clear();
        self.rows.fill(Row { start: 0, len: 0 });
        self.greatest.fill(0);
        self.generations.clear();
        self.count = 0;
        self.generation += 1;
    }
}

// Flags the owners of a list whose greatest version is 0, and answers how many they are.
fn flag_new(greatest: &mut [u32], added: &[Item]) -> usize
    ensures blocks { result ≡ blocks_below (slice_index greatest.old) added.now (length greatest.old) }
    ensures none { result ≡ 0 → greatest.new ≡ greatest.old }
    ensures flagged { AreFlagged added.now greatest.old greatest.new }
{
    let mut blocks = 0;
    for item in added {
        let owner = item.owner as usize;
        if owner < greatest.len() && greatest[owner] == 0 {
            greatest[owner] = 1;
            blocks += 1;
        }
    }
    blocks
}

// Takes the flags of a list's owners away: those without an entry have greatest version 0.
fn unflag(greatest: &mut [u32], rows: &[Row], added: &[Item])
    requires { length rows.now ≡ length greatest.old }
    ensures { AreUnflagged rows.now added.now greatest.old greatest.new }
{
    for item in added {
        let owner = item.owner as usize;
        if owner < rows.len() && rows[owner].len == 0 {
            greatest[owner] = 0;
        }
    }
}

fn move_to_front(slots: &mut Vec<Entry>, row: Row, keys: u32)
    requires row { IsInSlots keys slots.old.items row }
    ensures row { take row.len slots.new.items ≡ entries_in_row slots.old.items row }
    ensures len { vec_len slots.new ≡ block_len keys row }
    ensures capacity { vec_capacity slots.new ≡ vec_capacity slots.old }
{
    if row.len == 0 {
        slots.clear();
    } else {
        let start = row.start as usize;
        slots.copy_within(start..start + row.len as usize, 0);
        slots.truncate(keys as usize);
    }
}

// Sets the generation of an owner's copy in a list of all owners', of which there are none while all
// are 0.
fn set_generation(generations: &mut Vec<u32>, nodes: u32, owner: u32, generation: u32)
    requires owner { owner < nodes }
    requires count { (vec_len generations.old ≡ 0) ⊎ (vec_len generations.old ≡ nodes) }
    requires room { nodes ≤ vec_capacity generations.old }
    ensures count { vec_len generations.new ≡ nodes }
    ensures own { slice_index generations.new.items owner ≡ generation }
    ensures others { AreOthersKept owner generations.old.items generations.new.items }
    ensures capacity { vec_capacity generations.old ≤ vec_capacity generations.new }
{
    if generations.is_empty() {
        generations.resize(nodes as usize, 0).unwrap();
    }
    generations[owner as usize] = generation;
}

fn put_among(slots: &mut [Entry], row: Row, keys: u32, entry: Entry) -> Row
    requires row { IsInSlots keys slots.old row }
    requires held { 0 < row.len }
    requires entry { FitsRow keys entry }
    ensures { IsPutInSlots keys entry slots.old row slots.new result }
{
    let start = row.start as usize;
    let block = &mut slots[start..start + keys as usize];
    let len = put_in(block, row.len as usize, entry) as u32;
    Row {
        start: row.start,
        len,
    }
}

// Lays a block behind the others for an owner's first entry.
fn open(
    slots: &mut Vec<Entry>,
    rows: &mut Vec<Row>,
    keys: u32,
    owner: u32,
    entry: Entry,
) -> Result<(), AllocError>
    requires laid { AreLaid (vec_len rows.old) keys slots.old.items rows.old.items }
    requires owner { owner < vec_len rows.old }
    requires empty { IsEmptyRow rows.old.items owner }
    requires nodes { vec_len rows.old ≤ MOST_NODES }
    requires keys { keys ≤ MOST_KEYS }
    requires entry { FitsRow keys entry }
    ensures laid { AreLaid (vec_len rows.old) keys slots.new.items rows.new.items }
    ensures ok { OnOk result (IsRenewed owner entry slots.old.items slots.new.items rows.old.items rows.new.items) }
    ensures err { OnErr result (slots.new.items ≡ slots.old.items) }
    ensures err_rows { OnErr result (rows.new.items ≡ rows.old.items) }
    ensures capacity { vec_capacity slots.old ≤ vec_capacity slots.new }
    ensures slots { vec_len slots.new ≤ vec_len slots.old + keys }
    ensures succeeds { vec_len slots.old + keys ≤ vec_capacity slots.old → IsOk result }
{
    let start = slots.len();
    slots.resize(start + keys as usize, entry)?;
    rows[owner as usize] = Row {
        start: start as u32,
        len: 1,
    };
    Ok(())
}
