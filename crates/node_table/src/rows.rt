//! One owner's row: entries with a key each, ascending by version and then by key, at the front of
//! a block of slots.

ghost use Rattle.std.specs.Prelude.{◌≡◌, ◌≢◌, ◌+◌, ◌<◌, ◌≤◌, All, filter, length, take};
ghost use Rattle.std.specs.Ordering.{is_lt};
ghost use Rattle.node_table.specs.Entries.{entry_cmp};
ghost use Rattle.model.specs.inner.Held.{entry_in};
ghost use Rattle.node_table.specs.inner.Layouts.{has_other_key, HasRow, FitsRow, IsIndexOf, IsRankOf, IsRankAbove, IsPutInBlock};

use bench_types::Entry;

// The index of the entry of a key, or the row's length.
fn index_of(row: &[Entry], key: u32) -> usize
    ensures { IsIndexOf row.now key result }
{
    for (index, held) in row.iter().enumerate() {
        if held.key == key {
            return index;
        }
    }
    row.len()
}

// The entry of a key, if any.
pub(crate) fn find(row: &[Entry], key: u32) -> Option<Entry>
    ensures { result ≡ entry_in row.now key }
{
    let index = index_of(row, key);
    if index < row.len() {
        Some(row[index])
    } else {
        None
    }
}

// How many entries at the front don't stand behind an entry. It looks at those behind and one more.
pub(crate) fn rank_of(row: &[Entry], entry: Entry) -> usize
    ensures { IsRankOf row.now entry result }
{
    let mut rank = row.len();
    while rank > 0 && stands_before(entry, row[rank - 1]) {
        rank -= 1;
    }
    rank
}

// How many entries at the front aren't above a version, where they ascend. It looks at each, so that
// nothing that it does next hangs on a guess.
pub(crate) fn rank_above(row: &[Entry], version: u32) -> usize
    ensures { IsRankAbove row.now version result }
{
    let mut rank = 0;
    for (index, held) in row.iter().enumerate() {
        if held.version <= version {
            rank = index + 1;
        }
    }
    rank
}

fn stands_before(entry: Entry, other: Entry) -> bool
    ensures { result ≡ is_lt (entry_cmp entry other) }
{
    (entry.version, entry.key) < (other.version, other.key)
}

// Puts an entry at its rank, over that of its key: behind all others where it is newer than each of them. The
// answer is how many entries the row has then.
pub(crate) fn put_in(block: &mut [Entry], len: usize, entry: Entry) -> usize
    requires row { HasRow block.old len }
    requires entry { FitsRow (length block.old) entry }
    ensures { IsPutInBlock entry block.old len block.new result }
{
    if len > 0 && block[len - 1].version < entry.version {
        let kept = keep_others(block, len, entry.key);
        block[kept] = entry;
        kept + 1
    } else {
        put_at_rank(block, len, entry)
    }
}

// Moves the entries of other keys to the front, and answers how many they are. It writes each, so that
// nothing that it does next hangs on a guess.
fn keep_others(block: &mut [Entry], len: usize, key: u32) -> usize
    requires { len ≤ length block.old }
    ensures len { length block.new ≡ length block.old }
    ensures few { result ≤ len }
    ensures kept { take result block.new ≡ filter (has_other_key key) (take len block.old) }
{
    let mut kept = 0;
    for at in 0..len {
        let held = block[at];
        block[kept] = held;
        if held.key != key {
            kept += 1;
        }
    }
    kept
}

// Puts an entry at its rank, over that of its key, by a search for both.
fn put_at_rank(block: &mut [Entry], len: usize, entry: Entry) -> usize
    requires row { HasRow block.old len }
    requires entry { FitsRow (length block.old) entry }
    ensures { IsPutInBlock entry block.old len block.new result }
{
    let index = index_of(&block[..len], entry.key);
    if index < len {
        block.copy_within(index + 1..len, index);
        insert(block, len - 1, entry)
    } else {
        insert(block, len, entry)
    }
}

fn insert(block: &mut [Entry], len: usize, entry: Entry) -> usize
    requires row { HasRow block.old len }
    requires absent { All (λ e. e.key ≢ entry.key) (take len block.old) }
    requires entry { FitsRow (length block.old) entry }
    ensures one_more { result ≡ len + 1 }
    ensures put { IsPutInBlock entry block.old len block.new result }
{
    let rank = rank_of(&block[..len], entry);
    if rank < len {
        block.copy_within(rank..len, rank + 1);
    }
    block[rank] = entry;
    len + 1
}
