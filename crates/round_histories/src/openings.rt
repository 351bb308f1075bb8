//! The empty tables that a simulation begins with.

ghost use Rattle.std.specs.Prelude.{◌≡◌, ◌≤◌, IsOkUnless};
ghost use Rattle.bench_types.specs.declared.faults.Fault.TheVariants.{OutOfMemory};
ghost use Rattle.limits.specs.declared.TheConstants.{MOST_NODES};
ghost use Rattle.round_histories.specs.EmptyTables.{AreJoined, AreMadeEmpty, IsStretchOfNodes};

use crate::round_histories::RoundHistories;
use bench_types::Fault;
use model::MemoryTable;
use std::alloc::Global;
use std::ops::Range;
use std::thread::{Threads, join};

/// The empty tables of some nodes.
pub fn empty_tables<T: MemoryTable, K: RoundHistories<T>>(
    alloc: Global,
    histories: &K,
    nodes: Range<u32>,
) -> Result<Vec<T>, Fault>
    requires { IsStretchOfNodes (K.kept histories.now) nodes.start nodes.end }
    ensures { AreMadeEmpty T.table (K.kept histories.now) nodes.start nodes.end result }
{
    let Range { start, end } = nodes;
    let mut tables = Vec::with_capacity(alloc, (end - start) as usize)?;
    for node in start..end {
        tables.push_reserved(histories.empty_table(alloc, node)?);
    }
    Ok(tables)
}

/// Some nodes, and how many of their tables each thread makes.
#[derive(Drop)]
pub struct Shares {
    pub nodes: Range<u32>,
    pub size: u32,
    pub ghost some: { 1 ≤ size },
}

// So many numbers are worth a thread that makes them: most of the time goes to the system, which clears their memory.
const NUMBERS_OF_A_THREAD: u32 = 2_097_152;

impl Shares {
    /// All nodes, shared out to so many workers, if all have enough to make, or else to fewer. It bears on time alone.
    pub fn of(nodes: u32, keys: u32, workers: u32) -> Shares
        requires some_node { 1 ≤ nodes }
        requires nodes { nodes ≤ MOST_NODES }
        requires some_key { 1 ≤ keys }
        requires workers { 1 ≤ workers }
        ensures first { result.nodes.start ≡ 0 }
        ensures last { result.nodes.end ≡ nodes }
    {
        let enough = NUMBERS_OF_A_THREAD / nodes / keys;
        Shares {
            nodes: 0..nodes,
            size: (nodes / workers).max(enough) + 1,
        }
    }
}

/// The same tables, in shares. This thread starts all others, and makes a share too; where one can't be started, it
/// makes more.
#[cycle(rest)]
pub fn empty_tables_by<T: MemoryTable + Send, K: RoundHistories<T>>(
    rt: &(impl Threads + Sync),
    alloc: Global,
    histories: &K,
    shares: Shares,
) -> Result<Vec<T>, Fault>
    requires { IsStretchOfNodes (K.kept histories.now) shares.nodes.start shares.nodes.end }
    ensures { AreMadeEmpty T.table (K.kept histories.now) shares.nodes.start shares.nodes.end result }
{
    let Shares { nodes, size } = shares;
    let Range { start, end } = nodes;
    if end - start <= size {
        return empty_tables(alloc, histories, start..end);
    }
    let middle = start + size;
    let first = || -> Result<Vec<T>, Fault>
        requires { IsStretchOfNodes (K.kept histories.now) start middle }
        ensures { AreMadeEmpty T.table (K.kept histories.entry.now) start middle result }
    { empty_tables(alloc, histories, start..middle) };
    let others = || -> Result<Vec<T>, Fault>
        requires { IsStretchOfNodes (K.kept histories.now) middle end × (1 ≤ size) }
        ensures { AreMadeEmpty T.table (K.kept histories.entry.now) middle end result }
    {
        empty_tables_by(
            rt,
            alloc,
            histories,
            Shares {
                nodes: middle..end,
                size,
            },
        )
    };
    let (first, others) = join(rt, first, others);
    joined(first, others)
}

// All of the first, and then all others.
fn joined<T: Drop>(
    first: Result<Vec<T>, Fault>,
    others: Result<Vec<T>, Fault>,
) -> Result<Vec<T>, Fault>
    requires first { IsOkUnless first OutOfMemory }
    requires others { IsOkUnless others OutOfMemory }
    ensures { AreJoined first others result }
{
    let mut all = first?;
    all.append(&mut others?)?;
    Ok(all)
}
