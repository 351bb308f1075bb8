//! How far the copies of all nodes lag behind their owners.

ghost use Rattle.std.specs.Prelude.{◌≡◌, ◌↔◌, ◌*◌, ◌<◌, ◌≤◌, All, IfOk, IsOkUnless, IsTrue, length};
ghost use Rattle.bench_types.specs.declared.faults.Fault.TheVariants.{OutOfMemory};
ghost use Rattle.limits.specs.declared.TheConstants.{MOST_NODES, MOST_KEYS, MOST_ROUNDS};
ghost use Rattle.bench_types.specs.Mark.{mark_held};
ghost use Rattle.model.specs.Figures.{staleness_of, is_left_over, copy_figures, node_figures, figures_of};
ghost use Rattle.model.specs.calls.OwnerListView.{lists_in, written};
ghost use Rattle.model.specs.calls.Tables.{IsCluster};
ghost use Rattle.model.specs.calls.Writes.{AreBornBy};
ghost use Rattle.node_table.specs.NodeTableView.{tables_in};
ghost use Rattle.staleness.specs.inner.Totals.{version_known, joined, total_below, triple_figures, found_at, AreFew, AreCountable, AreCounted, AreCurrent, HaveRoom, IsCounted, IsCurrent};

use bench_types::{Entry, Fault, Figures};
use node_table::NodeTable;
use owner_lists::OwnerList;
use rayon::prelude::*;
use std::alloc::{AllocError, Global};
use std::thread::Threads;

// One key of a node's copy of an owner.
#[derive(Clone, Copy)]
pub(crate) struct Triple {
    pub(crate) node: usize,
    pub(crate) owner: u32,
    pub(crate) key: u32,
}

const NOTHING: Figures = Figures {
    stale: 0,
    greatest: 0,
    leftover: 0,
};

// How many nodes are worth a thread of their own.
const NODES_OF_A_THREAD: usize = 16;

/// The figures at the end of a round, down nodes included: how many keys of copies are below the
/// last writes in their owners' lists, by marks, each list of its owner's generation; the greatest
/// number of rounds since the first write that one of them missed, that round included; and how many
/// entries of copies are of an older generation than their owner's.
///
/// It works in threads, node by node, where there are enough nodes, and what it answers does not depend on
/// how. A copy that equals its owner's own entries is passed over, if these miss nothing of the owner's list. Of
/// another each key is looked up in its node's table, and, where it is stale, the first write that it missed in its
/// owner's list. It takes memory in proportion to the nodes. An error is lack of that memory (`OutOfMemory`).
pub fn figures(
    rt: &(impl Threads + Sync),
    alloc: Global,
    tables: &[NodeTable],
    lists: &[OwnerList],
    round: u32,
) -> Result<Figures, Fault>
    requires cluster { IsCluster (length tables.now) (tables_in tables.now) }
    requires one_list_each { length lists.now ≡ length tables.now }
    requires round { round ≤ MOST_ROUNDS }
    requires born { All (AreBornBy round) (lists_in lists.now) }
    ensures figures { IfOk result (λ f. f ≡ figures_of round (tables_in tables.now) (lists_in lists.now)) }
    ensures only { IsOkUnless result OutOfMemory }
{
    let nodes = figures_of_nodes(rt, alloc, tables, lists, round)?;
    Ok(joined_all(&nodes))
}

fn figures_of_nodes(
    rt: &(impl Threads + Sync),
    alloc: Global,
    tables: &[NodeTable],
    lists: &[OwnerList],
    round: u32,
) -> Result<Vec<Figures>, AllocError>
    requires { AreCountable round (tables_in tables.now) (lists_in lists.now) }
    ensures { IfOk result (λ v. AreCounted round (tables_in tables.now) (lists_in lists.now) v.items) }
{
    let current = current_nodes(alloc, tables, lists, round)?;
    (0..tables.len())
        .into_par_iter()
        .with_min_len(NODES_OF_A_THREAD)
        .map(
            |node: usize| -> Figures
                requires { AreCountable round (tables_in tables.now) (lists_in lists.now)
                    × AreCurrent round (tables_in tables.now) (lists_in lists.now) (length tables.now) current.items
                    × (node < length tables.now) }
                ensures { IsCounted round (tables_in tables.entry.now) (lists_in lists.entry.now) node result }
            { figures_of_node(tables, lists, &current, node, round) },
        )
        .collect(rt, alloc)
}

// Of each node, in order, whether its own entries miss nothing of its list.
fn current_nodes(
    alloc: Global,
    tables: &[NodeTable],
    lists: &[OwnerList],
    round: u32,
) -> Result<Vec<bool>, AllocError>
    requires { AreCountable round (tables_in tables.now) (lists_in lists.now) }
    ensures { IfOk result
        (λ v. AreCurrent round (tables_in tables.now) (lists_in lists.now) (length tables.now) v.items) }
{
    let mut current = Vec::with_capacity(alloc, tables.len())?;
    for (node, table) in tables.iter().enumerate() {
        current.push(is_current(table, &lists[node], round))?;
    }
    Ok(current)
}

fn is_current(table: &NodeTable, list: &OwnerList, round: u32) -> bool
    requires round { round ≤ MOST_ROUNDS }
    requires born { AreBornBy round (written list.now) }
    ensures { IsTrue result ↔ IsCurrent round table.now.table (written list.now) }
{
    let node = table.node();
    let generation = table.generation();
    for key in 0..table.keys() {
        if staleness_of(list, generation, key, table.get(node, key), round).is_some() {
            return false;
        }
    }
    true
}

fn joined_all(parts: &[Figures]) -> Figures
    requires count { length parts.now ≤ MOST_NODES }
    requires few { All (AreFew (MOST_NODES * MOST_KEYS)) parts.now }
    ensures { result ≡ total_below (length parts.now) (found_at parts.now) }
{
    let mut total = NOTHING;
    for part in parts {
        total = joined(total, *part);
    }
    total
}

fn joined(one: Figures, other: Figures) -> Figures
    requires { HaveRoom one other }
    ensures { result ≡ joined one other }
{
    Figures {
        stale: one.stale + other.stale,
        greatest: one.greatest.max(other.greatest),
        leftover: one.leftover + other.leftover,
    }
}

fn figures_of_node(
    tables: &[NodeTable],
    lists: &[OwnerList],
    current: &[bool],
    node: usize,
    round: u32,
) -> Figures
    requires countable { AreCountable round (tables_in tables.now) (lists_in lists.now) }
    requires current { AreCurrent round (tables_in tables.now) (lists_in lists.now) (length tables.now) current.now }
    requires node { node < length tables.now }
    ensures { IsCounted round (tables_in tables.now) (lists_in lists.now) node result }
{
    let mut total = NOTHING;
    for owner in 0..tables[node].nodes() {
        let copy = tables[node].entries_of(owner);
        let own = tables[owner as usize].entries_of(owner);
        if current[owner as usize] && copy == own {
            continue;
        }
        total = joined(total, figures_of_copy(tables, lists, node, owner, round));
    }
    total
}

fn figures_of_copy(
    tables: &[NodeTable],
    lists: &[OwnerList],
    node: usize,
    owner: u32,
    round: u32,
) -> Figures
    requires countable { AreCountable round (tables_in tables.now) (lists_in lists.now) }
    requires node { node < length tables.now }
    requires owner { owner < length tables.now }
    ensures figures { result ≡ copy_figures round (tables_in tables.now) (lists_in lists.now) node owner }
    ensures few { AreFew MOST_KEYS result }
{
    let mut total = NOTHING;
    for key in 0..tables[node].keys() {
        let triple = Triple { node, owner, key };
        total = joined(total, figures_of_triple(tables, lists, triple, round));
    }
    total
}

fn figures_of_triple(
    tables: &[NodeTable],
    lists: &[OwnerList],
    triple: Triple,
    round: u32,
) -> Figures
    requires countable { AreCountable round (tables_in tables.now) (lists_in lists.now) }
    requires node { triple.node < length tables.now }
    requires owner { triple.owner < length tables.now }
    ensures { result
        ≡ triple_figures round (tables_in tables.now) (lists_in lists.now) triple.node triple.owner triple.key }
{
    let Triple { node, owner, key } = triple;
    if owner as usize == node {
        return NOTHING;
    }
    let generation = tables[owner as usize].generation();
    let held = tables[node].get(owner, key);
    let staleness = staleness_of(&lists[owner as usize], generation, key, held, round);
    Figures {
        stale: u64::from(staleness.is_some()),
        greatest: staleness.unwrap_or(0),
        leftover: u64::from(is_left_over(held, generation)),
    }
}

// For how many rounds what is held of a key has been behind its owner's list, which is of this generation, if it is.
fn staleness_of(
    list: &OwnerList,
    generation: u32,
    key: u32,
    held: Option<Entry>,
    round: u32,
) -> Option<u32>
    requires round { round ≤ MOST_ROUNDS }
    requires born { AreBornBy round (written list.now) }
    ensures { result ≡ staleness_of round generation (written list.now) key (mark_held held) }
{
    let version = version_known(held, generation);
    let missed = list.first_missed(key, version)?;
    Some(round - missed.born + 1)
}

// The version that what is held counts for in a generation: 0 where it is of an older one, all where of a newer one.
fn version_known(held: Option<Entry>, generation: u32) -> u32
    ensures { result ≡ version_known generation held }
{
    match held {
        Some(entry) if entry.generation < generation => 0,
        Some(entry) if generation < entry.generation => u32::MAX,
        Some(entry) => entry.version,
        None => 0,
    }
}

fn is_left_over(held: Option<Entry>, generation: u32) -> bool
    ensures { result ≡ is_left_over generation held }
{
    match held {
        Some(entry) => entry.generation < generation,
        None => false,
    }
}
