//! A node's table, whose entries lie in rows, one for each owner.

ghost use Rattle.std.specs.Prelude.{◌≡◌, ◌≢◌, ◌↔◌, ◌+◌, ◌-◌, ◌^◌, ◌<◌, ◌≤◌, All, IfOk, IsOk, IsTrue, OnOk, OnErr, IsOkUnless, slice_index};
ghost use Rattle.bench_types.specs.declared.faults.Fault.TheVariants.{OutOfMemory};
ghost use Rattle.node_table.specs.NodeTableView.{comes_in};

use crate::layouts::{Layout, Row};
use crate::rows::find;
use bench_types::limits::{LEAST_KEYS, MOST_KEYS, MOST_NODES};
use bench_types::{Entry, Fault, Item, Mark};
use model::MemoryTable;
use std::alloc::Global;
use std::marker::Model;

/// What one node holds of every node's state.
#[derive(Drop)]
pub struct NodeTable {
    layout: Layout,
}

impl Model for NodeTable {
    ghost use Rattle.node_table.specs.NodeTableView.{NodeTableView};
    ghost use Rattle.node_table.specs.inner.Codes.{kept_code};
    ghost use Rattle.node_table.specs.inner.Layouts.{table_laid, room_of, IsLayout};

    ghost Value = { NodeTableView };

    ghost coded = { kept_code };

    ghost view = { λ t. record { table = table_laid t.layout; room = room_of t.layout } };

    ghost invariant = { λ t. IsLayout t.layout };
}

impl MemoryTable for NodeTable {
    ghost use Rattle.node_table.specs.NodeTableView.{kept_table};

    ghost table = { kept_table };
}

impl NodeTable {
    ghost use Rattle.model.specs.Table.{empty_table, entry_at, greatest_mark, greatest_version, count_of, with_own_write, applied, without_others, without_all, IsProper};
    ghost use Rattle.node_table.specs.NodeTableView.{blocks_for, HasRoom, MayApply};
    ghost use Rattle.model.specs.calls.Table.{MayReceive, IsItemInPlace};
    ghost use Rattle.node_table.specs.Entries.{AreAbove, AreGenerations, AreGreatest};
    ghost use Rattle.bench_types.specs.Mark.{absent};

    /// The empty table of a node, in its generation 0. It takes 16 bytes for each node, of which it
    /// writes 12: the others are for the generations of copies, once one is above 0. An error is lack of
    /// memory (`OutOfMemory`).
    pub fn new(alloc: Global, node: u32, nodes: u32, keys: u32) -> Result<NodeTable, Fault>
        requires node { node < nodes }
        requires nodes { nodes ≤ MOST_NODES }
        requires some_key { LEAST_KEYS ≤ keys }
        requires keys { keys ≤ MOST_KEYS }
        ensures empty { IfOk result (λ t. t.table ≡ empty_table node nodes keys) }
        ensures only { IsOkUnless result OutOfMemory }
    {
        let layout = Layout {
            node,
            nodes,
            keys,
            generation: 0,
            slots: Vec::new(alloc),
            rows: vec![in alloc; Row { start: 0, len: 0 }; nodes as usize]?,
            greatest: vec![in alloc; 0; nodes as usize]?,
            generations: Vec::with_capacity(alloc, nodes as usize)?,
            count: 0,
        };
        Ok(NodeTable { layout })
    }

    /// The node whose table this is.
    pub fn node(&self) -> u32
        ensures value { result ≡ self.now.table.node }
        ensures proper { IsProper self.now.table }
    {
        self.layout.node
    }

    /// How many nodes there are.
    pub fn nodes(&self) -> u32
        ensures value { result ≡ self.now.table.nodes }
        ensures proper { IsProper self.now.table }
    {
        self.layout.nodes
    }

    /// How many keys each node has.
    pub fn keys(&self) -> u32
        ensures value { result ≡ self.now.table.keys }
        ensures proper { IsProper self.now.table }
    {
        self.layout.keys
    }

    /// The node's generation: how often it has forgotten.
    pub fn generation(&self) -> u32
        ensures value { result ≡ self.now.table.generation }
        ensures proper { IsProper self.now.table }
    {
        self.layout.generation
    }

    /// The entries held of an owner, ascending by version and then by key. Nothing is copied or
    /// walked over.
    pub fn entries_of(&self, owner: u32) -> &[Entry]
        requires { owner < self.now.table.nodes }
        ensures entries { AreAbove self.now.table owner absent result.now }
        ensures proper { IsProper self.now.table }
    {
        self.layout.row(owner)
    }

    /// Those above a mark: all where the copy is of a newer generation than the mark, none where it
    /// is of an older one. Nothing is copied, and each entry of the owner is looked at once at most.
    pub fn above(&self, owner: u32, mark: Mark) -> &[Entry]
        requires { owner < self.now.table.nodes }
        ensures entries { AreAbove self.now.table owner mark result.now }
        ensures proper { IsProper self.now.table }
    {
        self.layout.above(owner, mark)
    }

    /// The greatest version held of each owner in its copy's generation, in order, 0 where none is.
    /// Nothing is copied or walked over.
    pub fn greatest_versions(&self) -> &[u32]
        ensures versions { AreGreatest self.now.table result.now }
        ensures proper { IsProper self.now.table }
    {
        &self.layout.greatest
    }

    /// The generation of each owner's copy, in order, 0 where nothing is held: an empty list stands
    /// for generation 0 throughout. Nothing is copied or walked over.
    pub fn generations(&self) -> &[u32]
        ensures generations { AreGenerations self.now.table result.now }
        ensures proper { IsProper self.now.table }
    {
        &self.layout.generations
    }

    /// How many entries are held. Nothing is walked over.
    pub fn count(&self) -> u32
        ensures { result ≡ count_of self.now.table }
    {
        self.layout.count
    }

    /// The entry held of an owner's key, if any: a walk over the owner's row.
    pub fn get(&self, owner: u32, key: u32) -> Option<Entry>
        ensures { result ≡ entry_at self.now.table owner key }
    {
        if owner < self.layout.nodes {
            find(self.layout.row(owner), key)
        } else {
            None
        }
    }

    /// The greatest mark held of an owner, the absent one where none is. Nothing is walked over.
    pub fn greatest(&self, owner: u32) -> Mark
        ensures { result ≡ greatest_mark self.now.table owner }
    {
        if owner < self.layout.nodes {
            self.layout.greatest_mark(owner)
        } else {
            Mark::ABSENT
        }
    }

    /// The node writes one of its own keys, in its generation, and the answer is the version of that
    /// write: one walk over the node's row, which closes it up. An error is lack of memory
    /// (`OutOfMemory`) for the first write of all, and then nothing was written and the room is no less. With room
    /// for one owner there is none.
    pub fn write_own(&mut self, key: u32, value: u32, born: u32) -> Result<u32, Fault>
        requires key { key < self.old.table.keys }
        requires fits { greatest_version self.old.table self.old.table.node + 1 < 2 ^ 32 }
        ensures version { IfOk result (λ v. v ≡ greatest_version self.old.table self.old.table.node + 1) }
        ensures ok { OnOk result (self.new.table ≡ with_own_write self.old.table key value born) }
        ensures err { OnErr result (self.new.table ≡ self.old.table) }
        ensures keeps_room { OnErr result (self.old.room ≤ self.new.room) }
        ensures succeeds { 1 ≤ self.old.room → IsOk result }
        ensures only { IsOkUnless result OutOfMemory }
    {
        let owner = self.layout.node;
        let generation = self.layout.generation;
        let version = self.layout.greatest[owner as usize] + 1;
        let entry = Entry {
            key,
            generation,
            version,
            value,
            born,
        };
        self.layout.take(Item { owner, entry })?;
        Ok(version)
    }

    /// Makes room for a list of items, so that `apply` takes no memory: a block of slots, one for
    /// each key, for each owner of whom nothing is held. What is held is copied where it has to move
    /// for that. Where there is room already nothing is done; after a refusal the room is no less. A
    /// walk over the list, and another where it has such owners. An error is lack of memory
    /// (`OutOfMemory`).
    pub fn reserve_for(&mut self, added: &[Item]) -> Result<(), Fault>
        ensures same { self.new.table ≡ self.old.table }
        ensures room { OnOk result (HasRoom self.new added.now) }
        ensures keeps_room { self.old.room ≤ self.new.room }
        ensures succeeds { HasRoom self.old added.now → IsOk result }
        ensures only { IsOkUnless result OutOfMemory }
    {
        let blocks = self.layout.blocks_for(added);
        match blocks.checked_mul(self.layout.keys as usize) {
            Some(slots) => {
                self.layout.slots.reserve(slots)?;
                Ok(())
            }
            None => Err(Fault::OutOfMemory),
        }
    }

    /// Takes items in turn: each place keeps the newer entry, and the held one where the marks are
    /// equal. An item of a newer generation than its owner's copy drops all that is held of its owner,
    /// and one of an older generation changes nothing. It takes no memory. For each item it walks over
    /// the owner's row: once where the item is the newest of its owner, and else for its key and for
    /// its rank. No other row changes.
    pub fn apply(&mut self, added: &[Item])
        requires room { HasRoom self.old added.now }
        requires others { All (λ i. i.owner ≢ self.old.table.node) added.now }
        requires in_place { All (IsItemInPlace self.old.table.nodes self.old.table.keys) added.now }
        ensures { self.new.table ≡ applied self.old.table added.now }
    {
        for item in added {
            self.layout.take(*item).unwrap();
        }
    }

    /// Whether `apply` takes these items, for a caller that doesn't know it. One walk over the list,
    /// and one for each owner of whom nothing is held.
    pub fn may_apply(&self, added: &[Item]) -> bool
        ensures { IsTrue result ↔ MayApply self.now added.now }
    {
        let spare = self.layout.slots.capacity() - self.layout.slots.len();
        self.blocks_for(added) <= spare / self.layout.keys as usize
            && added.iter().all(|item| self.may_receive(*item))
    }

    fn blocks_for(&self, added: &[Item]) -> usize
        ensures { result ≡ blocks_for self.now.table added.now }
    {
        let mut blocks = 0;
        for owner in 0..self.layout.nodes {
            if self.greatest(owner).version == 0 && comes_in(added, owner) {
                blocks += 1;
            }
        }
        blocks
    }

    fn may_receive(&self, item: Item) -> bool
        ensures { IsTrue result ↔ MayReceive self.now.table item }
    {
        item.owner != self.layout.node
            && item.owner < self.layout.nodes
            && item.entry.key < self.layout.keys
            && item.entry.version > 0
    }

    /// Drops the entries of all other owners, as a restart does. The node's own move to the front,
    /// in place: it takes no memory and gives none back. One walk over the owners.
    pub fn forget_others(&mut self)
        ensures table { self.new.table ≡ without_others self.old.table }
        ensures keeps_room { self.old.room ≤ self.new.room }
    {
        self.layout.forget_others();
    }

    /// Drops all entries, the node's own too, and begins the node's next generation, as a restart does
    /// that forgets. It takes no memory and gives none back. One walk over the owners.
    pub fn forget_all(&mut self)
        requires { self.old.table.generation + 1 < 2 ^ 32 }
        ensures table { self.new.table ≡ without_all self.old.table }
        ensures keeps_room { self.old.room ≤ self.new.room }
    {
        self.layout.forget_all();
    }

    /// A table with the same node, nodes, keys, generation and entries, but with room of its own. One walk over
    /// the table. An error is lack of memory (`OutOfMemory`).
    pub fn try_clone(&self) -> Result<NodeTable, Fault>
        ensures equal { IfOk result (λ t. t.table ≡ self.now.table) }
        ensures only { IsOkUnless result OutOfMemory }
    {
        let nodes = self.layout.nodes;
        let mut generations = self.layout.generations.clone()?;
        generations.reserve(nodes as usize - generations.len())?;
        let layout = Layout {
            node: self.layout.node,
            nodes,
            keys: self.layout.keys,
            generation: self.layout.generation,
            slots: self.layout.slots.clone()?,
            rows: self.layout.rows.clone()?,
            greatest: self.layout.greatest.clone()?,
            generations,
            count: self.layout.count,
        };
        Ok(NodeTable { layout })
    }
}

/// The generation of an owner's copy in a list as `NodeTable::generations` gives it, 0 where the list has none.
pub fn generation_in(generations: &[u32], owner: u32) -> u32
    ensures { result ≡ slice_index generations.now owner }
{
    generations.get(owner as usize).copied().unwrap_or(0)
}

fn comes_in(added: &[Item], owner: u32) -> bool
    ensures { result ≡ comes_in added.now owner }
{
    added.iter().any(|item| item.owner == owner)
}
