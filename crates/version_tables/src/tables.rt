//! A node's table that keeps versions alone: it begins empty, writes its keys, and forgets.

ghost use Rattle.std.specs.Prelude.{◌≡◌, ◌+◌, ◌^◌, ◌<◌, ◌≤◌, ◌==◌, if◌then◌else◌};
ghost use Rattle.version_tables.specs.inner.Codes.{table_view_code};
ghost use Rattle.version_tables.specs.inner.Common.{ℕ, List, Entry, length, map, slice_index, IfOk, IsOkUnless, OutOfMemory, MOST_NODES, digest_kind, digest_size, empty_table, without_others, without_all, table_in, AreChanged, ArePlanesChanged, AreSizes, HasColumn, HasOwnWrite, IsGridIn, IsKept, IsNextWrite, VersionTableView};

use bench_types::{DigestKind, Fault, Mode};
use planes::{Grid, Number, Size, zeros};
use std::alloc::Global;
use std::marker::{Model, PhantomData};

/// What all owners write in a run.
pub trait Written {
    // The writes of each owner, of all its generations, in order.
    ghost lists: { ℕ → List Entry };
}

/// A node's table: of each owner's key the number of the write that is held, 0 for none. They stand in planes, one for
/// each key: `cells[key * nodes + owner]`.
#[derive(Drop)]
pub struct VersionTable<N: Number, H: Written> {
    pub(crate) node: u32,
    pub(crate) nodes: u32,
    pub(crate) keys: u32,
    pub(crate) generation: u32,
    pub(crate) cells: Vec<N>,
    pub(crate) greatest: Vec<N>,
    pub(crate) written: PhantomData<H>,
}

impl<N: Number, H: Written> Model for VersionTable<N, H> {
    ghost Value = { VersionTableView };

    ghost coded = { table_view_code };

    ghost view = { λ t. record {
      node = t.node;
      nodes = t.nodes;
      keys = t.keys;
      generation = t.generation;
      cells = map N.number t.cells.items;
      greatest = map N.number t.greatest.items;
    } };

    ghost invariant = { λ t. IsKept H.lists (record {
      node = t.node;
      nodes = t.nodes;
      keys = t.keys;
      generation = t.generation;
      cells = map N.number t.cells.items;
      greatest = map N.number t.greatest.items;
    }) };
}

impl<N: Number, H: Written> VersionTable<N, H> {
    /// The empty table of a node, in its generation 0. It has a number for each owner and key. An error is lack of
    /// memory (`OutOfMemory`).
    pub fn new(alloc: Global, node: u32, nodes: u32, keys: u32) -> Result<VersionTable<N, H>, Fault>
        requires node { node < nodes }
        requires sizes { AreSizes nodes keys }
        ensures empty { IfOk result (λ t. table_in H.lists t ≡ empty_table node nodes keys) }
        ensures only { IsOkUnless result OutOfMemory }
    {
        let cells = zeros(alloc, keys as usize * nodes as usize)?;
        let greatest = zeros(alloc, nodes as usize)?;
        Ok(VersionTable {
            node,
            nodes,
            keys,
            generation: 0,
            cells,
            greatest,
            written: PhantomData,
        })
    }

    /// The node writes one of its keys: what is held of it is the write of this number. Two numbers change.
    pub fn write_own(&mut self, key: u32, number: N)
        requires key { key < self.old.keys }
        requires next { IsNextWrite H.lists self.old key (N.number number) }
        ensures { HasOwnWrite H.lists self.old (N.number number) self.new }
    {
        let nodes = self.nodes as usize;
        let owner = self.node as usize;
        self.cells[key as usize * nodes + owner] = number;
        self.greatest[owner] = number;
    }

    /// Drops the entries of all other owners, as a restart does. The cost is one pass over the table.
    pub fn forget_others(&mut self)
        ensures { table_in H.lists self.new ≡ without_others (table_in H.lists self.old) }
    {
        let size = Size {
            nodes: self.nodes as usize,
            keys: self.keys as usize,
        };
        let owner = self.node as usize;
        keep_owner(&mut self.cells, size, owner);
        keep_one(&mut self.greatest, owner);
    }

    /// Drops all entries, the node's own too, and begins the node's next generation, as a restart does that forgets.
    /// The cost is one pass over the table.
    pub fn forget_all(&mut self)
        requires { self.old.generation + 1 < 2 ^ 32 }
        ensures { table_in H.lists self.new ≡ without_all (table_in H.lists self.old) }
    {
        clear(&mut self.cells);
        clear(&mut self.greatest);
        self.generation += 1;
    }

    /// The node.
    pub fn node(&self) -> u32
        ensures value { result ≡ self.now.node }
        ensures kept { IsKept H.lists self.now }
    {
        self.node
    }

    /// How many nodes there are.
    pub fn nodes(&self) -> u32
        ensures value { result ≡ self.now.nodes }
        ensures kept { IsKept H.lists self.now }
    {
        self.nodes
    }

    /// How many keys each node has.
    pub fn keys(&self) -> u32
        ensures value { result ≡ self.now.keys }
        ensures kept { IsKept H.lists self.now }
    {
        self.keys
    }

    pub(crate) fn grid(&self) -> Grid<N>
        ensures { IsGridIn N.number H.lists self.now result }
    {
        Grid {
            cells: &self.cells,
            size: Size {
                nodes: self.nodes as usize,
                keys: self.keys as usize,
            },
        }
    }

    /// The node's generation: how often it has forgotten.
    pub fn generation(&self) -> u32
        ensures value { result ≡ self.now.generation }
        ensures kept { IsKept H.lists self.now }
    {
        self.generation
    }

    /// The number of the write that is held of each owner's key, 0 for none: `cells[key * nodes + owner]`. It counts
    /// all writes of the owner from 1, those of earlier generations too.
    pub fn cells(&self) -> &[N]
        ensures value { map N.number result.now ≡ self.now.cells }
        ensures kept { IsKept H.lists self.now }
    {
        &self.cells
    }

    pub(crate) fn greatest_of(&self, owner: u32) -> N
        requires { owner < self.now.nodes }
        ensures { N.number result ≡ slice_index self.now.greatest owner }
    {
        self.greatest[owner as usize]
    }

    // How much a digest tells: of how many owners something is held, or how many entries are.
    pub(crate) fn digest_size(&self, mode: Mode) -> u32
        ensures size { result ≡ digest_size (digest_kind mode) (table_in H.lists self.now) }
        ensures kept { IsKept H.lists self.now }
    {
        match mode.digest_kind() {
            DigestKind::Scuttle => planes::count_held(self.greatest()),
            DigestKind::Precise => planes::count_held(self.cells()),
        }
    }

    // The greatest number of each owner.
    pub(crate) fn greatest(&self) -> &[N]
        ensures value { map N.number result.now ≡ self.now.greatest }
        ensures count { length result.now ≡ self.now.nodes }
        ensures few { self.now.nodes ≤ MOST_NODES }
        ensures kept { IsKept H.lists self.now }
    {
        &self.greatest
    }
}

fn clear<N: Number>(numbers: &mut [N])
    ensures { AreChanged (λ r x y. y ≡ 0) (map N.number numbers.old) (map N.number numbers.new) }
{
    planes::change(numbers, |_, _| N::zero());
}

fn keep_one<N: Number>(numbers: &mut [N], owner: usize)
    ensures { AreChanged (λ r x y. y ≡ (if r == owner then x else 0)) (map N.number numbers.old)
        (map N.number numbers.new) }
{
    planes::change(
        numbers,
        |r, number| planes::pick(r == owner, number, N::zero()),
    );
}

fn keep_owner<N: Number>(cells: &mut [N], size: Size, owner: usize)
    requires { HasColumn size cells.old owner }
    ensures { ArePlanesChanged (λ r k x y. y ≡ (if r == owner then x else 0)) size.nodes size.keys
        (map N.number cells.old) (map N.number cells.new) }
{
    for key in 0..size.keys {
        let start = key * size.nodes;
        let plane = &mut cells[start..start + size.nodes];
        keep_one(plane, owner);
    }
}
