//! Digests of tables.

ghost use Rattle.std.specs.Prelude.{◌≡◌, ◌+◌, ◌<◌, slice_index, All, length, IfOk, IsOkUnless};
ghost use Rattle.bench_types.specs.declared.faults.Fault.TheVariants.{OutOfMemory};
ghost use Rattle.bench_types.specs.Mode.{digest_kind};
ghost use Rattle.reconcile.specs.Digests.{IsDigestOf, mark_with, version_index};
ghost use Rattle.reconcile.specs.inner.Inside.{AreVersions, with_row};

use bench_types::{DigestKind, Entry, Fault, Mark, Mode};
use node_table::{NodeTable, generation_in};
use std::alloc::Global;
use std::marker::Model;

/// What a table holds, in short: for each owner the greatest mark held, or each mark held.
#[derive(Drop)]
pub struct Digest {
    nodes: u32,
    keys: u32,
    size: u32,
    // The generation of each owner's copy, or none where all are 0.
    generations: Vec<u32>,
    versions: Versions,
}

// Which versions a digest gives.
#[derive(Drop)]
enum Versions {
    // The version of each owner's greatest mark.
    Greatest(Vec<u32>),
    // That of each key of each owner, owner by owner, 0 where none is held.
    Each(Vec<u32>),
}

impl Model for Digest {
    ghost use Rattle.std.specs.Prelude.{◌≡◌, length};
    ghost use Rattle.reconcile.specs.Digests.{DigestView};

    ghost Value = { DigestView };

    ghost use Rattle.reconcile.specs.inner.Inside.{versions_told, IsComplete};

    ghost view = { λ d. record {
      nodes = d.nodes;
      keys = d.keys;
      size = d.size;
      generations = d.generations.items;
      versions = versions_told d.versions;
    } };

    ghost invariant = { λ d. IsComplete d.nodes d.keys d.generations.items d.versions };
}

impl Digest {
    ghost use Rattle.reconcile.specs.Digests.{IsOfKind, ToldVersions, told_generation, told_greatest, told_each};
    ghost use Rattle.reconcile.specs.inner.Inside.{AreVersionsTold};

    /// The digest that a mode asks of a table. In a scuttle mode it is a copy of a number for each
    /// owner; in a precise one it has a number for each key of each owner, and each entry is looked
    /// at once. Where a generation above 0 is held it has one more number for each owner.
    /// An error is lack of memory (`OutOfMemory`).
    pub fn of(alloc: Global, table: &NodeTable, mode: Mode) -> Result<Digest, Fault>
        ensures ok { IfOk result (IsDigestOf (digest_kind mode) table.now.table) }
        ensures only { IsOkUnless result OutOfMemory }
    {
        match mode.digest_kind() {
            DigestKind::Scuttle => greatest_of_table(alloc, table),
            DigestKind::Precise => each_of_table(alloc, table),
        }
    }

    /// How many owners a scuttle digest tells of, and how many entries a precise one.
    pub fn size(&self) -> u32
        ensures { result ≡ self.now.size }
    {
        self.size
    }

    /// The greatest mark that is held of an owner: two looks.
    pub fn greatest(&self, owner: u32) -> Mark
        requires kind { IsOfKind DigestKind.Scuttle self.now }
        requires owner { owner < self.now.nodes }
        ensures { result ≡ told_greatest self.now owner }
    {
        match &self.versions {
            Versions::Greatest(versions) => mark_in(&self.generations, versions, owner),
            Versions::Each(_) => unreachable!(),
        }
    }

    /// The mark that is held of an owner's key, the absent one where none is: two looks.
    pub fn version(&self, owner: u32, key: u32) -> Mark
        requires kind { IsOfKind DigestKind.Precise self.now }
        requires owner { owner < self.now.nodes }
        requires key { key < self.now.keys }
        ensures { result ≡ told_each self.now owner key }
    {
        match &self.versions {
            Versions::Greatest(_) => unreachable!(),
            Versions::Each(versions) => {
                mark_with(
                    self.generation(owner),
                    versions[version_index(self.keys, owner, key)],
                )
            }
        }
    }

    /// The generation of what is held of an owner, 0 where nothing is: one look.
    pub fn generation(&self, owner: u32) -> u32
        requires { owner < self.now.nodes }
        ensures { result ≡ told_generation self.now owner }
    {
        generation_in(&self.generations, owner)
    }

    // The generation of what is held of each owner, in order, or none where all are 0.
    pub(crate) fn generations(&self) -> &[u32]
        ensures { result.now ≡ self.now.generations }
    {
        &self.generations
    }

    // The greatest version that is held of each owner, in order.
    pub(crate) fn all_greatest(&self) -> &[u32]
        requires kind { IsOfKind DigestKind.Scuttle self.now }
        ensures versions { self.now.versions ≡ ToldVersions.Greatest result.now }
        ensures count { length result.now ≡ self.now.nodes }
    {
        match &self.versions {
            Versions::Greatest(versions) => versions,
            Versions::Each(_) => unreachable!(),
        }
    }

    // The version that is held of each of an owner's keys, in order, 0 where none is.
    pub(crate) fn versions_of(&self, owner: u32) -> &[u32]
        requires kind { IsOfKind DigestKind.Precise self.now }
        requires owner { owner < self.now.nodes }
        ensures { AreVersionsTold self.now owner result.now }
    {
        match &self.versions {
            Versions::Greatest(_) => unreachable!(),
            Versions::Each(versions) => {
                let start = version_index(self.keys, owner, 0);
                &versions[start..start + self.keys as usize]
            }
        }
    }
}

// The mark of an owner's version and generation.
pub(crate) fn mark_in(generations: &[u32], versions: &[u32], owner: u32) -> Mark
    requires { owner < length versions.now }
    ensures generation { result.generation ≡ slice_index generations.now owner }
    ensures version { result.version ≡ slice_index versions.now owner }
{
    Mark {
        generation: generation_in(generations, owner),
        version: versions[owner as usize],
    }
}

fn mark_with(generation: u32, version: u32) -> Mark
    ensures { result ≡ mark_with generation version }
{
    if version == 0 {
        Mark::ABSENT
    } else {
        Mark {
            generation,
            version,
        }
    }
}

fn greatest_of_table(alloc: Global, table: &NodeTable) -> Result<Digest, Fault>
    ensures ok { IfOk result (IsDigestOf DigestKind.Scuttle table.now.table) }
    ensures only { IsOkUnless result OutOfMemory }
{
    let generations = Vec::from_slice(alloc, table.generations())?;
    let greatest = Vec::from_slice(alloc, table.greatest_versions())?;
    Ok(Digest {
        nodes: table.nodes(),
        keys: table.keys(),
        size: greatest.iter().filter(|version| **version > 0).count() as u32,
        generations,
        versions: Versions::Greatest(greatest),
    })
}

fn each_of_table(alloc: Global, table: &NodeTable) -> Result<Digest, Fault>
    ensures ok { IfOk result (IsDigestOf DigestKind.Precise table.now.table) }
    ensures only { IsOkUnless result OutOfMemory }
{
    Ok(Digest {
        nodes: table.nodes(),
        keys: table.keys(),
        size: table.count(),
        generations: Vec::from_slice(alloc, table.generations())?,
        versions: Versions::Each(each_version(alloc, table)?),
    })
}

// The version of each key of each owner, owner by owner, 0 where none is held.
fn each_version(alloc: Global, table: &NodeTable) -> Result<Vec<u32>, Fault>
    ensures versions { IfOk result (λ v. AreVersions table.now.table v.items) }
    ensures only { IsOkUnless result OutOfMemory }
{
    let nodes = table.nodes();
    let keys = table.keys();
    let mut versions = vec![in alloc; 0u32; version_index(keys, nodes, 0)]?;
    for owner in 0..nodes {
        set_row(
            &mut versions,
            version_index(keys, owner, 0),
            table.entries_of(owner),
        );
    }
    Ok(versions)
}

fn set_row(versions: &mut [u32], start: usize, row: &[Entry])
    requires { All (λ e. start + e.key < length versions.old) row.now }
    ensures { versions.new ≡ with_row start row.now versions.old }
{
    for entry in row {
        versions[start + entry.key as usize] = entry.version;
    }
}

fn version_index(keys: u32, owner: u32, key: u32) -> usize
    ensures { result ≡ version_index keys owner key }
{
    owner as usize * keys as usize + key as usize
}
