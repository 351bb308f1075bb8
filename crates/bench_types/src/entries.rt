//! What a node holds: versioned entries.

ghost use Rattle.std.specs.Prelude.{◌≡◌, ◌≤◌};
ghost use Rattle.bench_types.specs.Budget.{entry_size};
ghost use Rattle.bench_types.specs.Mark.{absent, is_before, mark_of};

use crate::limits::{ENTRY_SIZES, LEAST_ENTRY_SIZE, MOST_ENTRY_SIZE};

/// How far an owner's writes have come: marks compare by the generation first.
#[derive(Clone, Copy, Debug, PartialEq, Eq, PartialOrd, Ord)]
pub struct Mark {
    pub generation: u32,
    pub version: u32,
}

impl Mark {
    /// The mark of what is absent.
    pub const ABSENT: Mark = Mark {
        generation: 0,
        version: 0,
    };

    /// Whether it compares less.
    pub fn is_before(self, other: Mark) -> bool
        ensures { result ≡ is_before self other }
    {
        self < other
    }
}

/// One version of one key of a node's state.
#[derive(Clone, Copy, Debug, PartialEq, Eq)]
pub struct Entry {
    pub key: u32,
    /// The owner's generation when it wrote this: how often it had forgotten.
    pub generation: u32,
    /// The n-th write of a generation has version n, from 1. What is absent counts as version 0 of
    /// generation 0.
    pub version: u32,
    pub value: u32,
    /// The round in which the owner wrote it.
    pub born: u32,
}

impl Entry {
    /// What it is compared by.
    pub fn mark(&self) -> Mark
        ensures { result ≡ mark_of self.now }
    {
        Mark {
            generation: self.generation,
            version: self.version,
        }
    }

    /// How many bytes it takes of a message: 24, and as many more as its value modulo 1000.
    pub fn size(&self) -> u32
        ensures size { result ≡ entry_size self.now }
        ensures limits { (LEAST_ENTRY_SIZE ≤ result) × (result ≤ MOST_ENTRY_SIZE) }
    {
        LEAST_ENTRY_SIZE + self.value % ENTRY_SIZES
    }
}

/// An entry with the node that wrote it.
#[derive(Clone, Copy, Debug, PartialEq, Eq)]
pub struct Item {
    pub owner: u32,
    pub entry: Entry,
}
