//! The limits of a scenario. With them go sums below a bound, which stand in definitions alone.
#![tactic(auto)]

ghost use Rattle.std.specs.Prelude.{◌≡◌};

pub const LEAST_NODES: u32 = 2;

pub const MOST_NODES: u32 = 4096;

pub const LEAST_KEYS: u32 = 1;

pub const MOST_KEYS: u32 = 64;
/// The most that nodes times nodes times keys may be: the entries that all tables can hold.
pub const MOST_ENTRIES: u64 = 268_435_456;

pub const MOST_ROUNDS: u32 = 100_000;

pub const MOST_BUDGET: u32 = 65_535;
/// The fewest bytes of an entry.
pub const LEAST_ENTRY_SIZE: u32 = 24;
/// How many sizes an entry may have, from the least one on.
pub const ENTRY_SIZES: u32 = 1000;
/// The most bytes of an entry, which a budget in bytes has at least.
pub const MOST_ENTRY_SIZE: u32 = 1023;

pub const MOST_BUDGET_BYTES: u32 = 67_108_864;
/// Losses are given in parts of a million.
pub const MOST_LOSS: u32 = 1_000_000;
/// The most writes of a node in one round.
pub const MOST_WRITES: u32 = 8;

pub const MOST_SEED: u64 = 9_223_372_036_854_775_807;
/// The most partitions, restarts and loads, each.
pub const MOST_ELEMENTS: usize = 1000;
/// The most bytes of a scenario's text.
pub const MOST_BYTES: usize = 1_048_576;
/// The most threads of a run.
pub const MOST_WORKERS: u32 = 64;

/// The limits in numbers, as the document on formats has them. The call does nothing.
pub fn limits_of_format_one()
    ensures nodes { (LEAST_NODES ≡ 2) × (MOST_NODES ≡ 4096) }
    ensures keys { (LEAST_KEYS ≡ 1) × (MOST_KEYS ≡ 64) }
    ensures entries { MOST_ENTRIES ≡ 268435456 }
    ensures rounds { MOST_ROUNDS ≡ 100000 }
    ensures budget { MOST_BUDGET ≡ 65535 }
    ensures loss { MOST_LOSS ≡ 1000000 }
    ensures writes { MOST_WRITES ≡ 8 }
    ensures seed { MOST_SEED ≡ 9223372036854775807 }
    ensures elements { MOST_ELEMENTS ≡ 1000 }
    ensures bytes { MOST_BYTES ≡ 1048576 }
    ensures workers { MOST_WORKERS ≡ 64 }
{}

/// The limits of a budget in bytes, and the sizes of entries. The call does nothing.
pub fn limits_of_format_two()
    ensures entry_size { (LEAST_ENTRY_SIZE ≡ 24) × (ENTRY_SIZES ≡ 1000) × (MOST_ENTRY_SIZE ≡ 1023) }
    ensures budget_bytes { MOST_BUDGET_BYTES ≡ 67108864 }
{}
