//! The parts of a scenario that are read before its arrays, in the order of their checks.

ghost use Rattle.std.specs.Prelude.{◌≡◌, ◌*◌, ◌≤◌, IfOk, OnOk};
ghost use Rattle.toml.specs.View.{table_view};
ghost use Rattle.scenario.specs.Order.{size_checked};
ghost use Rattle.scenario.specs.inner.Checked.{basics_at, conduct_at};
ghost use Rattle.scenario.specs.inner.Parts.{IsLawfulBasics, IsLawfulConduct};

use crate::budgets::budget_at;
use crate::choices::{Choice, Peers, Rotation};
use crate::fields::{integer_at, number_at};
use crate::words::{choice_at, mode_at, peers_at, rotation_at};
use bench_types::limits::{
    LEAST_KEYS, LEAST_NODES, MOST_ENTRIES, MOST_KEYS, MOST_LOSS, MOST_NODES, MOST_ROUNDS,
    MOST_SEED, MOST_WRITES,
};
use bench_types::{Budget, Fault, Field, Mode};
use toml::Table;

/// How large a run is, and what its random words follow from.
#[derive(Clone, Copy, Debug)]
pub(crate) struct Basics {
    pub(crate) format: u32,
    pub(crate) nodes: u32,
    pub(crate) keys: u32,
    pub(crate) rounds: u32,
    pub(crate) seed: u64,
}

/// By which rules the nodes write and exchange.
#[derive(Clone, Copy, Debug)]
pub(crate) struct Conduct {
    pub(crate) mode: Mode,
    pub(crate) budget: Budget,
    pub(crate) peers: Peers,
    pub(crate) rotation: Rotation,
    pub(crate) choice: Choice,
    pub(crate) loss_ppm: u32,
    pub(crate) writes: u32,
}

fn check_size(nodes: u32, keys: u32) -> Result<(), Fault>
    requires nodes { nodes ≤ MOST_NODES }
    requires keys { keys ≤ MOST_KEYS }
    ensures answer { result ≡ size_checked nodes keys }
    ensures within { OnOk result (nodes * nodes * keys ≤ MOST_ENTRIES) }
{
    let (nodes, keys) = (u64::from(nodes), u64::from(keys));
    if nodes * nodes * keys <= MOST_ENTRIES {
        Ok(())
    } else {
        Err(Fault::TooLarge)
    }
}

/// Reads how large the run is. The size is checked before the rounds.
pub(crate) fn basics_at(table: &Table) -> Result<Basics, Fault>
    ensures answer { result ≡ basics_at (table_view table.now) }
    ensures lawful { IfOk result IsLawfulBasics }
{
    let format = number_at(table, Field::Format, 1, 2)?;
    let nodes = number_at(table, Field::Nodes, LEAST_NODES, MOST_NODES)?;
    let keys = number_at(table, Field::Keys, LEAST_KEYS, MOST_KEYS)?;
    check_size(nodes, keys)?;
    let rounds = number_at(table, Field::Rounds, 1, MOST_ROUNDS)?;
    let seed = integer_at(table, Field::Seed, 0, MOST_SEED)?;
    Ok(Basics {
        format,
        nodes,
        keys,
        rounds,
        seed,
    })
}

/// Reads the rules of the run in a format.
pub(crate) fn conduct_at(table: &Table, format: u32) -> Result<Conduct, Fault>
    requires { (1 ≤ format) × (format ≤ 2) }
    ensures answer { result ≡ conduct_at format (table_view table.now) }
    ensures lawful { IfOk result (IsLawfulConduct format) }
{
    let mode = mode_at(table)?;
    let budget = budget_at(table, format)?;
    let peers = peers_at(table)?;
    let rotation = rotation_at(table)?;
    let choice = choice_at(table)?;
    let loss_ppm = number_at(table, Field::LossPpm, 0, MOST_LOSS)?;
    let writes = number_at(table, Field::Writes, 0, MOST_WRITES)?;
    Ok(Conduct {
        mode,
        budget,
        peers,
        rotation,
        choice,
        loss_ppm,
        writes,
    })
}
