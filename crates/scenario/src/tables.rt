//! Reading the elements of a scenario's arrays.

ghost use Rattle.std.specs.Prelude.{◌≡◌, ◌≢◌, ◌≤◌, IfOk, IfErr};
ghost use Rattle.toml.specs.View.{table_view};
ghost use Rattle.scenario.specs.Elements.{has_generations, restart_fields, forget_at};
ghost use Rattle.scenario.specs.inner.Elements.{apart_at};
ghost use Rattle.scenario.specs.Fields.{number_at};

use crate::arrays::{Elements, array_of, as_table};
use crate::elements::{Load, Partition, Restart};
use crate::fields::{flag_at, number_at, number_of, value_at};
use bench_types::limits::{MOST_ROUNDS, MOST_WRITES};
use bench_types::{Fault, Field};
use std::alloc::Global;
use toml::{Table, Value};

const RESTART_FIELDS: [Field; 4] = [
    Field::RestartNode,
    Field::RestartRound,
    Field::RestartDown,
    Field::RestartForget,
];

/// The partitions of a scenario.
pub(crate) struct Partitions;

impl Elements for Partitions {
    type Element = Partition;

    ghost use Rattle.scenario.specs.inner.Elements.{partition_of};
    ghost use Rattle.scenario.specs.Settings.{IsLawfulPartition};

    ghost checked = { λ _. partition_of };

    ghost lawful = { λ _. IsLawfulPartition };

    fn of(alloc: Global, value: &Value, _format: u32, nodes: u32) -> Result<Partition, Fault> {
        let table = as_table(value, Field::Partition)?;
        let from = number_at(table, Field::PartitionFrom, 1, MOST_ROUNDS)?;
        let to = number_at(table, Field::PartitionTo, from, MOST_ROUNDS)?;
        let apart = apart_at(alloc, table, nodes)?;
        Ok(Partition { from, to, apart })
    }
}

/// The restarts of a scenario.
pub(crate) struct Restarts;

impl Elements for Restarts {
    type Element = Restart;

    ghost use Rattle.scenario.specs.inner.Elements.{restart_of};
    ghost use Rattle.scenario.specs.Settings.{IsLawfulRestart};

    ghost checked = { restart_of };

    ghost lawful = { IsLawfulRestart };

    fn of(_alloc: Global, value: &Value, format: u32, nodes: u32) -> Result<Restart, Fault> {
        let table = as_table(value, Field::Restart)?;
        let node = number_at(table, Field::RestartNode, 0, nodes - 1)?;
        let round = number_at(table, Field::RestartRound, 1, MOST_ROUNDS)?;
        let down = number_at(table, Field::RestartDown, 0, MOST_ROUNDS)?;
        let forget = forget_at(table, format)?;
        Ok(Restart {
            node,
            round,
            down,
            forget,
        })
    }
}

/// The loads of a scenario.
pub(crate) struct Loads;

impl Elements for Loads {
    type Element = Load;

    ghost use Rattle.scenario.specs.inner.Elements.{load_of};
    ghost use Rattle.scenario.specs.Settings.{IsLawfulLoad};

    ghost checked = { λ _ _. load_of };

    ghost lawful = { λ _ _. IsLawfulLoad };

    fn of(_alloc: Global, value: &Value, _format: u32, _nodes: u32) -> Result<Load, Fault> {
        let table = as_table(value, Field::Load)?;
        let from = number_at(table, Field::LoadFrom, 1, MOST_ROUNDS)?;
        let to = number_at(table, Field::LoadTo, from, MOST_ROUNDS)?;
        let writes = number_at(table, Field::LoadWrites, 0, MOST_WRITES)?;
        Ok(Load { from, to, writes })
    }
}

fn has_generations(format: u32) -> bool
    ensures { result ≡ has_generations format }
{
    format == 2
}

// Whether a restart forgets: only a format with generations says so.
fn forget_at(table: &Table, format: u32) -> Result<bool, Fault>
    ensures { result ≡ forget_at format (table_view table.now) }
{
    if has_generations(format) {
        flag_at(table, Field::RestartForget)
    } else {
        Ok(false)
    }
}

/// The fields that a restart has in a format, in the order of their checks.
pub(crate) fn restart_fields(format: u32) -> &'static [Field]
    ensures { result.now ≡ restart_fields format }
{
    if has_generations(format) {
        &RESTART_FIELDS
    } else {
        &RESTART_FIELDS[..3]
    }
}

// The nodes of one side of a partition, among so many.
fn apart_at(alloc: Global, table: &Table, nodes: u32) -> Result<Vec<u32>, Fault>
    requires { 2 ≤ nodes }
    ensures ok { IfOk result (λ apart. apart_at nodes (table_view table.now) ≡ Ok apart.items) }
    ensures refused { IfErr result (λ fault.
        fault ≢ Fault.OutOfMemory → apart_at nodes (table_view table.now) ≡ Err fault) }
{
    let value = value_at(table, Field::PartitionApart)?;
    let values = array_of(value, Field::PartitionApart)?;
    let mut apart = Vec::new(alloc);
    let mut least = 0;
    for value in values {
        let node = number_of(value, Field::PartitionApart, least, nodes - 1)?;
        apart.push(node)?;
        least = node + 1;
    }
    Ok(apart)
}
