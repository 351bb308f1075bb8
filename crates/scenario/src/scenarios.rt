//! A scenario that passed the check.

ghost use Rattle.std.specs.Prelude.{◌≡◌, ◌≢◌, ◌*◌, ◌≤◌, IfOk, IfErr};
ghost use Rattle.toml.specs.View.{table_view};
ghost use Rattle.bench_types.specs.calls.Budget.{IsLawfulBudget};
ghost use Rattle.scenario.specs.inner.Checked.{checked, unknown_checked};
ghost use Rattle.scenario.specs.Top.{top_fields};

use crate::arrays::{array_at, only_elements};
use crate::budgets::budget_field;
use crate::choices::{Choice, Peers, Rotation};
use crate::elements::{Load, Partition, Restart};
use crate::fields::only_fields;
use crate::parts::{Basics, Conduct, basics_at, conduct_at};
use crate::tables::{Loads, Partitions, Restarts, restart_fields};
use bench_types::limits::{
    LEAST_KEYS, LEAST_NODES, MOST_ENTRIES, MOST_KEYS, MOST_LOSS, MOST_NODES, MOST_ROUNDS,
    MOST_SEED, MOST_WRITES,
};
use bench_types::{Budget, Fault, Field, Mode, TableName};
use std::alloc::Global;
use std::marker::Model;
use toml::Table;

const PARTITION_FIELDS: [Field; 3] = [
    Field::PartitionFrom,
    Field::PartitionTo,
    Field::PartitionApart,
];

const LOAD_FIELDS: [Field; 3] = [Field::LoadFrom, Field::LoadTo, Field::LoadWrites];

/// The description of a run: how many nodes and keys, for how many rounds, and by which rules.
#[derive(Debug)]
pub struct Scenario {
    basics: Basics,
    conduct: Conduct,
    partitions: Vec<Partition>,
    restarts: Vec<Restart>,
    loads: Vec<Load>,
}

// Written out: a derived drop is proved once more in each crate that lets a scenario go.
impl Drop for Scenario {
    fn drop(self) {
        let Scenario {
            basics: _,
            conduct: _,
            partitions: _,
            restarts: _,
            loads: _,
        } = self;
    }
}

impl Model for Scenario {
    ghost use Rattle.scenario.specs.Settings.{Settings, IsLawfulScenario};

    ghost Value = { Settings };

    ghost use Rattle.scenario.specs.inner.View.{settings_of};

    ghost view = { settings_of };

    ghost invariant = { λ s. IsLawfulScenario (settings_of s) };
}

fn top_fields(format: u32) -> [Field; 15]
    ensures { result ≡ top_fields format }
{
    [
        Field::Format,
        Field::Nodes,
        Field::Keys,
        Field::Rounds,
        Field::Seed,
        Field::Mode,
        budget_field(format),
        Field::Peers,
        Field::Rotation,
        Field::Choice,
        Field::LossPpm,
        Field::Writes,
        Field::Partition,
        Field::Restart,
        Field::Load,
    ]
}

// That no table has a key that is no field's of the format: first the text itself, then each element.
fn check_unknown(table: &Table, format: u32) -> Result<(), Fault>
    ensures { result ≡ unknown_checked format (table_view table.now) }
{
    only_fields(table, TableName::Top, &top_fields(format))?;
    only_elements(
        table,
        TableName::Partition,
        Field::Partition,
        &PARTITION_FIELDS,
    )?;
    only_elements(
        table,
        TableName::Restart,
        Field::Restart,
        restart_fields(format),
    )?;
    only_elements(table, TableName::Load, Field::Load, &LOAD_FIELDS)
}

impl Scenario {
    ghost use Rattle.scenario.specs.Settings.{with_mode, IsBudgetOf, IsLawfulScenario, AreLawful, IsLawfulPartition, IsLawfulRestart, IsLawfulLoad};

    pub(crate) fn checked(alloc: Global, table: &Table) -> Result<Scenario, Fault>
        ensures ok { IfOk result (λ scenario. checked (table_view table.now) ≡ Ok scenario) }
        ensures refused { IfErr result (λ fault.
            fault ≢ Fault.OutOfMemory → checked (table_view table.now) ≡ Err fault) }
    {
        let basics = basics_at(table)?;
        let (format, nodes) = (basics.format, basics.nodes);
        let conduct = conduct_at(table, format)?;
        let partitions = array_at::<Partitions>(alloc, table, Field::Partition, format, nodes)?;
        let restarts = array_at::<Restarts>(alloc, table, Field::Restart, format, nodes)?;
        let loads = array_at::<Loads>(alloc, table, Field::Load, format, nodes)?;
        check_unknown(table, format)?;
        Ok(Scenario {
            basics,
            conduct,
            partitions,
            restarts,
            loads,
        })
    }

    /// The format of the text.
    pub fn format(&self) -> u32
        ensures value { result ≡ self.now.format }
        ensures limits { (1 ≤ result) × (result ≤ 2) }
    {
        self.basics.format
    }

    /// How many nodes there are, numbered from 0.
    pub fn nodes(&self) -> u32
        ensures value { result ≡ self.now.nodes }
        ensures limits { (LEAST_NODES ≤ result) × (result ≤ MOST_NODES) }
        ensures entries { result * result * self.now.keys ≤ MOST_ENTRIES }
    {
        self.basics.nodes
    }

    /// How many keys each node has, numbered from 0.
    pub fn keys(&self) -> u32
        ensures value { result ≡ self.now.keys }
        ensures limits { (LEAST_KEYS ≤ result) × (result ≤ MOST_KEYS) }
        ensures entries { self.now.nodes * self.now.nodes * result ≤ MOST_ENTRIES }
    {
        self.basics.keys
    }

    /// How many rounds the run has, numbered from 1.
    pub fn rounds(&self) -> u32
        ensures value { result ≡ self.now.rounds }
        ensures lawful { IsLawfulScenario self.now }
        ensures limits { (1 ≤ result) × (result ≤ MOST_ROUNDS) }
    {
        self.basics.rounds
    }

    /// The seed, from which the random words of all nodes follow.
    pub fn seed(&self) -> u64
        ensures value { result ≡ self.now.seed }
        ensures limits { result ≤ MOST_SEED }
    {
        self.basics.seed
    }

    /// Which entries are sent, and in which order.
    pub fn mode(&self) -> Mode
        ensures { result ≡ self.now.mode }
    {
        self.conduct.mode
    }

    /// How much one message may carry: so many entries in format 1, so many bytes in format 2.
    pub fn budget(&self) -> Budget
        ensures value { result ≡ self.now.budget }
        ensures limits { IsBudgetOf self.now.format result }
        ensures lawful { IsLawfulBudget result }
    {
        self.conduct.budget
    }

    /// How a node picks its peer.
    pub fn peers(&self) -> Peers
        ensures { result ≡ self.now.peers }
    {
        self.conduct.peers
    }

    /// At which owner the order of an exchange's entries begins.
    pub fn rotation(&self) -> Rotation
        ensures { result ≡ self.now.rotation }
    {
        self.conduct.rotation
    }

    /// How a write picks its key and its value.
    pub fn choice(&self) -> Choice
        ensures { result ≡ self.now.choice }
    {
        self.conduct.choice
    }

    /// How many of a million messages are lost.
    pub fn loss_ppm(&self) -> u32
        ensures value { result ≡ self.now.loss_ppm }
        ensures limits { result ≤ MOST_LOSS }
    {
        self.conduct.loss_ppm
    }

    /// How many writes a node makes in a round.
    pub fn writes(&self) -> u32
        ensures value { result ≡ self.now.writes }
        ensures limits { result ≤ MOST_WRITES }
    {
        self.conduct.writes
    }

    /// The partitions, in the order of the text.
    pub fn partitions(&self) -> &[Partition]
        ensures value { result.now ≡ self.now.partitions }
        ensures limits { AreLawful (IsLawfulPartition self.now.nodes) result.now }
    {
        &self.partitions
    }

    /// The restarts, in the order of the text.
    pub fn restarts(&self) -> &[Restart]
        ensures value { result.now ≡ self.now.restarts }
        ensures limits { AreLawful (IsLawfulRestart self.now.format self.now.nodes) result.now }
    {
        &self.restarts
    }

    /// The loads, in the order of the text.
    pub fn loads(&self) -> &[Load]
        ensures value { result.now ≡ self.now.loads }
        ensures limits { AreLawful IsLawfulLoad result.now }
    {
        &self.loads
    }

    /// The same scenario under another mode.
    pub fn with_mode(mut self, mode: Mode) -> Scenario
        ensures { result ≡ with_mode self mode }
    {
        self.conduct.mode = mode;
        self
    }
}
