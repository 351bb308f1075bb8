//! The names of a scenario's fields and tables.

ghost use Rattle.std.specs.Prelude.{◌≡◌, Some};
ghost use Rattle.bench_types.specs.Field.{field_name};
ghost use Rattle.bench_types.specs.calls.Field.{field_text, table_name, table_of};

use std::fmt;

/// A field of a scenario.
#[derive(Clone, Copy, Debug, PartialEq, Eq)]
pub enum Field {
    Format,
    Nodes,
    Keys,
    Rounds,
    Seed,
    Mode,
    Budget,
    BudgetBytes,
    Peers,
    Rotation,
    Choice,
    LossPpm,
    Writes,
    Partition,
    Restart,
    Load,
    PartitionFrom,
    PartitionTo,
    PartitionApart,
    RestartNode,
    RestartRound,
    RestartDown,
    RestartForget,
    LoadFrom,
    LoadTo,
    LoadWrites,
}

impl Field {
    /// The key at which its table has the field.
    pub fn name(self) -> &'static str
        ensures { result.now ≡ field_name self }
    {
        match self {
            Field::Format => "format",
            Field::Nodes => "nodes",
            Field::Keys => "keys",
            Field::Rounds => "rounds",
            Field::Seed => "seed",
            Field::Mode => "mode",
            Field::Budget => "budget",
            Field::BudgetBytes => "budget_bytes",
            Field::Peers => "peers",
            Field::Rotation => "rotation",
            Field::Choice => "choice",
            Field::LossPpm => "loss_ppm",
            Field::Writes | Field::LoadWrites => "writes",
            Field::Partition => "partition",
            Field::Restart => "restart",
            Field::Load => "load",
            Field::PartitionFrom | Field::LoadFrom => "from",
            Field::PartitionTo | Field::LoadTo => "to",
            Field::PartitionApart => "apart",
            Field::RestartNode => "node",
            Field::RestartRound => "round",
            Field::RestartDown => "down",
            Field::RestartForget => "forget",
        }
    }

    /// The table that has it.
    pub fn table(self) -> TableName
        ensures { result ≡ table_of self }
    {
        match self {
            Field::PartitionFrom | Field::PartitionTo | Field::PartitionApart => {
                TableName::Partition
            }
            Field::RestartNode | Field::RestartRound | Field::RestartDown | Field::RestartForget =>
                TableName::Restart,
            Field::LoadFrom | Field::LoadTo | Field::LoadWrites => TableName::Load,
            _ => TableName::Top,
        }
    }
}

/// The field's name, behind that of its table and a point where it is a field of an element.
impl fmt::Display for Field {
    ghost output = { λ field. Some (field_text field) };

    fn fmt<W: fmt::Write>(&self, f: &mut fmt::Formatter<W>) -> fmt::Result {
        let name = self.name();
        match self.table() {
            TableName::Top => f.write_str(name),
            table => write!(f, "{table}.{name}"),
        }
    }
}

/// A table of a scenario: the text itself, or an element of one of its arrays.
#[derive(Clone, Copy, Debug, PartialEq, Eq)]
pub enum TableName {
    Top,
    Partition,
    Restart,
    Load,
}

impl TableName {
    /// What it is called in a fault's line.
    pub fn name(self) -> &'static str
        ensures { result.now ≡ table_name self }
    {
        match self {
            TableName::Top => "top",
            TableName::Partition => "partition",
            TableName::Restart => "restart",
            TableName::Load => "load",
        }
    }
}

impl fmt::Display for TableName {
    ghost output = { λ table. Some (table_name table) };

    fn fmt<W: fmt::Write>(&self, f: &mut fmt::Formatter<W>) -> fmt::Result {
        f.write_str(self.name())
    }
}
