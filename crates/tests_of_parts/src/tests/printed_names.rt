//! What faults, fields and tables print.

use crate::tests::comparing::expect_printed;
use bench_types::{Fault, Field, TableName};

const LINES: [(Fault, &str); 20] = [
    (Fault::OutOfMemory, "fault 1: out of memory"),
    (Fault::NotToml, "fault 2: input is not TOML"),
    (
        Fault::TooLong,
        "fault 3: input is longer than 1048576 bytes",
    ),
    (
        Fault::Missing(Field::Format),
        "fault 4: missing field format",
    ),
    (
        Fault::WrongType(Field::Nodes),
        "fault 5: wrong type of field nodes",
    ),
    (
        Fault::OutOfRange(Field::PartitionApart),
        "fault 6: field partition.apart is out of range",
    ),
    (
        Fault::UnknownField(TableName::Top),
        "fault 7: unknown field in table top",
    ),
    (
        Fault::TooLarge,
        "fault 8: nodes * nodes * keys is above 268435456",
    ),
    (Fault::NoThread, "fault 9: a thread could not be started"),
    (Fault::Broken, "fault 10: broken by an earlier fault"),
    (Fault::Finished, "fault 11: no round is left"),
    (Fault::ReadFailed, "fault 12: reading failed"),
    (Fault::WriteFailed, "fault 13: writing failed"),
    (Fault::Stranger, "fault 14: no exchange has this stamp"),
    (Fault::Double, "fault 15: this stamp has a record"),
    (
        Fault::NoRecord(4_294_967_295),
        "fault 16: no record of exchange 4294967295",
    ),
    (Fault::Unfinished, "fault 17: exchanges are unfinished"),
    (Fault::NotAllowed, "fault 18: this exchange may not start"),
    (Fault::NotRunning, "fault 19: this exchange is not running"),
    (
        Fault::BudgetTooSmall,
        "fault 20: budget_bytes is below 1023",
    ),
];

const FIELDS: [(Field, &str); 26] = [
    (Field::Format, "format"),
    (Field::Nodes, "nodes"),
    (Field::Keys, "keys"),
    (Field::Rounds, "rounds"),
    (Field::Seed, "seed"),
    (Field::Mode, "mode"),
    (Field::Budget, "budget"),
    (Field::BudgetBytes, "budget_bytes"),
    (Field::Peers, "peers"),
    (Field::Rotation, "rotation"),
    (Field::Choice, "choice"),
    (Field::LossPpm, "loss_ppm"),
    (Field::Writes, "writes"),
    (Field::Partition, "partition"),
    (Field::Restart, "restart"),
    (Field::Load, "load"),
    (Field::PartitionFrom, "partition.from"),
    (Field::PartitionTo, "partition.to"),
    (Field::PartitionApart, "partition.apart"),
    (Field::RestartNode, "restart.node"),
    (Field::RestartRound, "restart.round"),
    (Field::RestartDown, "restart.down"),
    (Field::RestartForget, "restart.forget"),
    (Field::LoadFrom, "load.from"),
    (Field::LoadTo, "load.to"),
    (Field::LoadWrites, "load.writes"),
];

const TABLES: [(TableName, &str); 4] = [
    (TableName::Top, "top"),
    (TableName::Partition, "partition"),
    (TableName::Restart, "restart"),
    (TableName::Load, "load"),
];

#[test]
fn lines_of_the_faults(rt: HostRuntime) {
    for (fault, line) in &LINES {
        expect_printed(&rt, fault, line);
    }
}

#[test]
fn names_of_fields_and_tables(rt: HostRuntime) {
    for (field, name) in &FIELDS {
        expect_printed(&rt, field, name);
    }
    for (table, name) in &TABLES {
        expect_printed(&rt, table, name);
    }
}
