//! What a fault's line has between its texts.

ghost use Rattle.std.specs.Prelude.{Some};
ghost use Rattle.bench_types.specs.calls.FaultLine.{filling_text};

use crate::fields::{Field, TableName};
use std::fmt;

/// What tells one fault from others of its kind in its line.
#[derive(Clone, Copy)]
pub enum Filling {
    Nothing,
    Number(u64),
    Field(Field),
    Table(TableName),
}

impl fmt::Display for Filling {
    ghost output = { λ filling. Some (filling_text filling) };

    fn fmt<W: fmt::Write>(&self, f: &mut fmt::Formatter<W>) -> fmt::Result {
        match self {
            Filling::Nothing => Ok(()),
            Filling::Number(number) => write!(f, "{number}"),
            Filling::Field(field) => write!(f, "{field}"),
            Filling::Table(table) => write!(f, "{table}"),
        }
    }
}
