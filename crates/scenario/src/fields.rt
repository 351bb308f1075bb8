//! Reading one field of a table.

ghost use Rattle.std.specs.Prelude.{◌≡◌, ◌≤◌, IfOk, IfErr, option_map};
ghost use Rattle.toml.specs.Data.{get_member};
ghost use Rattle.toml.specs.View.{view, table_view};
ghost use Rattle.bench_types.specs.Field.{field_name};
ghost use Rattle.scenario.specs.Fields.{value_at, number_of, number_at, text_at, flag_at, has_only, is_among, only_fields};

use bench_types::{Fault, Field, TableName};
use toml::{Table, Value};

pub(crate) fn found(table: &Table, field: Field) -> Option<&Value>
    ensures { option_map (λ v. view v.now) result ≡ get_member (field_name field) (table_view table.now) }
{
    table.get(field.name())
}

/// The value of a field that has to be there.
pub(crate) fn value_at(table: &Table, field: Field) -> Result<&Value, Fault>
    ensures ok { IfOk result (λ value. value_at field (table_view table.now) ≡ Ok (view value.now)) }
    ensures fault { IfErr result (λ fault. value_at field (table_view table.now) ≡ Err fault) }
{
    match found(table, field) {
        None => Err(Fault::Missing(field)),
        Some(value) => Ok(value),
    }
}

fn integer_of(value: &Value, field: Field, low: u64, high: u64) -> Result<u64, Fault>
    ensures answer { result ≡ number_of field low high (view value.now) }
    ensures within { IfOk result (λ n. (low ≤ n) × (n ≤ high)) }
{
    match value {
        Value::Integer(integer) => match u64::try_from(*integer) {
            Ok(number) if (low..=high).contains(&number) => Ok(number),
            _ => Err(Fault::OutOfRange(field)),
        },
        _ => Err(Fault::WrongType(field)),
    }
}

/// An integer field that takes the numbers from `low` to `high`.
pub(crate) fn integer_at(table: &Table, field: Field, low: u64, high: u64) -> Result<u64, Fault>
    ensures answer { result ≡ number_at field low high (table_view table.now) }
    ensures within { IfOk result (λ n. (low ≤ n) × (n ≤ high)) }
{
    integer_of(value_at(table, field)?, field, low, high)
}

/// The value as a number from `low` to `high`.
pub(crate) fn number_of(value: &Value, field: Field, low: u32, high: u32) -> Result<u32, Fault>
    ensures answer { result ≡ number_of field low high (view value.now) }
    ensures within { IfOk result (λ n. (low ≤ n) × (n ≤ high)) }
{
    let number = integer_of(value, field, u64::from(low), u64::from(high))?;
    Ok(number as u32)
}

/// A field that takes the numbers from `low` to `high`.
pub(crate) fn number_at(table: &Table, field: Field, low: u32, high: u32) -> Result<u32, Fault>
    ensures answer { result ≡ number_at field low high (table_view table.now) }
    ensures within { IfOk result (λ n. (low ≤ n) × (n ≤ high)) }
{
    number_of(value_at(table, field)?, field, low, high)
}

/// A text field.
pub(crate) fn text_at(table: &Table, field: Field) -> Result<&str, Fault>
    ensures text { IfOk result (λ text. text_at field (table_view table.now) ≡ Ok text.now) }
    ensures fault { IfErr result (λ fault. text_at field (table_view table.now) ≡ Err fault) }
{
    match found(table, field) {
        None => Err(Fault::Missing(field)),
        Some(Value::String(text)) => Ok(text.as_str()),
        Some(_) => Err(Fault::WrongType(field)),
    }
}

/// A field that is true or false, and false where it is absent.
pub(crate) fn flag_at(table: &Table, field: Field) -> Result<bool, Fault>
    ensures { result ≡ flag_at field (table_view table.now) }
{
    match found(table, field) {
        None => Ok(false),
        Some(Value::Boolean(flag)) => Ok(*flag),
        Some(_) => Err(Fault::WrongType(field)),
    }
}

fn is_among(key: &str, fields: &[Field]) -> bool
    ensures { result ≡ is_among fields.now key.now }
{
    fields.iter().any(|field| field.name() == key)
}

pub(crate) fn has_only(table: &Table, fields: &[Field]) -> bool
    ensures { result ≡ has_only fields.now (table_view table.now) }
{
    table.keys().all(|key| is_among(key.as_str(), fields))
}

/// Checks that the table has no key but those of the fields.
pub(crate) fn only_fields(table: &Table, name: TableName, fields: &[Field]) -> Result<(), Fault>
    ensures { result ≡ only_fields name fields.now (table_view table.now) }
{
    if has_only(table, fields) {
        Ok(())
    } else {
        Err(Fault::UnknownField(name))
    }
}
