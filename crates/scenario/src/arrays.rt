//! Reading an array of tables.

ghost use Rattle.std.specs.Prelude.{◌≡◌, ◌≢◌, ◌≤◌, length, map, IfOk, IfErr};
ghost use Rattle.std.specs.List.{list_all};
ghost use Rattle.toml.specs.View.{view, table_view};
ghost use Rattle.scenario.specs.Elements.{array_of, as_table, elements_at, values_of, table_has_only, elements_have_only, only_elements};
ghost use Rattle.scenario.specs.inner.Elements.{array_at};
ghost use Rattle.scenario.specs.Settings.{AreLawful};

use crate::fields::{found, has_only};
use bench_types::limits::MOST_ELEMENTS;
use bench_types::{Fault, Field, TableName};
use std::alloc::Global;
use toml::{Table, Value};

/// An array of tables in a scenario's text. (What reads an element isn't its own type's: a crate that names the type
/// would load all of TOML with it.)
pub(crate) trait Elements {
    type Element: Drop;

    ghost use Rattle.std.specs.Prelude.{ℕ, Result};
    ghost use Rattle.bench_types.specs.declared.faults.Fault.{Fault};
    ghost use Rattle.toml.specs.Data.{Data};

    ghost checked: { ℕ → ℕ → Data → Result Self.Element Fault };

    // The limits of an element, in a scenario of a format and of so many nodes.
    ghost lawful: { ℕ → ℕ → Self.Element → Type 0 };

    /// The element that the value says, in a scenario of the format and of so many nodes.
    fn of(alloc: Global, value: &Value, format: u32, nodes: u32) -> Result<Self::Element, Fault>
        requires { 2 ≤ nodes }
        ensures ok { IfOk result (λ element. checked format nodes (view value.now) ≡ Ok element) }
        ensures lawful { IfOk result (lawful format nodes) }
        ensures refused { IfErr result (λ fault.
            fault ≢ Fault.OutOfMemory → checked format nodes (view value.now) ≡ Err fault) };
}

pub(crate) fn array_of(value: &Value, field: Field) -> Result<&[Value], Fault>
    ensures ok { IfOk result (λ values.
        array_of field (view value.now) ≡ Ok (map view values.now)) }
    ensures fault { IfErr result (λ fault. array_of field (view value.now) ≡ Err fault) }
{
    match value {
        Value::Array(array) => Ok(array.as_slice()),
        _ => Err(Fault::WrongType(field)),
    }
}

pub(crate) fn as_table(value: &Value, field: Field) -> Result<&Table, Fault>
    ensures ok { IfOk result (λ table.
        as_table field (view value.now) ≡ Ok (table_view table.now)) }
    ensures fault { IfErr result (λ fault. as_table field (view value.now) ≡ Err fault) }
{
    match value {
        Value::Table(table) => Ok(table),
        _ => Err(Fault::WrongType(field)),
    }
}

fn elements_at(table: &Table, field: Field) -> Result<&[Value], Fault>
    ensures ok { IfOk result (λ values.
        elements_at field (table_view table.now) ≡ Ok (map view values.now)) }
    ensures few { IfOk result (λ values. length values.now ≤ MOST_ELEMENTS) }
    ensures fault { IfErr result (λ fault. elements_at field (table_view table.now) ≡ Err fault) }
{
    let Some(value) = found(table, field) else {
        return Ok(&[]);
    };
    let values = array_of(value, field)?;
    if values.len() <= MOST_ELEMENTS {
        Ok(values)
    } else {
        Err(Fault::OutOfRange(field))
    }
}

/// The elements of an array of tables. One that is absent has none, and one with too many is out of
/// range, whatever they are.
pub(crate) fn array_at<A: Elements>(
    alloc: Global,
    table: &Table,
    field: Field,
    format: u32,
    nodes: u32,
) -> Result<Vec<A::Element>, Fault>
    requires { 2 ≤ nodes }
    ensures ok { IfOk result (λ elements.
        array_at field (A.checked format nodes) (table_view table.now) ≡ Ok elements.items) }
    ensures lawful { IfOk result (λ elements. AreLawful (A.lawful format nodes) elements.items) }
    ensures refused { IfErr result (λ fault. fault ≢ Fault.OutOfMemory →
        array_at field (A.checked format nodes) (table_view table.now) ≡ Err fault) }
{
    let values = elements_at(table, field)?;
    let mut elements = Vec::new(alloc);
    for value in values {
        elements.push(A::of(alloc, value, format, nodes)?)?;
    }
    Ok(elements)
}

fn table_has_only(value: &Value, fields: &[Field]) -> bool
    ensures { result ≡ table_has_only fields.now (view value.now) }
{
    match value {
        Value::Table(table) => has_only(table, fields),
        _ => true,
    }
}

fn all_have_only(values: &[Value], fields: &[Field]) -> bool
    ensures { result ≡ list_all (λ value. table_has_only fields.now (view value)) values.now }
{
    values.iter().all(|value| table_has_only(value, fields))
}

fn tables_have_only(value: &Value, fields: &[Field]) -> bool
    ensures { result ≡ list_all (table_has_only fields.now) (values_of (Some (view value.now))) }
{
    match value {
        Value::Array(array) => all_have_only(array.as_slice(), fields),
        _ => true,
    }
}

fn elements_have_only(table: &Table, field: Field, fields: &[Field]) -> bool
    ensures { result ≡ elements_have_only field fields.now (table_view table.now) }
{
    match found(table, field) {
        None => true,
        Some(value) => tables_have_only(value, fields),
    }
}

/// Checks that no table of the array has a key but those of the fields.
pub(crate) fn only_elements(
    table: &Table,
    name: TableName,
    field: Field,
    fields: &[Field],
) -> Result<(), Fault>
    ensures { result ≡ only_elements name field fields.now (table_view table.now) }
{
    if elements_have_only(table, field, fields) {
        Ok(())
    } else {
        Err(Fault::UnknownField(name))
    }
}
