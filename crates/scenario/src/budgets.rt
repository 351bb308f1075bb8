//! Reading the budget of a message, in entries or in bytes.

ghost use Rattle.std.specs.Prelude.{◌≡◌, ◌≤◌, IfOk};
ghost use Rattle.toml.specs.View.{view, table_view};
ghost use Rattle.scenario.specs.Budgets.{is_in_entries, budget_field, is_too_small, bytes_of, budget_at};
ghost use Rattle.scenario.specs.Settings.{IsBudgetOf};

use crate::fields::{number_at, number_of, value_at};
use bench_types::limits::{MOST_BUDGET, MOST_BUDGET_BYTES, MOST_ENTRY_SIZE};
use bench_types::{Budget, Fault, Field};
use toml::{Table, Value};

fn is_in_entries(format: u32) -> bool
    ensures { result ≡ is_in_entries format }
{
    format == 1
}

/// The field that a format has for the budget.
pub(crate) fn budget_field(format: u32) -> Field
    ensures { result ≡ budget_field format }
{
    if is_in_entries(format) {
        Field::Budget
    } else {
        Field::BudgetBytes
    }
}

/// Reads the budget of a format.
pub(crate) fn budget_at(table: &Table, format: u32) -> Result<Budget, Fault>
    requires { (1 ≤ format) × (format ≤ 2) }
    ensures answer { result ≡ budget_at format (table_view table.now) }
    ensures lawful { IfOk result (IsBudgetOf format) }
{
    if is_in_entries(format) {
        let entries = number_at(table, Field::Budget, 1, MOST_BUDGET)?;
        Ok(Budget::Entries(entries))
    } else {
        let bytes = bytes_of(value_at(table, Field::BudgetBytes)?)?;
        Ok(Budget::Bytes(bytes))
    }
}

// The value as a number of bytes, with room for the largest entry.
fn bytes_of(value: &Value) -> Result<u32, Fault>
    ensures answer { result ≡ bytes_of (view value.now) }
    ensures within { IfOk result (λ n. (MOST_ENTRY_SIZE ≤ n) × (n ≤ MOST_BUDGET_BYTES)) }
{
    if is_too_small(value) {
        return Err(Fault::BudgetTooSmall);
    }
    number_of(
        value,
        Field::BudgetBytes,
        MOST_ENTRY_SIZE,
        MOST_BUDGET_BYTES,
    )
}

// Whether it is an integer below the size of the largest entry.
fn is_too_small(value: &Value) -> bool
    ensures { result ≡ is_too_small (view value.now) }
{
    match value {
        Value::Integer(integer) => match u64::try_from(*integer) {
            Ok(number) => number < u64::from(MOST_ENTRY_SIZE),
            Err(_) => true,
        },
        _ => false,
    }
}
