//! From bytes to a scenario.

ghost use Rattle.std.specs.Prelude.{◌≡◌, ◌≢◌, None, IfOk, IfErr, OnOk, IsErrOf, IsSomeAnd, IsUtf8};
ghost use Rattle.toml.specs.View.{table_view};
ghost use Rattle.scenario.specs.Order.{document_of, first_fault, Says};
ghost use Rattle.scenario.specs.CheckFault.{IsFaultOfCheck};

use crate::scenarios::Scenario;
use bench_types::Fault;
use std::alloc::Global;
use toml::Table;

/// Reads and checks the text of a scenario. The time is about proportional to its length.
///
/// Answers `NotToml`, `Missing`, `WrongType`, `OutOfRange`, `TooLarge`, `BudgetTooSmall` or
/// `UnknownField` for a text at fault, and `OutOfMemory` where memory was refused.
pub fn read(alloc: Global, bytes: &[u8]) -> Result<Scenario, Fault>
    // A scenario is what the document says, and a fault is that of the first check that fails.
    ensures says { IfOk result (λ scenario.
        IsSomeAnd (document_of bytes.now) (λ table. Says table scenario)) }
    ensures first { IfErr result (λ fault.
        fault ≢ Fault.OutOfMemory → first_fault (document_of bytes.now) ≡ Some fault) }
    ensures no_fault { OnOk result (first_fault (document_of bytes.now) ≡ None) }
    ensures only { IfErr result IsFaultOfCheck }
    ensures no_text { ¬ IsUtf8 bytes.now → IsErrOf result Fault.NotToml }
{
    let table = document(alloc, bytes)?;
    Scenario::checked(alloc, &table)
}

fn document(alloc: Global, bytes: &[u8]) -> Result<Table, Fault>
    ensures ok { IfOk result (λ table. document_of bytes.now ≡ Some (table_view table)) }
    ensures refused { IfErr result (λ fault.
        fault ≢ Fault.OutOfMemory → (fault ≡ Fault.NotToml) × (document_of bytes.now ≡ None)) }
    ensures only { IfErr result IsFaultOfCheck }
    ensures no_text { ¬ IsUtf8 bytes.now → IsErrOf result Fault.NotToml }
{
    let text = match std::str::from_utf8(bytes) {
        Ok(text) => text,
        Err(_) => return Err(Fault::NotToml),
    };
    match toml::table_from_str(alloc, text) {
        Ok(table) => Ok(table),
        Err(error) if error.is_memory() => Err(Fault::OutOfMemory),
        Err(_) => Err(Fault::NotToml),
    }
}
