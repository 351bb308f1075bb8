//! A node's table in memory, and exchanges of two of them, whatever their representation is.

use bench_types::{Exchange, Fault, Record, Rules};
use std::alloc::Global;

/// A node's table in memory, in one representation or another.
pub trait MemoryTable: Drop {
    ghost use Rattle.model.specs.Table.{Table};

    // The model's table of a value.
    ghost table: { Self → Table };
}

/// What carries out exchanges of tables of one representation: all that the tables of a round read while
/// exchanges run, which is nothing where a table has its entries itself.
pub trait Exchanging<T: MemoryTable>: Sync {
    ghost use Rattle.std.specs.Prelude.{IfOk, OnErr, IsOkUnless};
    ghost use Rattle.bench_types.specs.declared.faults.Fault.TheVariants.{OutOfMemory};
    ghost use Rattle.bench_types.specs.calls.Budget.{IsLawfulBudget};
    ghost use Rattle.model.specs.Table.{Table};
    ghost use Rattle.model.specs.calls.Exchanging.{MayBeExchanged, MakesOf, KeepBoth, IsKeptByExchanges};

    // What a table owes to what all read. It is said of the model's table, so list order decides it.
    ghost fits: { Self → Table → Type 0 };

    /// Carries out one exchange. The first table is the initiator's. An error is lack of memory
    /// (`OutOfMemory`), and both tables are then as they were.
    fn exchange(
        &self,
        alloc: Global,
        initiator: &mut T,
        responder: &mut T,
        plan: &Exchange,
        rules: &Rules,
    ) -> Result<Record, Fault>
        requires budget { IsLawfulBudget rules.now.budget }
        requires tables { MayBeExchanged plan.now (T.table initiator.old) (T.table responder.old) }
        requires fits { fits self.now (T.table initiator.old) × fits self.now (T.table responder.old) }
        ensures ok { IfOk result
            (MakesOf T.table rules.now plan.now initiator.old responder.old initiator.new responder.new) }
        ensures err { OnErr result (KeepBoth T.table initiator.old responder.old initiator.new responder.new) }
        ensures only { IsOkUnless result OutOfMemory };

    ghost stays_fit: { (shared : Self) → IsKeptByExchanges (fits shared) };
}
