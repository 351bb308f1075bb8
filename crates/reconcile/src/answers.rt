//! What answers a digest.

ghost use Rattle.std.specs.Prelude.{◌≡◌, ◌^◌, ◌<◌, All, length, IfOk, IsOkUnless};
ghost use Rattle.bench_types.specs.declared.faults.Fault.TheVariants.{OutOfMemory};
ghost use Rattle.bench_types.specs.calls.Budget.{IsLawfulBudget};
ghost use Rattle.bench_types.specs.Mode.{digest_kind};
ghost use Rattle.model.specs.calls.Table.{IsFor};
ghost use Rattle.reconcile.specs.Answers.{answer_of, IsDeltaToReceiver};
ghost use Rattle.model.specs.calls.DeltaLaws.{AreWithin};
ghost use Rattle.reconcile.specs.Digests.{IsOfKind};

use crate::candidates::precise_delta;
use crate::deltas::Delta;
use crate::digests::Digest;
use crate::questions::Question;
use crate::suffixes::scuttle_delta;
use crate::turns::Turns;
use bench_types::{Budget, DigestKind, Fault, Mode};
use node_table::NodeTable;
use std::alloc::Global;

/// What is sent to a receiver whose digest came in: the first candidates in the order of the mode, as
/// many as the budget has room for.
///
/// A scuttle mode compares a mark for each owner, and looks at the entries of those where its own
/// is greater. Nothing is sorted: scuttle-breadth goes over those owners once for each place in
/// their suffixes of entries, scuttle-depth once for each length of these, so at most once for each key,
/// until the budget is reached. It takes memory for those owners, and for as many items as are found and the
/// budget may let through.
/// A precise mode looks at each entry once and sorts the candidates. It takes memory in proportion to them.
///
/// An error is lack of that memory (`OutOfMemory`).
pub fn delta(
    alloc: Global,
    table: &NodeTable,
    digest: &Digest,
    receiver: u32,
    mode: Mode,
    rotation: u32,
    budget: Budget,
) -> Result<Delta, Fault>
    requires kind { IsOfKind (digest_kind mode) digest.now }
    requires nodes { digest.now.nodes ≡ table.now.table.nodes }
    requires keys { digest.now.keys ≡ table.now.table.keys }
    requires receiver { receiver < table.now.table.nodes }
    requires rotation { rotation < table.now.table.nodes }
    requires budget { IsLawfulBudget budget }
    ensures ok { IfOk result (λ d. d ≡ answer_of mode rotation budget table.now.table receiver digest.now) }
    ensures of_tables { IfOk result (IsDeltaToReceiver mode rotation budget table.now.table receiver digest.now) }
    ensures within { IfOk result (λ d. AreWithin budget d.items) }
    ensures few { IfOk result (λ d. length d.items < 2 ^ 32) }
    ensures sound { IfOk result (λ d. All (IsFor receiver table.now.table.nodes table.now.table.keys) d.items) }
    ensures only { IsOkUnless result OutOfMemory }
{
    let turns = Turns {
        mode,
        nodes: table.nodes(),
        rotation,
    };
    let question = Question {
        table,
        digest,
        receiver,
        turns,
        budget,
    };
    match mode.digest_kind() {
        DigestKind::Scuttle => scuttle_delta(alloc, question),
        DigestKind::Precise => precise_delta(alloc, question),
    }
}
