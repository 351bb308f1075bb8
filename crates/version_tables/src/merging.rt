//! Exchanges of which all comes and surely fits: each table takes all that the other has above its own greatest
//! numbers, both ways in one pass. Nothing is planned, and no memory is taken.

ghost use Rattle.std.specs.Prelude.{◌≡◌, ◌*◌, ◌≤◌, ◌↔◌};
ghost use Rattle.version_tables.specs.inner.Common.{IsTrue, amount_of, largest_share, most_ahead, table_in};
ghost use Rattle.version_tables.specs.inner.Deltas.{FitBoth};
ghost use Rattle.version_tables.specs.inner.Histories.{bases_in};
ghost use Rattle.version_tables.specs.inner.Merged.{AreCurrent, BothStayMerged, HasNoNewer, HaveMerged, MayMerge, SurelyFits};

use crate::histories::Histories;
use crate::tables::{VersionTable, Written};
use bench_types::limits::MOST_ENTRY_SIZE;
use bench_types::{Budget, DigestKind, Rules};
use grids::{BothCounts, BothMarks};
use planes::{Number, Size};

fn surely_fit(budget: Budget, count: u32) -> bool
    ensures { IsTrue result ↔ (count * largest_share budget ≤ amount_of budget) }
{
    match budget {
        Budget::Entries(amount) => count <= amount,
        Budget::Bytes(amount) => {
            u64::from(count) * u64::from(MOST_ENTRY_SIZE) <= u64::from(amount)
        }
    }
}

// Whether all that one table has above another's greatest numbers surely fits. It is counted only where it doesn't fit
// by how far these are apart.
fn all_ahead_fits<N: Number, H: Written>(
    from: &VersionTable<N, H>,
    to: &VersionTable<N, H>,
    budget: Budget,
    most: u32,
) -> bool
    requires nodes { from.now.nodes ≡ to.now.nodes }
    requires most { most ≡ most_ahead from.now.nodes from.now.keys from.now.greatest to.now.greatest }
    ensures { IsTrue result ↔ SurelyFits budget from.now to.now }
{
    let grid = from.grid();
    surely_fit(budget, most)
        || surely_fit(
            budget,
            planes::total_above(grid, to.greatest(), from.greatest()),
        )
}

fn all_fits<N: Number, H: Written>(
    initiator: &VersionTable<N, H>,
    responder: &VersionTable<N, H>,
    budget: Budget,
) -> bool
    requires nodes { initiator.now.nodes ≡ responder.now.nodes }
    requires keys { initiator.now.keys ≡ responder.now.keys }
    ensures { IsTrue result ↔ (SurelyFits budget responder.now initiator.now
        × SurelyFits budget initiator.now responder.now) }
{
    let most = grids::most_ahead(initiator.greatest(), responder.greatest(), initiator.keys());
    all_ahead_fits(responder, initiator, budget, most.first)
        && all_ahead_fits(initiator, responder, budget, most.second)
}

// Most often no owner has forgotten, which one fast loop tells.
fn are_current<N: Number, H: Written>(
    initiator: &VersionTable<N, H>,
    responder: &VersionTable<N, H>,
    histories: &Histories<N, H>,
) -> bool
    requires { FitBoth histories.now (table_in H.lists initiator.now) (table_in H.lists responder.now) }
    ensures { IsTrue result ↔ (AreCurrent (bases_in histories.now.lists) initiator.now
        × AreCurrent (bases_in histories.now.lists) responder.now) }
{
    let bases = histories.bases();
    if planes::count_held(bases) == 0 {
        return true;
    }
    planes::none_upto(initiator.greatest(), bases) && planes::none_upto(responder.greatest(), bases)
}

fn has_no_newer<N: Number, H: Written>(
    table: &VersionTable<N, H>,
    other: &VersionTable<N, H>,
) -> bool
    requires nodes { table.now.nodes ≡ other.now.nodes }
    ensures { IsTrue result ↔ HasNoNewer table.now other.now }
{
    let node = other.node();
    table.greatest_of(node).is_upto(other.greatest_of(node))
}

/// Whether all that two tables lack of each other surely fits, by scuttle digests, and nothing of an earlier generation
/// is held.
pub(crate) fn may_merge<N: Number, H: Written>(
    initiator: &VersionTable<N, H>,
    responder: &VersionTable<N, H>,
    histories: &Histories<N, H>,
    rules: &Rules,
) -> bool
    requires { FitBoth histories.now (table_in H.lists initiator.now) (table_in H.lists responder.now) }
    ensures { IsTrue result ↔ MayMerge rules.now histories.now initiator.now responder.now }
{
    match rules.mode.digest_kind() {
        DigestKind::Scuttle => {
            has_no_newer(initiator, responder)
                && has_no_newer(responder, initiator)
                && are_current(initiator, responder, histories)
                && all_fits(initiator, responder, rules.budget)
        }
        DigestKind::Precise => false,
    }
}

/// Each of two tables takes all that the other has above its own greatest numbers. It answers how many these are.
pub(crate) fn merge<N: Number, H: Written>(
    initiator: &mut VersionTable<N, H>,
    responder: &mut VersionTable<N, H>,
) -> BothCounts
    requires { BothStayMerged H.lists initiator.old responder.old }
    ensures { HaveMerged initiator.old responder.old initiator.new responder.new result }
{
    let marks = BothMarks {
        first: &initiator.greatest,
        second: &responder.greatest,
        size: Size {
            nodes: initiator.nodes as usize,
            keys: initiator.keys as usize,
        },
    };
    let came = grids::merge(&mut initiator.cells, &mut responder.cells, marks);
    grids::raise_both(&mut initiator.greatest, &mut responder.greatest);
    came
}
