//! What one table sends another, as marks.

ghost use Rattle.version_tables.specs.inner.Common.{IfOk, IsOkUnless, OutOfMemory, digest_kind, table_in};
ghost use Rattle.version_tables.specs.inner.Deltas.{MaySend};
ghost use Rattle.version_tables.specs.inner.Offered.{IsDelta, IsOffered};

use crate::histories::Histories;
use crate::tables::{VersionTable, Written};
use bench_types::{DigestKind, Exchange, Fault, Rules};
use delta_plans::{Marked, Offer, Owners, planned, told};
use grids::Peer;
use planes::{Grid, Number};
use std::alloc::Global;

/// What is sent of the numbers above the low marks, where they are above the receiver's: of each owner those up to its
/// other mark, or from the newest on those above it. And the size of the sender's digest.
#[derive(Drop)]
pub(crate) struct DeltaMarks<N: Number> {
    pub(crate) low: Vec<N>,
    pub(crate) marked: Marked<N>,
    pub(crate) digest: u32,
}

// The numbers that are offered, how many are above the low marks, and the size of the sender's digest.
#[derive(Drop)]
struct Offered<'a, N: Number> {
    cells: &'a [N],
    found: u32,
    digest: u32,
}

/// What an exchange goes by: where its memory comes from, all writes so far, the rules of the run and its own plan.
#[derive(Drop)]
pub(crate) struct Course<'a, N: Number, H: Written> {
    pub(crate) alloc: Global,
    pub(crate) histories: &'a Histories<N, H>,
    pub(crate) rules: &'a Rules,
    pub(crate) plan: &'a Exchange,
}

// What the sender sends the receiver: all numbers are offered for a scuttle digest, and for a precise one those ahead.
pub(crate) fn delta<N: Number, H: Written>(
    sender: &VersionTable<N, H>,
    receiver: &VersionTable<N, H>,
    course: &Course<N, H>,
) -> Result<DeltaMarks<N>, Fault>
    requires { MaySend course.now.rules.now course.now.plan.now.rotation course.now.histories.now
        (table_in H.lists sender.now) (table_in H.lists receiver.now) }
    ensures delta { IfOk result (IsDelta N.number H.lists course.now.rules.now course.now.plan.now.rotation
        sender.now receiver.now) }
    ensures only { IsOkUnless result OutOfMemory }
{
    let histories = course.histories;
    let mode = course.rules.mode;
    let kind = mode.digest_kind();
    let owners = Owners {
        lists: histories.lists(),
        bases: histories.bases(),
    };
    let own = receiver.node() as usize;
    let grid = sender.grid();
    let low = told(course.alloc, kind, own, receiver.greatest(), owners)?;
    match kind {
        DigestKind::Scuttle => {
            let offered = Offered {
                cells: grid.cells,
                found: planes::total_above(grid, &low, sender.greatest()),
                digest: sender.digest_size(mode),
            };
            delta_above(sender, receiver, low, offered, course)
        }
        DigestKind::Precise => {
            let peer = Peer {
                cells: receiver.cells(),
                low: &low,
                own,
            };
            let ahead = grids::ahead(course.alloc, grid, peer)?;
            let offered = Offered {
                cells: &ahead.numbers,
                found: ahead.count,
                digest: ahead.held,
            };
            delta_above(sender, receiver, low, offered, course)
        }
    }
}

// What is sent of the numbers that are offered above the low marks.
fn delta_above<N: Number, H: Written>(
    sender: &VersionTable<N, H>,
    receiver: &VersionTable<N, H>,
    low: Vec<N>,
    offered: Offered<N>,
    course: &Course<N, H>,
) -> Result<DeltaMarks<N>, Fault>
    requires may { MaySend course.now.rules.now course.now.plan.now.rotation course.now.histories.now
        (table_in H.lists sender.now) (table_in H.lists receiver.now) }
    requires offered { IsOffered N.number N.most H.lists (digest_kind course.now.rules.now.mode)
        course.now.histories.now sender.now receiver.now low.items offered }
    ensures delta { IfOk result (IsDelta N.number H.lists course.now.rules.now course.now.plan.now.rotation
        sender.now receiver.now) }
    ensures only { IsOkUnless result OutOfMemory }
{
    let histories = course.histories;
    let rules = course.rules;
    let cells = offered.cells;
    let size = sender.grid().size;
    let offer = Offer {
        grid: Grid { cells, size },
        low: &low,
        high: sender.greatest(),
        lists: histories.lists(),
        budget: rules.budget,
        found: offered.found,
    };
    let rotation = course.plan.rotation as usize;
    let marked = planned(course.alloc, &offer, rules.mode, rotation, histories.ends())?;
    Ok(DeltaMarks {
        low,
        marked,
        digest: offered.digest,
    })
}
