//! The exchange of an initiator and a responder whose tables keep versions alone. It reads all histories.

ghost use Rattle.std.specs.Prelude.{◌≡◌};
ghost use Rattle.version_tables.specs.Views.{table_in};
ghost use Rattle.version_tables.specs.inner.Common.{false, IfOk, OnErr, IsOkUnless, OutOfMemory, MakesOf};
ghost use Rattle.version_tables.specs.inner.Deltas.{MaySend};
ghost use Rattle.version_tables.specs.inner.FitsKept.{fits_stays};
ghost use Rattle.version_tables.specs.inner.Histories.{AreKnown, FitsRun};
ghost use Rattle.version_tables.specs.inner.Taken.{BothStay};

use crate::deltas::{Course, delta};
use crate::histories::Histories;
use crate::merging::{may_merge, merge};
use crate::tables::{VersionTable, Written};
use crate::taking::{take_unless, what_comes};
use bench_types::{Exchange, Fault, Record, Rules};
use delta_plans::First;
use model::{DeltaCounts, Exchanging, MemoryTable, sent_back, sent_before_an_answer, sent_both};
use planes::Number;
use std::alloc::Global;

impl<N: Number, H: Written> MemoryTable for VersionTable<N, H> {
    ghost table = { table_in H.lists };
}

impl<N: Number + Send + Sync, H: Written + Send + Sync> Exchanging<VersionTable<N, H>>
    for Histories<N, H> {
    ghost fits = { FitsRun H.lists N.most };

    ghost stays_fit = { fits_stays H.lists N.most };

    fn exchange(
        &self,
        alloc: Global,
        initiator: &mut VersionTable<N, H>,
        responder: &mut VersionTable<N, H>,
        plan: &Exchange,
        rules: &Rules,
    ) -> Result<Record, Fault> {
        let course = Course {
            alloc,
            histories: self,
            rules,
            plan,
        };
        exchange(&course, initiator, responder)
    }
}

/// Carries out one exchange. The first table is the initiator's. An error is lack of memory, all of which is taken
/// before either table changes.
pub(crate) fn exchange<N: Number, H: Written>(
    course: &Course<N, H>,
    initiator: &mut VersionTable<N, H>,
    responder: &mut VersionTable<N, H>,
) -> Result<Record, Fault>
    requires known { AreKnown H.lists N.most course.now.histories.now }
    requires may { MaySend course.now.rules.now course.now.plan.now.rotation course.now.histories.now
        (table_in H.lists initiator.old) (table_in H.lists responder.old) }
    ensures ok { IfOk result
        (MakesOf (table_in H.lists) course.now.rules.now course.now.plan.now initiator.old responder.old
        initiator.new responder.new) }
    ensures stay { OnErr result (BothStay initiator.old responder.old initiator.new responder.new) }
    ensures only { IsOkUnless result OutOfMemory }
{
    let plan = course.plan;
    let rules = course.rules;
    if plan.lost1 {
        let digest1 = initiator.digest_size(rules.mode);
        return Ok(sent_before_an_answer(digest1));
    }
    if !plan.lost2 && !plan.lost3 && may_merge(initiator, responder, course.histories, rules) {
        let digest1 = initiator.digest_size(rules.mode);
        let digest2 = responder.digest_size(rules.mode);
        let came = merge(initiator, responder);
        let back = DeltaCounts {
            sent: came.first,
            cut: 0,
        };
        let forth = DeltaCounts {
            sent: came.second,
            cut: 0,
        };
        return Ok(sent_both(digest1, digest2, back, forth, false));
    }
    exchange_deltas(course, initiator, responder)
}

// The exchange from the second message on. The first one came.
fn exchange_deltas<N: Number, H: Written>(
    course: &Course<N, H>,
    initiator: &mut VersionTable<N, H>,
    responder: &mut VersionTable<N, H>,
) -> Result<Record, Fault>
    requires came { course.now.plan.now.lost1 ≡ false }
    requires known { AreKnown H.lists N.most course.now.histories.now }
    requires may { MaySend course.now.rules.now course.now.plan.now.rotation course.now.histories.now
        (table_in H.lists initiator.old) (table_in H.lists responder.old) }
    ensures ok { IfOk result
        (MakesOf (table_in H.lists) course.now.rules.now course.now.plan.now initiator.old responder.old
        initiator.new responder.new) }
    ensures stay { OnErr result (BothStay initiator.old responder.old initiator.new responder.new) }
    ensures only { IsOkUnless result OutOfMemory }
{
    let plan = course.plan;
    let back = delta(responder, initiator, course)?;
    let mode = course.rules.mode;
    if plan.lost2 {
        let digest1 = initiator.digest_size(mode);
        return Ok(sent_back(digest1, back.digest, back.marked.counts));
    }
    let forth = delta(initiator, responder, course)?;
    let histories = course.histories;
    let first = First::of(mode);
    let initiator_before = Vec::from_slice(course.alloc, initiator.greatest())?;
    let responder_before = Vec::from_slice(course.alloc, responder.greatest())?;
    let came = what_comes(&back, &responder_before, first, false);
    let went = what_comes(&forth, &initiator_before, first, plan.lost3);
    let came_back = responder.cells();
    take_unless(initiator, came_back, came, &initiator_before, histories);
    let came_forth = initiator.cells();
    take_unless(responder, came_forth, went, &responder_before, histories);
    Ok(sent_both(
        forth.digest,
        back.digest,
        back.marked.counts,
        forth.marked.counts,
        plan.lost3,
    ))
}
