//! What the laws ask for comes about, on two rings of three nodes, and before it does their conclusions fail. The calls
//! do nothing.

ghost use Rattle.std.specs.Prelude.{◌≡◌, ℕ, ◌<◌, ◌≤◌, Bool, true, false, slice_get, Some, IsSomeAnd};
ghost use Rattle.bench_types.specs.Mark.{IsUpTo};
ghost use Rattle.bench_types.specs.declared.exchanges.Mode.{Mode};
ghost use Rattle.scenario.specs.Settings.{IsLawfulScenario, with_mode};
ghost use Rattle.model.specs.Candidates.{IsScuttleMode};
ghost use Rattle.model.specs.ExchangeLaws.{LosesNothing};
ghost use Rattle.model.specs.Fresh.{HasOwnPart};
ghost use Rattle.model.specs.Table.{greatest_mark};
ghost use Rattle.round_plan.specs.Generations.{generation_upto};
ghost use Rattle.round_plan.specs.Outages.{restarts_now};
ghost use Rattle.round_plan.specs.Plan.{exchange_of, round_list_of};
ghost use Rattle.run_laws.specs.CatchingUp.{AllArePassedOn, IsPassedOn, KeepsCopy};
ghost use Rattle.run_laws.specs.Floors.{CutsNothingBefore, CutsNothingUpTo};
ghost use Rattle.run_laws.specs.Formats.{NeverForgets};
ghost use Rattle.run_laws.specs.Healing.{Moment, AnswersWhole, AreQuietAfter, HaveWrittenSince, IsAmple, IsFreshAt, IsHealed, IsUpToMoment, LeavesCopy, SendsOwnPartAt, table_at_moment};
ghost use Rattle.played_rounds.specs.Outcomes.{figures_in, row_in};
ghost use Rattle.run_laws.specs.Paths.{HandsOn, IsReached, SendsCopyAt};
ghost use Rattle.cluster.specs.Rounds.{records_in};
ghost use Rattle.run_laws.specs.calls.SmallRings.{ring_of_three, ring_that_loses, having_written, meeting, having_met, having_restarted};

/// The rings keep the limits of scenarios, and cut nothing under any mode. On one of them node 0 restarts and never
/// forgets.
pub fn rings_are_lawful()
    ensures lawful { (forget : Bool) → IsLawfulScenario (ring_of_three forget) }
    ensures ample { (forget : Bool) → IsAmple (ring_of_three forget) }
    ensures uncut { (forget : Bool) (mode : Mode) → CutsNothingUpTo (with_mode (ring_of_three forget) mode) 3 }
    ensures uncut_before { (forget : Bool) → CutsNothingBefore (ring_of_three forget) having_met }
    ensures scuttle { (forget : Bool) → IsScuttleMode (ring_of_three forget).mode }
    ensures never { NeverForgets (ring_of_three false) }
    ensures keeps_own { (restarts_now (ring_of_three false) 0 1 ≡ true) × KeepsCopy (ring_of_three false) 0 0 1 }
{}

/// Rounds 2 and 3 are quiet, and in each of them all meet. Where node 0 has forgotten in round 1 it has written since.
/// After round 1 the copies aren't healed, and something is stale for a round. In round 4, behind the quiet ones, node 0
/// restarts, and its copies aren't fresh; where it forgets, as it doesn't write, something is left over.
pub fn rings_grow_quiet()
    ensures quiet { (forget : Bool) → AreQuietAfter (ring_of_three forget) 1 }
    ensures exchanges { (forget : Bool) → (row_in (ring_of_three forget) 2).exchanges ≡ 3 }
    ensures forgot { generation_upto (ring_of_three true) 0 3 ≡ 1 }
    ensures since { HaveWrittenSince (ring_of_three true) 3 }
    ensures unhealed { (forget : Bool) → IsHealed (ring_of_three forget) 1 → ⊥ }
    ensures lags { (forget : Bool) → 1 ≤ (figures_in (ring_of_three forget) 1).greatest }
    ensures restarts { (forget : Bool) → IsFreshAt (ring_of_three forget) having_restarted 0 2 → ⊥ }
    ensures left_over { 1 ≤ (figures_in (ring_of_three true) 4).leftover }
{}

/// Round 2 begins with an exchange of nodes 0 and 2. It loses nothing, and brings what node 2 has written, which nobody
/// else had. Where all is lost nothing is handed on.
pub fn exchanges_come_whole()
    ensures listed { (forget : Bool)
        → slice_get (round_list_of (ring_of_three forget) 2).exchanges 0
        ≡ Some (exchange_of (ring_of_three forget) 2 0) }
    ensures ends { (forget : Bool) → LosesNothing (exchange_of (ring_of_three forget) 2 0) }
    ensures answered { (forget : Bool)
        → IsSomeAnd (slice_get (records_in (ring_of_three forget) 2) 0) AnswersWhole }
    ensures written { (forget : Bool) → HasOwnPart (table_at_moment (ring_of_three forget) having_written 2) }
    ensures sends_own { (forget : Bool) → SendsOwnPartAt (ring_of_three forget) meeting 0 2 0 }
    ensures sends_copy { (forget : Bool) (owner : ℕ) → SendsCopyAt (ring_of_three forget) meeting 0 owner 2 0 }
    ensures hands_on { (forget : Bool) (owner : ℕ) → HandsOn (ring_of_three forget) meeting owner 2 0 }
    ensures leaves { (forget : Bool) → LeavesCopy (ring_of_three forget) 0 2 3 }
    ensures losing { IsLawfulScenario ring_that_loses }
    ensures hands_nothing { (m : Moment) (owner from to : ℕ) → HandsOn ring_that_loses m owner from to → ⊥ }
    ensures unfresh { (forget : Bool) (n : ℕ) → n < 2 → IsFreshAt (ring_of_three forget) having_written n 2 → ⊥ }
{}

/// What node 2 has written comes to node 1 by way of node 0, before these two meet. By the end of round 2 all that was
/// written in round 1 has come to all.
pub fn paths_lead_on()
    ensures upto { IsUpToMoment having_written having_met }
    ensures reached { (forget : Bool) → IsReached (ring_of_three forget) 2 having_met 1 }
    ensures passed_on { (forget : Bool) → IsPassedOn (ring_of_three forget) 2 having_written having_met 1 }
    ensures all { (forget : Bool) → AllArePassedOn (ring_of_three forget) 1 2 }
    ensures lags { (forget : Bool) (n : ℕ) → n < 2
        → IsUpTo (greatest_mark (table_at_moment (ring_of_three forget) having_written 2) 2)
        (greatest_mark (table_at_moment (ring_of_three forget) having_written n) 2) → ⊥ }
{}
