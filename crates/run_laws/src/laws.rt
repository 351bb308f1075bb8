//! When copies agree with their owners, and how far they lag, whatever is lost, cut, separated or restarted elsewhere.
//! The calls do nothing.

ghost use Rattle.scenario.specs.Settings.{Settings, IsLawfulScenario};
ghost use Rattle.run_laws.specs.CatchingUp.{UncutPathsCatchUp, StalenessIsBounded};
ghost use Rattle.run_laws.specs.Floors.{UncutCopiesAreStates, UncutRunsAreBest, UncutModesAreAlike};
ghost use Rattle.run_laws.specs.Formats.{LeavesNothingOver, FormatHasNoPart};
ghost use Rattle.run_laws.specs.Paths.{UncutExchangesHandOn, PathsMakeFresh};
ghost use Rattle.run_laws.specs.Healing.{ExchangesMakeFresh, FreshCopiesStay, QuietRingsHeal, AmpleBudgetsCutNothing};

/// A direct exchange makes fresh. In each mode, where a side's delta reaches the other with none of that side's own
/// entries cut, the copy there equals its owner's state, provided that the owner has written since it last forgot.
/// Where it hasn't, what is left over of it may stay.
pub fn exchanges_make_fresh()
    ensures { (s : Settings) → IsLawfulScenario s → ExchangesMakeFresh s }
{}

/// A fresh copy stays fresh until its owner writes or its holder restarts, whatever is lost, cut or
/// separated meanwhile.
pub fn fresh_copies_stay()
    ensures { (s : Settings) → IsLawfulScenario s → FreshCopiesStay s }
{}

/// Freshness spreads. An exchange hands on a fresh copy of any owner, if what it carries of that owner comes and
/// isn't cut, and the copy stays fresh while its owner doesn't write and its holder doesn't restart: so at the end of
/// a path of such exchanges the last holder has a fresh copy, whatever is lost, cut or separated elsewhere.
pub fn paths_make_fresh()
    ensures { (s : Settings) → IsLawfulScenario s → PathsMakeFresh s }
{}

/// What stands at an exchange's place among its round's records is enough for a path: one that wasn't lost before its
/// answer came and cut nothing of it hands on each copy to its initiator, and one that lost nothing and cut nothing of
/// its third message each to its responder.
pub fn uncut_exchanges_hand_on()
    ensures { (s : Settings) → IsLawfulScenario s → UncutExchangesHandOn s }
{}

/// A quiet ring heals. Behind as many rounds as a node has others, in which nothing is written, no node is
/// down, restarts or is apart, and each exchange brings its initiator an answer of which nothing is cut, all
/// copies are fresh: none is stale, and nothing is left over where each owner that has forgotten has written
/// since. They may begin anywhere in the ring's cycle.
pub fn quiet_rings_heal()
    ensures { (s : Settings) → IsLawfulScenario s → QuietRingsHeal s }
{}

/// A budget with room for the largest entry of each key of all owners but one cuts nothing, in any round.
pub fn ample_budgets_cut_nothing()
    ensures { (s : Settings) → IsLawfulScenario s → AmpleBudgetsCutNothing s }
{}

/// As long as nothing was cut, what a node holds of another is exactly the state that this one had when it made the
/// write with the greatest mark that is held: at each key the last write of the generation up to it.
pub fn uncut_copies_are_states()
    ensures { (s : Settings) → IsLawfulScenario s → UncutCopiesAreStates s }
{}

/// A run that has cut nothing is the best. After each round up to which its rows say so, no more is stale, and nothing
/// for longer, than under any other mode and with any other budget, whatever is lost, cut or separated, and whoever
/// restarts or forgets. Of what is left over nothing is said: what spreads less leaves less over.
pub fn uncut_runs_are_best()
    ensures { (s : Settings) → IsLawfulScenario s → UncutRunsAreBest s }
{}

/// All runs that have cut nothing are alike: under each mode and with each budget they have the same tables and rows.
pub fn uncut_modes_are_alike()
    ensures { (s : Settings) → IsLawfulScenario s → UncutModesAreAlike s }
{}

/// While owners write, a path of exchanges in a run that has cut nothing brings all that its owner had written when the
/// path began: the greatest mark of the last holder's copy isn't below the owner's own one then.
pub fn uncut_paths_catch_up()
    ensures { (s : Settings) → IsLawfulScenario s → UncutPathsCatchUp s }
{}

/// So where all that owners have written as a round begins comes to all others by the end of a later one, nothing is
/// stale then for longer than since that round.
pub fn staleness_is_bounded()
    ensures { (s : Settings) → IsLawfulScenario s → StalenessIsBounded s }
{}

/// Where no restart forgets nothing is ever left over, in either format. In format 1 none does.
pub fn unforgetful_runs_leave_nothing_over()
    ensures { (s : Settings) → IsLawfulScenario s → LeavesNothingOver s }
{}

/// The number of the format has no part in tables and rows: with another one a scenario comes to the same, by the same
/// budget and restarts.
pub fn the_format_has_no_part()
    ensures { (s : Settings) → FormatHasNoPart s }
{}
