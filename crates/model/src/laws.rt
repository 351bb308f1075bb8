//! What holds of every sending order, delta, exchange and list of exchanges. The calls do nothing.

ghost use Rattle.model.specs.DeltaLaws.{UncutDeltasSendAll};
ghost use Rattle.model.specs.calls.DeltaLaws.{SendingOrdersAreTotal, ScuttleDeltasAscend, CandidatesAreLacked};
ghost use Rattle.model.specs.calls.StrictOrders.{SendingOrdersAreStrict};
ghost use Rattle.model.specs.calls.ExchangeLaws.{EntriesComeFromEither, EnoughBudgetCutsNothing, WholePreciseExchangesGiveTheNewer};
ghost use Rattle.model.specs.calls.Clusters.{CopiesAreNeverAhead, ListsKeepTablesProper};

/// The sending order of any items is total, in every mode and with every rotation.
pub fn sending_orders_are_total()
    ensures { SendingOrdersAreTotal }
{}

/// And strict: of the candidates for one delta no two tie.
pub fn sending_orders_are_strict()
    ensures { SendingOrdersAreStrict }
{}

/// In the scuttle modes what is sent of each owner ascends in version.
pub fn scuttle_deltas_ascend()
    ensures { ScuttleDeltasAscend }
{}

/// In every mode a delta that cuts nothing sends all candidates.
pub fn uncut_deltas_send_all()
    ensures { UncutDeltasSendAll }
{}

/// In a scuttle mode the candidates are the sender's items, but for the receiver's own, that are above the
/// greatest mark which the receiver holds of their owner. In a precise mode they are those of no older
/// generation than the receiver's copy of their owner that are above its mark of their key.
pub fn candidates_are_lacked()
    ensures { CandidatesAreLacked }
{}

/// After an exchange each entry is one that stood at its place in one of the two tables before it.
pub fn entries_come_from_either()
    ensures { EntriesComeFromEither }
{}

/// Where no message is lost, a budget for all candidates of both sides cuts nothing.
pub fn enough_budget_cuts_nothing()
    ensures { EnoughBudgetCutsNothing }
{}

/// In the precise modes an exchange without loss or cut leaves each side, of every owner but itself,
/// with the newer of the two generations, and of each key with the greater of the two versions in it.
pub fn whole_precise_exchanges_give_the_newer()
    ensures { WholePreciseExchangesGiveTheNewer }
{}

/// Where copies hold nothing but their owners' writes, no copy is ahead of its owner.
pub fn no_copy_is_ahead()
    ensures { CopiesAreNeverAhead }
{}

/// Tables that are proper and those of all nodes in order are so before each exchange of a list, and
/// after the last.
pub fn lists_keep_tables_proper()
    ensures { ListsKeepTablesProper }
{}
