//! What holds of every lawful schedule of every list. The calls do nothing.

ghost use Rattle.dependencies.specs.Laws.{EachKeepsListOrder, EachWholeOneGivesListOrder, EachCanGoOn, PredecessorsTellOfAllEarlier, TwoSetsMakeASchedule};

/// At each moment of a lawful schedule running exchanges share no node, none has started or finished
/// twice, each table in its place is that of list order after its node's last finished exchange, and
/// a running exchange has taken out the tables that it finds in list order.
pub fn every_schedule_keeps_list_order()
    ensures { EachKeepsListOrder }
{}

/// Where all exchanges are finished, the tables and records are those of list order.
pub fn every_whole_schedule_gives_list_order()
    ensures { EachWholeOneGivesListOrder }
{}

/// While some exchange isn't finished, one is running or may start.
pub fn every_schedule_can_go_on()
    ensures { EachCanGoOn }
{}

/// The predecessors of an exchange are finished exactly where every earlier exchange that shares a node
/// with it is.
pub fn predecessors_tell_of_all_earlier()
    ensures { PredecessorsTellOfAllEarlier }
{}

/// To carry out one set of exchanges in list order and then start those of another is a lawful
/// schedule, where the first set has each predecessor of an exchange of either.
pub fn two_sets_make_a_schedule()
    ensures { TwoSetsMakeASchedule }
{}
