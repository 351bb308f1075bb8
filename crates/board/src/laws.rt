//! What holds of every board at each moment, and of every hold. The calls do nothing.

ghost use Rattle.board.specs.Laws.{EachKeepsASchedule, EachWholeSeatKnowsItsOwn, EachHoldMayBeExchanged, EachMayBePutBack};

use model::MemoryTable;

/// At each moment what seats have put back and what they hold are the finished and the running exchanges
/// of some lawful schedule, and the table of a node of which none runs is the one of its state.
pub fn every_board_keeps_a_schedule()
    ensures { EachKeepsASchedule }
{}

/// A seat that has all parts has put back or holds each exchange that it was told is taken. What it knows to be
/// put back it has put back itself, and a stop that it knows of it has called for itself. What waits for others
/// it has freed exactly where it has put back all of these.
pub fn every_whole_seat_knows_its_own()
    ensures { EachWholeSeatKnowsItsOwn }
{}

/// The exchange of a hold may be carried out on its tables.
pub fn every_hold_may_be_exchanged<T: MemoryTable>()
    ensures { EachHoldMayBeExchanged T.table }
{}

/// What an exchange leaves of a hold's tables may be put back.
pub fn every_exchange_may_be_put_back<T: MemoryTable>()
    ensures { EachMayBePutBack T.table }
{}
