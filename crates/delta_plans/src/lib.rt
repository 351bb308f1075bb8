//! Plans of deltas over numbers of writes: what of an offer is sent, as one mark for each owner. No table is at hand.
//!
//! # Choices
//!
//! - Planners speak of numbers alone, and one theorem lifts them to the candidates, the order and the cut of `model`
//!   (`proofs/DeltaMarks.antt`). So breadth, depth, the rounds and the turns of the rotation are proved without a table
//!   at hand.
//! - The round up to which a precise delta goes is found by halving with a step that doubles from the near end: mostly
//!   it is one of the first. No clause says that sizes rise with the rounds; that few fit and enough don't is all that
//!   is kept.
//! - The parts of a level are counted for 64 owners at a time, as turns come to them. Where entries are counted and all
//!   of these parts fit, the 64 owners are passed at once, and only the last ones are gone over turn by turn.
//! - Where entries are counted nothing is weighed. Where bytes are, sizes are looked up up to the first owner whose
//!   numbers don't fit, those of a layer or of runs only once, as what is left of the budget goes on to the next ones,
//!   and those of rounds and of all that is offered only if their count times the largest size doesn't fit.
//! - A precise offer has nothing of most owners between two marks, however far these are apart. So before bytes of one
//!   are weighed, the owners that have something are sought, key by key over whole planes. In the scuttle modes marks
//!   that differ tell it.
//! - Functions whose loops took more instructions beside other values that live there aren't inlined.
#![tactic(auto)]

mod between;
mod breadths;
mod depths;
mod laws;
mod marked;
mod offers;
mod rounds;
mod sharing;
mod told_marks;

pub use laws::deltas_have_their_sets;
pub use marked::{First, Marked, planned};
pub use offers::Offer;
pub use told_marks::{Owners, told};
