//! How far the copies lag behind their owners, told by numbers of writes: the figures of a round.
//!
//! # Choices
//!
//! - The figures are worked out over numbers alone, slices of each table's cells, in as many parts as there are
//!   processors, or fewer. Threads that wait count one each (`piece_of`), or else the caller's thread starts one for
//!   each part but the last, which it counts itself. The last number of each owner's key, which they are compared with,
//!   is kept beside the lists as it is written. Then an owner's list is read only where the ends of the rounds show that
//!   a copy of it may be behind for longer than those of the owners before it.
#![tactic(auto)]

mod bounds;
mod lags;

pub use bounds::bounds_for;
pub use lags::{Piece, RoundNumbers, figures, figures_of_pieces, piece_of};
