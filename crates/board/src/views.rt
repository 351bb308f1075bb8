//! What a seat knows, holds and owes, as the proofs see it.
ghost use Rattle.std.specs.Prelude.{ℕ, List};
ghost use Rattle.std.specs.Borrow.{ftrue};
ghost use Rattle.board.specs.Plan.{BoardPlan};
ghost use Rattle.board.specs.inner.Codes.{plan_code};
ghost use Rattle.board.specs.SeatView.{SeatView};
ghost use Rattle.board.specs.inner.Codes.{seat_code};

use std::marker::Model;

// No value of it is made.
pub struct View {
    // What the board was made of.
    pub ghost plan: { BoardPlan } by { plan_code },
    pub ghost seat: { SeatView } by { seat_code },
    // The exchange whose tables are on their way, out of their slots or back, while a call runs.
    pub ghost moving: { List ℕ },
    // The releases that a call owes: by which exchange, and of which.
    pub ghost owes: { List (ℕ × ℕ) },
}

impl Model for View {
    ghost also_owns = { λ _. ftrue };
}
