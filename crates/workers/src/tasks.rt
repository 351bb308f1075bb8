//! What a worker is given for one list, and what it leaves behind.

ghost use Rattle.std.specs.Prelude.{◌≡◌};
ghost use Rattle.std.specs.Arc.{arc_value};
ghost use Rattle.workers.specs.inner.Returns.{IsReturned};

use crate::workers::{Returned, Workshop};
use board::{Board, Seat};
use crew::{Label, Trays};
use model::{Exchanging, MemoryTable};
use std::marker::Model;
use std::snapshot::Snapshot;
use std::sync::{Arc, Wait};
use work::{Gate, Tasks};

// What a tray of a list's workers may hold: what comes back of a seat of one part of this board.
#[derive(Drop)]
pub(crate) struct Back<T: MemoryTable>(pub Snapshot<Board<T>>);

impl<T: MemoryTable> Label<Returned<T>> for Back<T> {
    ghost keeps = { λ back _ returned. IsReturned T.table back.0.value 1 returned };
}

/// What the workers of a list share, and where each leaves what it comes back with.
#[derive(Drop)]
pub(crate) struct Shift<T: MemoryTable, X: Exchanging<T>, G> {
    pub shop: Workshop<T, X, G>,
    pub trays: Trays<Returned<T>, Back<T>>,
}

/// The part of one worker in a list. A lock that it goes through tells only its invariant.
#[derive(Drop)]
pub(crate) struct Task<T: MemoryTable, X: Exchanging<T>, G> {
    shift: Arc<Shift<T, X, G>>,
    seat: Seat<T>,
    tasks: Tasks,
    place: usize,
}

impl<T: MemoryTable, X: Exchanging<T>, G> Model for Task<T, X, G> {
    ghost use Rattle.std.specs.Prelude.{ℕ};
    ghost use Rattle.std.specs.Arc.{arc_value};
    ghost use Rattle.workers.specs.inner.Shifts.{IsTask};

    ghost Value = { ℕ };

    ghost view = { λ t. t.place };

    ghost invariant = { λ t. IsTask T.table X.fits (arc_value t.shift) t.seat t.place };
}

impl<T: MemoryTable, X: Exchanging<T> + Drop, G: Gate + Drop> Task<T, X, G> {
    ghost use Rattle.workers.specs.inner.Shifts.{IsTask};

    pub(crate) fn new(
        shift: Arc<Shift<T, X, G>>,
        seat: Seat<T>,
        tasks: Tasks,
        place: usize,
    ) -> Task<T, X, G>
        requires { IsTask T.table X.fits (arc_value shift) seat place }
        ensures { result ≡ place }
    {
        Task {
            shift,
            seat,
            tasks,
            place,
        }
    }

    /// Works on the list, and leaves what comes of it in the tray of that place. Its share is let go by then.
    pub(crate) fn carry_out<R: Wait>(self, rt: &R) {
        let shift = self.shift;
        let returned = shift.shop.work(rt, self.seat, self.tasks);
        shift.trays.leave(rt, self.place, returned);
    }
}
