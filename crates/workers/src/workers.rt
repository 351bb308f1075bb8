//! What the workers of a list share, and the body of one of them.

ghost use Rattle.std.specs.Prelude.{◌≡◌, ◌<◌, length, MatchResult};
ghost use Rattle.bench_types.specs.declared.faults.Fault.TheVariants.{OutOfMemory};
ghost use Rattle.board.specs.Boards.{exchanges_of, seat_view, IsSeatOf};

use crate::gathering::Stamped;
use bench_types::{Fault, Rules};
use board::{Board, Claim, Freed, Hold, Seat};
use crossbeam_utils::Backoff;
use model::{Exchanging, MemoryTable};
use std::alloc::Global;
use std::sync::Wait;
use work::{Gate, Tasks};

/// What all workers of a list share.
#[derive(Drop)]
pub(crate) struct Workshop<T: MemoryTable, X: Exchanging<T>, G> {
    pub alloc: Global,
    pub board: Board<T>,
    pub shared: X,
    pub rules: Rules,
    pub gate: G,
}

/// A worker: its seat, where it finds exchanges, and the records of those that it has put back.
#[derive(Drop)]
pub(crate) struct Worker<T> {
    pub seat: Seat<T>,
    pub tasks: Tasks,
    pub stamps: Vec<Stamped>,
}

/// What a worker comes back with: its seat, and the records of the exchanges that it has put back, or
/// lack of memory.
#[derive(Drop)]
pub(crate) struct Returned<T> {
    pub seat: Seat<T>,
    pub outcome: Result<Vec<Stamped>, Fault>,
}

impl<T: MemoryTable, X: Exchanging<T>, G: Gate> Workshop<T, X, G> {
    ghost use Rattle.workers.specs.inner.Workshops.{IsWorkshop};
    ghost use Rattle.workers.specs.inner.AtWork.{HasWorked, HasWorkedToTheEnd, IsWorker, StaysAtWork};
    ghost use Rattle.workers.specs.inner.Outcomes.{ComesTo};
    ghost use Rattle.workers.specs.inner.Returns.{HasCarriedOut, IsFreshSeat, IsHeldOf, IsReturned};

    /// Carries out exchanges of the list until it sees that all are finished or that a stop was called. On
    /// lack of memory it calls for a stop.
    pub(crate) fn work<R: Wait>(&self, rt: &R, seat: Seat<T>, tasks: Tasks) -> Returned<T>
        requires shop { IsWorkshop T.table X.fits self.now }
        requires seat { IsFreshSeat T.table self.now.board seat }
        ensures { IsReturned T.table self.now.board (seat_view seat).parts result }
    {
        let mut worker = Worker {
            seat,
            tasks,
            stamps: Vec::new(self.alloc),
        };
        match self.carry_out_all(rt, &mut worker) {
            Ok(()) => Returned {
                seat: worker.seat,
                outcome: Ok(worker.stamps),
            },
            Err(fault) => {
                self.board.stop(&mut worker.seat);
                Returned {
                    seat: worker.seat,
                    outcome: Err(fault),
                }
            }
        }
    }

    fn carry_out_all<R: Wait>(&self, rt: &R, worker: &mut Worker<T>) -> Result<(), Fault>
        requires shop { IsWorkshop T.table X.fits self.now }
        requires worker { IsWorker T.table self.now.board worker.old }
        ensures stays { StaysAtWork T.table self.now.board worker.old worker.new }
        ensures worked { ComesTo result (λ _. HasWorkedToTheEnd T.table self.now.board worker.old worker.new) }
    {
        let count = self.board.len();
        let backoff = Backoff::new();
        for _ in rt.forever() {
            // Whether all exchanges are put back, or a stop was called.
            let progress = self.board.look(&mut worker.seat);
            if progress.stopped || progress.finished == count {
                break;
            }
            if let Some(i) = worker.tasks.next(count) {
                self.try_one(worker, i)?;
                backoff.reset();
            } else {
                backoff.snooze();
            }
        }
        Ok(())
    }

    // Claims an exchange, and where it is held carries it out and keeps its record. What that made ready
    // goes on the worker's own deque.
    fn try_one(&self, worker: &mut Worker<T>, i: u32) -> Result<(), Fault>
        requires shop { IsWorkshop T.table X.fits self.now }
        requires within { i < length (exchanges_of self.now.board) }
        requires worker { IsWorker T.table self.now.board worker.old }
        ensures stays { StaysAtWork T.table self.now.board worker.old worker.new }
        ensures worked { ComesTo result (λ _. HasWorked T.table self.now.board worker.old worker.new) }
    {
        let Claim::Held(hold) = self.board.claim(&mut worker.seat, i) else {
            return Ok(());
        };
        let (stamped, freed) = self.carry_out(&mut worker.seat, hold)?;
        worker.tasks.push_freed(freed.first)?;
        worker.tasks.push_freed(freed.second)?;
        worker.stamps.push(stamped)?;
        Ok(())
    }

    /// Carries out the exchange of a hold and puts it back, between `enter` and `leave` of the gate. Answers
    /// its record, and which exchanges that made ready. An error is lack of memory; the gate wasn't left then,
    /// and the hold is given up.
    pub(crate) fn carry_out(
        &self,
        seat: &mut Seat<T>,
        mut hold: Hold<T>,
    ) -> Result<(Stamped, Freed), Fault>
        requires shop { IsWorkshop T.table X.fits self.now }
        requires hold { IsHeldOf T.table self.now.board seat.old hold }
        ensures seat { IsSeatOf T.table seat.new self.now.board }
        ensures done { MatchResult result
            (λ done. HasCarriedOut T.table self.now.board seat.old hold.index done.0 done.1 seat.new)
            (λ f. (f ≡ OutOfMemory) × (seat_view seat.new ≡ seat_view seat.old)) }
    {
        let index = hold.index;
        let plan = self.board.exchange(index);
        self.gate.enter(index);
        let outcome = self.shared.exchange(
            self.alloc,
            &mut hold.initiator,
            &mut hold.responder,
            &plan,
            &self.rules,
        )?;
        let freed = self.board.put_back(seat, hold);
        self.gate.leave(index);
        Ok((Stamped { index, outcome }, freed))
    }
}
