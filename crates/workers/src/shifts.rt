//! What several workers begin a list with, and what they come to.

ghost use Rattle.std.specs.Prelude.{◌≡◌, ◌≤◌, map, IfOk, vec_len};
ghost use Rattle.std.specs.Arc.{arc_value};
ghost use Rattle.model.specs.calls.Tables.{IsCluster};
ghost use Rattle.work.specs.Carrying.{MayCarryOut};
ghost use Rattle.board.specs.Boards.{plan_of};
ghost use Rattle.crew.specs.Named.{tray_count};
ghost use Rattle.workers.specs.inner.Gathering.{HasGathered};
ghost use Rattle.workers.specs.inner.Handed.{HasHandedOut, HasOpened, MayHandOut};
ghost use Rattle.workers.specs.inner.Outcomes.{ComesTo};
ghost use Rattle.workers.specs.inner.Returns.{IsReturned};
ghost use Rattle.workers.specs.inner.Shifts.{IsShift};
ghost use Rattle.workers.specs.inner.Starts.{HasDealt, IsSeated, IsShared};
ghost use Rattle.workers.specs.inner.Works.{AreSeveral, MayShareOut};
ghost use Rattle.workers.specs.inner.Joined.{HasClosed, HasTakenIn, HasSeenAll, IsEndOf};

use crate::gathering::{Gathered, places, write_all};
use crate::tasks::{Back, Shift, Task};
use crate::workers::{Returned, Workshop};
use bench_types::{Fault, Record, Rules};
use board::{Board, Seat};
use crew::{Trays, alone};
use dependencies::Deps;
use model::{Exchanging, MemoryTable, RoundList};
use std::alloc::Global;
use std::snapshot::Snapshot;
use std::sync::{Arc, Wait};
use work::{Batch, Done, Gate, Tasks};

/// What the workers of a list share, a task for each of them, and a seat of their board with places for all records.
#[derive(Drop)]
pub(crate) struct Opened<T: MemoryTable, X: Exchanging<T>, G> {
    pub shift: Arc<Shift<T, X, G>>,
    pub gathered: Gathered<T>,
    pub tasks: Vec<Task<T, X, G>>,
}

/// A board of the batch, which several workers share, and their tasks.
pub(crate) fn open<T: MemoryTable, X: Exchanging<T> + Drop, G: Gate + Drop>(
    alloc: Global,
    workers: u32,
    batch: Batch<X, G>,
    tables: Vec<T>,
) -> Result<Opened<T, X, G>, Fault>
    requires several { AreSeveral workers }
    requires batch { MayShareOut T.table X.fits batch tables.items }
    ensures opened { ComesTo result (λ opened.
        HasOpened T.table X.fits batch.entry workers tables.items (arc_value opened.shift) opened.gathered) }
    ensures one_each { IfOk result (λ opened. vec_len opened.tasks ≡ workers) }
{
    let (deps, tasks) = deal(alloc, workers, batch.list)?;
    let (board, mut gathered) = seated(alloc, deps, *batch.rules, tables)?;
    let shift = share(alloc, workers, batch, board)?;
    let tasks = hand_out(alloc, &shift, &mut gathered, tasks)?;
    Ok(Opened {
        shift,
        gathered,
        tasks,
    })
}

// What the workers share, over a board of the batch's tables.
fn share<T: MemoryTable, X: Exchanging<T> + Drop, G: Gate + Drop>(
    alloc: Global,
    workers: u32,
    batch: Batch<X, G>,
    board: Board<T>,
) -> Result<Arc<Shift<T, X, G>>, Fault>
    requires rules { (plan_of T.table board).rules ≡ batch.rules.now }
    requires tables { MayCarryOut (X.fits batch.shared) batch.rules.now (plan_of T.table board).list.nodes
        (plan_of T.table board).tables }
    ensures { ComesTo result (λ shift. IsShared T.table X.fits batch.entry board workers (arc_value shift)) }
{
    let back = Back(Snapshot::of(&board));
    let trays = Trays::new(alloc, workers as usize, &back)?;
    let shop = Workshop {
        alloc,
        board,
        shared: batch.shared,
        rules: *batch.rules,
        gate: batch.gate,
    };
    Arc::new(alloc, Shift { shop, trays })
        .ok()
        .ok_or(Fault::OutOfMemory)
}

// What each exchange of a list waits for, and a deque for each worker, to which what is ready is dealt.
fn deal(alloc: Global, workers: u32, list: &RoundList) -> Result<(Deps, Vec<Tasks>), Fault>
    requires some { 1 ≤ workers }
    ensures { ComesTo result (λ dealt. HasDealt list.now workers dealt.0 dealt.1) }
{
    let deps = Deps::new(alloc, list)?;
    let tasks = Tasks::deal(alloc, workers, deps.first_ready())?;
    Ok((deps, tasks))
}

// A board with its first seat, and a place for each record.
fn seated<T: MemoryTable>(
    alloc: Global,
    deps: Deps,
    rules: Rules,
    tables: Vec<T>,
) -> Result<(Board<T>, Gathered<T>), Fault>
    requires cluster { IsCluster deps.nodes (map T.table tables.items) }
    ensures { ComesTo result (λ seated. IsSeated T.table rules deps tables.items seated.0 seated.1) }
{
    let records = places(alloc, deps.len())?;
    let (board, seat) = Board::new(alloc, deps, rules, tables)?;
    Ok((board, Gathered { seat, records }))
}

// A task for each worker, with a part of the seat. It takes all memory that they need before any is given.
fn hand_out<T: MemoryTable, X: Exchanging<T> + Drop, G: Gate + Drop>(
    alloc: Global,
    shift: &Arc<Shift<T, X, G>>,
    gathered: &mut Gathered<T>,
    tasks: Vec<Tasks>,
) -> Result<Vec<Task<T, X, G>>, Fault>
    requires { MayHandOut T.table X.fits (arc_value shift.now) gathered.old (vec_len tasks) }
    ensures handed { ComesTo result
        (λ _. HasHandedOut T.table X.fits (arc_value shift.now) (vec_len tasks) gathered.new) }
    ensures one_each { IfOk result (λ handed. vec_len handed ≡ vec_len tasks) }
{
    let mut handed = Vec::with_capacity(alloc, tasks.len())?;
    for own in tasks {
        let place = handed.len();
        let share = Arc::try_clone(shift)?;
        let part = shift.shop.board.split(&mut gathered.seat);
        handed.push_reserved(Task::new(share, part, own, place));
    }
    Ok(handed)
}

/// What the list comes to once all workers have left it, with what was made meanwhile.
pub(crate) fn close<T: MemoryTable, X: Exchanging<T> + Drop, G: Gate + Drop, M: Drop, R: Wait>(
    rt: &R,
    shift: Arc<Shift<T, X, G>>,
    mut gathered: Gathered<T>,
    workers: usize,
    made: M,
) -> Result<Done<T, X, M>, Fault>
    requires { HasHandedOut T.table X.fits (arc_value shift) workers gathered }
    ensures { ComesTo result (λ done. HasClosed T.table (arc_value shift) made done) }
{
    take_all(rt, &shift, &mut gathered, workers)?;
    // A whole seat, so it learns that all exchanges are put back.
    shift.shop.board.look(&mut gathered.seat);
    let shop = alone(rt, shift).shop;
    let (tables, records) = end(shop.board, gathered);
    Ok(Done {
        tables,
        records,
        shared: shop.shared,
        made,
    })
}

// Takes what each worker has left, joins their seats to another, and writes their records to their places.
fn take_all<T: MemoryTable, X: Exchanging<T>, G, R: Wait>(
    rt: &R,
    shift: &Shift<T, X, G>,
    gathered: &mut Gathered<T>,
    workers: usize,
) -> Result<(), Fault>
    requires shift { IsShift T.table X.fits shift.now }
    requires gathered { HasGathered T.table shift.now.shop.board gathered.old }
    requires within { workers ≤ tray_count shift.now.trays }
    ensures { ComesTo result (λ _. HasTakenIn T.table shift.now.shop.board workers gathered.old gathered.new) }
{
    for i in 0..workers {
        let returned = shift.trays.wait_for(rt, i);
        take_one(&shift.shop.board, gathered, returned)?;
    }
    Ok(())
}

// Joins the seat of a worker, and writes its records to their places.
fn take_one<T: MemoryTable>(
    board: &Board<T>,
    gathered: &mut Gathered<T>,
    returned: Returned<T>,
) -> Result<(), Fault>
    requires gathered { HasGathered T.table board.now gathered.old }
    requires returned { IsReturned T.table board.now 1 returned }
    ensures { ComesTo result (λ _. HasTakenIn T.table board.now 1 gathered.old gathered.new) }
{
    write_all(&mut gathered.records, &returned.outcome?);
    board.join(&mut gathered.seat, returned.seat);
    Ok(())
}

// The tables and the records of a board whose exchanges a whole seat has seen to be put back.
fn end<T: MemoryTable>(board: Board<T>, gathered: Gathered<T>) -> (Vec<T>, Vec<Record>)
    requires seen { HasSeenAll T.table board gathered }
    ensures { IsEndOf T.table (plan_of T.table board) result.0.items result.1.items }
{
    let Gathered { seat, records } = gathered;
    let Ok(tables) = board.close(seat) else {
        unreachable!()
    };
    (tables, records)
}
