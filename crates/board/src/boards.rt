//! A board, the seats that use it, and what its calls answer.
ghost use Rattle.std.specs.Prelude.{List, ◌≡◌, ◌+◌, ◌/◌, ◌<◌, ◌≤◌, None, Some, [], length, map, reverse, IfErr, IfOk, IsOkUnless, vec_capacity};
ghost use Rattle.bench_types.specs.declared.faults.Fault.TheVariants.{OutOfMemory};
ghost use Rattle.model.specs.calls.RoundLists.{IsRoundPlan};
ghost use Rattle.dependencies.specs.Sharing.{exchange_at};
ghost use Rattle.dependencies.specs.inner.Slots.{in_place};
ghost use Rattle.std.specs.Mem.Slots.{slots_items, slots_len, IsFull};
ghost use Rattle.bench_types.specs.declared.faults.Fault.TheVariants.{Unfinished};
ghost use Rattle.model.specs.calls.Tables.{IsCluster};
ghost use Rattle.board.specs.SeatView.{IsWhole, first_seat, split_left, split_right, joined};
ghost use Rattle.board.specs.Keys.{IsBoardKey};
ghost use Rattle.board.specs.Seats.{IsApart, IsInformed};
ghost use Rattle.board.specs.inner.Plays.{first_words_of};
ghost use Rattle.board.specs.inner.InSlots.{AreInSlots};

use crate::plays::{
    BoardKey, Both, Empty, Finish, Halt, Look, Order, Part, Release, Retake, Show, Take,
};
use crate::views::View;
use atomic_table::{Closed, Refused, Table};
use bench_types::{Exchange, Fault, Rules};
use dependencies::Deps;
use model::MemoryTable;
use std::alloc::Global;
use std::snapshot::Snapshot;

type Raw<T> = atomic_table::Seat<Option<T>, View>;

// The word of an exchange: how many predecessors haven't released it, or `TAKEN`.
const READY: u64 = 0;

const TAKEN: u64 = 3;

// The count word counts by twos, and is odd where a stop was called.
const ONE_FINISHED: u64 = 2;

const STOP: u64 = 1;

/// What one thread uses a board with. It has no bytes.
#[derive(Drop)]
pub struct Seat<T> {
    raw: Raw<T>,
}

/// A claimed exchange, and the tables of its two nodes, taken out of the board.
#[derive(Drop)]
pub struct Hold<T> {
    pub index: u32,
    pub initiator: T,
    pub responder: T,
}

/// What came of a claim.
#[derive(Drop)]
pub enum Claim<T> {
    Held(Hold<T>),
    /// The exchange was claimed before.
    Taken,
    /// An exchange that it waits for isn't put back yet.
    NotReady,
}

/// The exchanges that a `put_back` made ready: the next of the initiator, and that of the responder
/// where it is another one.
#[derive(Clone, Copy, Debug, PartialEq, Eq)]
pub struct Freed {
    pub first: Option<u32>,
    pub second: Option<u32>,
}

/// How many exchanges are put back, and whether some seat has called for a stop.
#[derive(Clone, Copy, Debug, PartialEq, Eq)]
pub struct Progress {
    pub finished: u32,
    pub stopped: bool,
}

/// The tables of all nodes, which threads take out two at a time and put back.
pub struct Board<T: MemoryTable> {
    table: Table<Option<T>, View, BoardKey<T>, Order<T>, Global>,
    deps: Deps,
    // Room for all tables, for `close`.
    room: Vec<T>,
    ghost planned: { IsBoardKey table.shared.key × (deps ≡ table.shared.key.list.value) },
    ghost words: { table.shared.table_id.words ≡ length deps.exchanges + 1 },
    ghost slots: { table.shared.table_id.slots ≡ deps.nodes },
    ghost roomy: { (room.items ≡ []) × (deps.nodes ≤ vec_capacity room) },
}

// Written out: a derived drop is proved once more in each crate that lets a board go.
impl<T: MemoryTable> Drop for Board<T> {
    fn drop(self) {
        let Board {
            table: _,
            deps: _,
            room: _,
        } = self;
    }
}

impl<T: MemoryTable> Board<T> {
    ghost use Rattle.board.specs.Boards.{IsMadeOf, plan_of, exchanges_of, seat_view, IsSeatOf, Claims, MayPutBack, IsPutBack, Looks, HasStopped, AreLeft, IsUnfinished, HasMadeAll};
    ghost use Rattle.board.specs.inner.Raws.{HasClaimed, HasTakenOut, MayPutIn, HasPutIn, OwesRelease, HasReleased};

    /// A board of a list's exchanges and the tables of its nodes, in order, and the first seat, which has
    /// all parts. An error is lack of memory (`OutOfMemory`), and the tables are then given up. Costs a step
    /// for each exchange and each node.
    pub fn new(
        alloc: Global,
        deps: Deps,
        rules: Rules,
        tables: Vec<T>,
    ) -> Result<(Board<T>, Seat<T>), Fault>
        requires cluster { IsCluster deps.nodes (map T.table tables.items) }
        ensures plan { IfOk result (λ made. IsMadeOf T.table rules deps tables.items made.0) }
        ensures seat { IfOk result (λ made. IsSeatOf T.table made.1 made.0 × (seat_view made.1 ≡ first_seat)) }
        ensures only { IsOkUnless result OutOfMemory }
    {
        let key = BoardKey {
            rules,
            list: Snapshot::of(&deps),
            tables: Snapshot::of(&tables),
        };
        let words = first_words(alloc, &deps)?;
        let (slots, room) = into_slots(alloc, tables)?;
        match Table::new(alloc, &words, slots, &key) {
            Ok((table, raw)) => Ok((Board { table, deps, room }, Seat { raw })),
            Err(Refused { slots: _ }) => Err(Fault::OutOfMemory),
        }
    }

    /// How many exchanges the list has.
    pub fn len(&self) -> u32
        ensures { result ≡ length (exchanges_of self.now) }
    {
        self.deps.len()
    }

    /// The exchange at a place of the list, from 0.
    pub fn exchange(&self, i: u32) -> Exchange
        requires within { i < length (exchanges_of self.now) }
        ensures value { result ≡ exchange_at (exchanges_of self.now) i }
        ensures kept { IsRoundPlan (plan_of T.table self.now).list }
    {
        self.deps.exchange(i)
    }

    /// Claims an exchange of the list. Costs a compare-and-exchange, and where it is held two moves of
    /// a table's head and a load.
    pub fn claim(&self, seat: &mut Seat<T>, i: u32) -> Claim<T>
        requires within { i < length (exchanges_of self.now) }
        requires seat { IsSeatOf T.table seat.old self.now }
        ensures seat { IsSeatOf T.table seat.new self.now }
        ensures claim { Claims T.table (plan_of T.table self.now) (seat_view seat.old) i result (seat_view seat.new) }
    {
        let word = i as usize + 1;
        let found = self
            .table
            .shared
            .compare_exchange::<Take>(&mut seat.raw, word, READY, TAKEN);
        if found == READY {
            Claim::Held(self.take_out(&mut seat.raw, i))
        } else if found == TAKEN {
            Claim::Taken
        } else {
            Claim::NotReady
        }
    }

    fn take_out(&self, raw: &mut Raw<T>, i: u32) -> Hold<T>
        requires { HasClaimed T.table self.now i raw.old }
        ensures { HasTakenOut T.table self.now i raw.old result raw.new }
    {
        let exchange = self.deps.exchange(i);
        let shared = &self.table.shared;
        let responder = shared.exchange(raw, exchange.responder as usize, None);
        raw.turn();
        let initiator = shared.exchange(raw, exchange.initiator as usize, None);
        shared.load::<Empty>(raw, 0);
        let (Some(initiator), Some(responder)) = (initiator, responder) else {
            unreachable!()
        };
        Hold {
            index: i,
            initiator,
            responder,
        }
    }

    /// Puts back the tables that a claimed exchange leaves, and releases the exchanges that wait for it.
    /// Names those that this made ready. Costs an addition and at most two subtractions, beside a load
    /// and two moves of a table's head.
    pub fn put_back(&self, seat: &mut Seat<T>, hold: Hold<T>) -> Freed
        requires seat { IsSeatOf T.table seat.old self.now }
        requires hold { MayPutBack T.table (plan_of T.table self.now) (seat_view seat.old) hold }
        ensures seat { IsSeatOf T.table seat.new self.now }
        ensures put_back { let plan = plan_of T.table self.now in
            IsPutBack plan (seat_view seat.old) hold.index result (seat_view seat.new) }
    {
        let i = hold.index;
        self.put_in(&mut seat.raw, hold);
        let after = self.deps.after(i);
        let first = self.release(&mut seat.raw, after.first);
        let second = self.release(&mut seat.raw, after.second);
        Freed { first, second }
    }

    fn put_in(&self, raw: &mut Raw<T>, hold: Hold<T>)
        requires { MayPutIn T.table self.now raw.old hold }
        ensures { HasPutIn T.table self.now raw.old hold.index raw.new }
    {
        let Hold {
            index,
            initiator,
            responder,
        } = hold;
        let exchange = self.deps.exchange(index);
        let shared = &self.table.shared;
        shared.load::<Retake>(raw, index as usize + 1);
        shared.exchange(raw, exchange.responder as usize, Some(responder));
        raw.turn();
        shared.exchange(raw, exchange.initiator as usize, Some(initiator));
        shared.fetch_add::<Finish>(raw, 0, ONE_FINISHED);
    }

    // Releases an exchange, if there is one. Names it where this made it ready.
    fn release(&self, raw: &mut Raw<T>, next: Option<u32>) -> Option<u32>
        requires { OwesRelease T.table self.now raw.old next }
        ensures { HasReleased T.table self.now raw.old next result raw.new }
    {
        let j = next?;
        let found = self
            .table
            .shared
            .fetch_sub::<Release>(raw, j as usize + 1, 1);
        if found == 1 { Some(j) } else { None }
    }

    /// How many exchanges are put back, and whether a stop was called. Costs a load.
    pub fn look(&self, seat: &mut Seat<T>) -> Progress
        requires seat { IsSeatOf T.table seat.old self.now }
        ensures seat { IsSeatOf T.table seat.new self.now }
        ensures progress { Looks (plan_of T.table self.now) (seat_view seat.old) result (seat_view seat.new) }
        ensures informed { IsInformed (exchanges_of self.now) (seat_view seat.new) }
    {
        let word = self.table.shared.load::<Look>(&mut seat.raw, 0);
        Progress {
            finished: (word / 2) as u32,
            stopped: word % 2 == 1,
        }
    }

    /// Calls for a stop, which all later looks answer. Costs one atomic step.
    pub fn stop(&self, seat: &mut Seat<T>)
        requires seat { IsSeatOf T.table seat.old self.now }
        ensures seat { IsSeatOf T.table seat.new self.now }
        ensures stopped { HasStopped (seat_view seat.old) (seat_view seat.new) }
    {
        self.table.shared.fetch_or::<Halt>(&mut seat.raw, 0, STOP);
    }

    /// A second seat, for another thread. Costs a load.
    pub fn split(&self, seat: &mut Seat<T>) -> Seat<T>
        requires seat { IsSeatOf T.table seat.old self.now }
        requires parts { 2 ≤ (seat_view seat.old).parts }
        ensures seats { IsSeatOf T.table seat.new self.now × IsSeatOf T.table result self.now }
        ensures left { seat_view seat.new ≡ split_left (seat_view seat.old) }
        ensures right { seat_view result ≡ split_right (seat_view seat.old) }
    {
        Seat {
            raw: self.table.shared.split_seat::<Part>(&mut seat.raw),
        }
    }

    /// Takes in another seat. Costs two loads.
    pub fn join(&self, seat: &mut Seat<T>, other: Seat<T>)
        requires seats { IsSeatOf T.table seat.old self.now × IsSeatOf T.table other self.now }
        ensures seat { IsSeatOf T.table seat.new self.now }
        ensures joined { seat_view seat.new ≡ joined (seat_view seat.old) (seat_view other) }
        ensures apart { IsApart (exchanges_of self.now) (seat_view seat.new) }
        ensures informed { IsInformed (exchanges_of self.now) (seat_view seat.new) }
    {
        self.table
            .shared
            .join_seat::<Both>(&mut seat.raw, other.raw);
        self.table.shared.load::<Show>(&mut seat.raw, 0);
    }

    /// The tables of all nodes, in order, where all exchanges are put back. Else they are given up
    /// (`Unfinished`). Takes no memory. Costs a step for each node.
    pub fn close(self, seat: Seat<T>) -> Result<Vec<T>, Fault>
        requires seat { IsSeatOf T.table seat self }
        ensures tables { IfOk result (λ tables. AreLeft T.table (plan_of T.table self) tables.items) }
        ensures unfinished { IfErr result (IsUnfinished (plan_of T.table self) (seat_view seat)) }
        ensures whole { IfOk result
            (λ _. IsWhole (seat_view seat) → HasMadeAll (plan_of T.table self) (seat_view seat)) }
    {
        let Board { table, deps, room } = self;
        let closed = table.close_with(seat.raw);
        let finished = closed.word(0) / 2;
        let tables = all_out(closed, room);
        if finished < u64::from(deps.len()) {
            return Err(Fault::Unfinished);
        }
        Ok(tables)
    }
}

// The count word, and the word of each exchange.
fn first_words(alloc: Global, deps: &Deps) -> Result<Vec<u64>, Fault>
    ensures kept { IsRoundPlan deps.now }
    ensures words { IfOk result (λ ws. ws.items ≡ first_words_of deps.now.exchanges) }
    ensures only { IsOkUnless result OutOfMemory }
{
    let mut words = Vec::with_capacity(alloc, deps.len() as usize + 1)?;
    words.push_reserved(0);
    for i in 0..deps.len() {
        words.push_reserved(u64::from(deps.pending(i)));
    }
    Ok(words)
}

fn into_slots<T: Drop>(alloc: Global, mut tables: Vec<T>) -> Result<(Vec<Option<T>>, Vec<T>), Fault>
    ensures moved { IfOk result (λ p. AreInSlots tables.items p.0.items p.1) }
    ensures only { IsOkUnless result OutOfMemory }
{
    let mut slots = Vec::with_capacity(alloc, tables.len())?;
    for _ in 0..tables.len() {
        if let Some(table) = tables.pop() {
            slots.push_reserved(Some(table));
        }
    }
    slots.reverse();
    Ok((slots, tables))
}

fn all_out<T: Drop>(mut closed: Closed<Option<T>, Global>, mut room: Vec<T>) -> Vec<T>
    requires room { IsFull closed.slots × (room.items ≡ []) × (slots_len closed.slots ≤ vec_capacity room) }
    ensures { (kept : List T) → slots_items closed.slots ≡ map in_place kept → result.items ≡ kept }
{
    for i in 0..closed.slot_count() {
        if let Some(table) = closed.take(i) {
            room.push_reserved(table);
        }
    }
    closed.free();
    room
}
