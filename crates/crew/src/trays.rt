//! Places in which threads leave values for others. A label, fixed when they are made, says what each may hold.
ghost use Rattle.std.specs.Prelude.{◌≡◌, ℕ, ◌<◌, IfOk, IfSome};
ghost use Rattle.crew.specs.Trays.{AreTraysKept, IsTrayOpened};

use atomic_table::{Play, Table, TableRule};
use std::alloc::{AllocError, Global};
use std::marker::PhantomData;
use std::snapshot::Snapshot;
use std::sync::Wait;
use std::thread;

/// What each tray may hold, by its number. A value of the type holds the fact's inputs.
pub trait Label<X> {
    ghost keeps: { Self → ℕ → X → Type 0 };
}

// Nobody has the tray open.
const FREE: u64 = 0;

const OPEN: u64 = 1;

// The rule of the trays. The view of every seat is the key, since a play can't read that.
pub struct Keeping<P>(PhantomData<P>);

impl<X, P: Label<X>> TableRule<Option<X>, Snapshot<P>, Snapshot<P>> for Keeping<P> {
    ghost holds = { λ key. AreTraysKept (P.keeps key.value) };

    ghost first = { λ key. key };
}

// A tray is opened, where it was free.
struct Open<P>(PhantomData<P>);

impl<X, P: Label<X>> Play<Option<X>, Snapshot<P>> for Open<P> {
    ghost then = { λ step before found after. found ≡ 0
        → IsTrayOpened (P.keeps before.0.value step.word) step.word after };
}

// And closed.
struct Shut;

impl<S, V> Play<S, V> for Shut {
    ghost then = { λ step before found after. Unit {0} };
}

/// So many trays. A thread leaves a value in one, and another takes it out.
pub struct Trays<X, P: Label<X>> {
    table: Table<Option<X>, Snapshot<P>, Snapshot<P>, Keeping<P>, Global>,
    ghost even: { table.shared.table_id.words ≡ table.shared.table_id.slots },
}

// Written out: a derived drop is proved once more in each crate that lets trays go.
impl<X: Drop, P: Label<X>> Drop for Trays<X, P> {
    fn drop(self) {
        let Trays { table: _ } = self;
    }
}

impl<X: Drop, P: Label<X>> Trays<X, P> {
    ghost use Rattle.crew.specs.Named.{tray_count, label_of};

    /// So many empty trays under this label. An error is lack of memory.
    pub fn new(alloc: Global, count: usize, label: &P) -> Result<Trays<X, P>, AllocError>
        ensures count { IfOk result (λ trays. tray_count trays ≡ count) }
        ensures label { IfOk result (λ trays. label_of trays ≡ label.now) }
    {
        let words = vec![in alloc; FREE; count]?;
        let key = Snapshot::of(label);
        let (table, _seat) = Table::vacant(alloc, &words, count, &key)?;
        Ok(Trays { table })
    }

    /// Leaves a value in a tray. What lay there is dropped.
    pub fn leave<R: Wait>(&self, rt: &R, i: usize, value: X)
        requires within { i < tray_count self.now }
        requires kept { P.keeps (label_of self.now) i value }
    {
        let _before = self.turn(rt, i, Some(value));
    }

    /// Takes out what lies in a tray, if anything does.
    pub fn take<R: Wait>(&self, rt: &R, i: usize) -> Option<X>
        requires within { i < tray_count self.now }
        ensures kept { IfSome result (P.keeps (label_of self.now) i) }
    {
        self.turn(rt, i, None)
    }

    /// Takes out what lies in a tray, and waits for it.
    pub fn wait_for<R: Wait>(&self, rt: &R, i: usize) -> X
        requires within { i < tray_count self.now }
        ensures kept { P.keeps (label_of self.now) i result }
    {
        for _ in rt.forever() {
            if let Some(value) = self.take(rt, i) {
                return value;
            }
            thread::yield_now();
        }
        unreachable!()
    }

    // Opens a tray, puts this in and takes out what lay there.
    fn turn<R: Wait>(&self, rt: &R, i: usize, value: Option<X>) -> Option<X>
        requires within { i < tray_count self.now }
        requires kept { IfSome value (P.keeps (label_of self.now) i) }
        ensures kept { IfSome result (P.keeps (label_of self.now) i) }
    {
        let shared = &self.table.shared;
        for _ in rt.forever() {
            let (found, mut seat) = shared.swap_new_seat::<Open<P>>(i, OPEN);
            if found == FREE {
                let before = shared.exchange(&mut seat, i, value);
                shared.store::<Shut>(&mut seat, i, FREE);
                return before;
            }
            thread::yield_now();
        }
        unreachable!()
    }
}
