//! Gates that see whether exchanges run at once, and what a gate is told.

use pool::Gate;
use std::alloc::AllocGlobal;
use std::hint::spin_loop;
use std::process::Abort;
use std::sync::atomic::{AtomicBool, AtomicU64, Ordering};
use std::sync::{Mutex, Wait};

/// How often a gate turns at most while it waits for a call.
const TURNS: u32 = 100_000_000;

/// Exchanges 0 and 1 wait for each other before they begin.
#[derive(Drop)]
pub(crate) struct Meeting {
    first: AtomicBool,
    second: AtomicBool,
    is_missed: AtomicBool,
}

impl Meeting {
    pub(crate) fn new() -> Meeting {
        Meeting {
            first: AtomicBool::new(false),
            second: AtomicBool::new(false),
            is_missed: AtomicBool::new(false),
        }
    }

    /// Both were called, and neither waited in vain.
    pub(crate) fn has_met(&self) -> bool {
        is_set(&self.first) && is_set(&self.second) && !is_set(&self.is_missed)
    }
}

impl Gate for Meeting {
    fn enter(&self, i: u32) {
        if i == 0 {
            meet(&self.first, &self.second, &self.is_missed);
        } else if i == 1 {
            meet(&self.second, &self.first, &self.is_missed);
        }
    }

    fn leave(&self, _i: u32) {}
}

/// Exchange 0 waits until 2 is done, which may not begin before 3.
#[derive(Drop)]
pub(crate) struct Theft {
    third_done: AtomicBool,
    fourth_begun: AtomicBool,
    is_missed: AtomicBool,
    is_early: AtomicBool,
}

impl Theft {
    pub(crate) fn new() -> Theft {
        Theft {
            third_done: AtomicBool::new(false),
            fourth_begun: AtomicBool::new(false),
            is_missed: AtomicBool::new(false),
            is_early: AtomicBool::new(false),
        }
    }

    /// Exchange 2 was done behind 3, while 0 waited.
    pub(crate) fn has_happened(&self) -> bool {
        is_set(&self.third_done) && !is_set(&self.is_missed) && !is_set(&self.is_early)
    }
}

impl Gate for Theft {
    fn enter(&self, i: u32) {
        if i == 0 {
            wait_for(&self.third_done, &self.is_missed);
        }
        if i == 2 && !is_set(&self.fourth_begun) {
            set(&self.is_early);
        }
        if i == 3 {
            set(&self.fourth_begun);
        }
    }

    fn leave(&self, i: u32) {
        if i == 2 {
            set(&self.third_done);
        }
    }
}

/// Exchange 1 begins once 0 is being left, which lasts until 2 has begun.
#[derive(Drop)]
pub(crate) struct Handover {
    first_left: AtomicBool,
    third_begun: AtomicBool,
    is_missed: AtomicBool,
}

impl Handover {
    pub(crate) fn new() -> Handover {
        Handover {
            first_left: AtomicBool::new(false),
            third_begun: AtomicBool::new(false),
            is_missed: AtomicBool::new(false),
        }
    }

    /// Exchange 2 has begun while 0 was being left, and nothing was waited for in vain.
    pub(crate) fn has_happened(&self) -> bool {
        is_set(&self.third_begun) && !is_set(&self.is_missed)
    }
}

impl Gate for Handover {
    fn enter(&self, i: u32) {
        if i == 1 {
            wait_for(&self.first_left, &self.is_missed);
        }
        if i == 2 {
            set(&self.third_begun);
        }
    }

    fn leave(&self, i: u32) {
        if i == 0 {
            meet(&self.first_left, &self.third_begun, &self.is_missed);
        }
    }
}

/// Each exchange waits until so many have begun, itself among them.
#[derive(Drop)]
pub(crate) struct Gathering {
    wanted: u64,
    begun: AtomicU64,
    is_missed: AtomicBool,
}

impl Gathering {
    pub(crate) fn of(wanted: u64) -> Gathering {
        Gathering {
            wanted,
            begun: AtomicU64::new(0),
            is_missed: AtomicBool::new(false),
        }
    }

    /// So many were under way at once.
    pub(crate) fn has_gathered(&self) -> bool {
        self.is_complete() && !is_set(&self.is_missed)
    }

    fn is_complete(&self) -> bool {
        self.begun.load(Ordering::SeqCst) >= self.wanted
    }

    // Turns until so many have begun, so often at most.
    fn waits(&self) -> bool {
        for _ in 0..TURNS {
            if self.is_complete() {
                return true;
            }
            spin_loop();
        }
        false
    }
}

impl Gate for Gathering {
    fn enter(&self, _i: u32) {
        self.begun.fetch_add(1, Ordering::SeqCst);
        if !self.waits() {
            set(&self.is_missed);
        }
    }

    fn leave(&self, _i: u32) {}
}

/// A call of a gate, with the place of the exchange.
#[derive(Clone, Copy, Debug, PartialEq)]
pub(crate) enum Call {
    Enter(u32),
    Leave(u32),
}

impl Call {
    pub(crate) fn place(self) -> u32 {
        match self {
            Call::Enter(i) | Call::Leave(i) => i,
        }
    }
}

/// Notes each call, in the order in which they come.
#[derive(Drop)]
pub(crate) struct Notes<'a, R: Wait + Abort> {
    rt: &'a R,
    calls: Mutex<Vec<Call>>,
}

impl<'a, R: Wait + Abort + AllocGlobal> Notes<'a, R> {
    pub(crate) fn new(rt: &'a R) -> Notes<'a, R> {
        Notes {
            rt,
            calls: Mutex::new(Vec::new(rt.alloc())),
        }
    }
}

impl<R: Wait + Abort> Notes<'_, R> {
    pub(crate) fn into_calls(self) -> Vec<Call> {
        let Notes { rt: _, calls } = self;
        calls.into_inner()
    }

    fn note(&self, call: Call) {
        let noted = self.calls.lock(self.rt).push(call);
        noted.expect(self.rt, "memory");
    }
}

impl<R: Wait + Abort> Gate for Notes<'_, R> {
    fn enter(&self, i: u32) {
        self.note(Call::Enter(i));
    }

    fn leave(&self, i: u32) {
        self.note(Call::Leave(i));
    }
}

fn meet(mine: &AtomicBool, other: &AtomicBool, is_missed: &AtomicBool) {
    set(mine);
    wait_for(other, is_missed);
}

fn wait_for(flag: &AtomicBool, is_missed: &AtomicBool) {
    if !comes(flag) {
        set(is_missed);
    }
}

fn set(flag: &AtomicBool) {
    flag.store(true, Ordering::SeqCst);
}

fn is_set(flag: &AtomicBool) -> bool {
    flag.load(Ordering::SeqCst)
}

// Turns until the flag is set, so often at most.
fn comes(flag: &AtomicBool) -> bool {
    for _ in 0..TURNS {
        if is_set(flag) {
            return true;
        }
        spin_loop();
    }
    false
}
