//! A gate that counts.

use pool::Gate;
use std::sync::atomic::{AtomicU32, Ordering};

/// Counts how often it was entered and left.
#[derive(Drop)]
pub(crate) struct Counter {
    entered: AtomicU32,
    left: AtomicU32,
}

/// How often a gate was entered and left.
#[derive(Clone, Copy, Debug, PartialEq, Eq)]
pub(crate) struct Counts {
    pub(crate) entered: u32,
    pub(crate) left: u32,
}

impl Counter {
    pub(crate) fn new() -> Counter {
        Counter {
            entered: AtomicU32::new(0),
            left: AtomicU32::new(0),
        }
    }

    pub(crate) fn counts(&self) -> Counts {
        Counts {
            entered: self.entered.load(Ordering::SeqCst),
            left: self.left.load(Ordering::SeqCst),
        }
    }
}

impl Counts {
    /// Whether each of so many exchanges was carried out.
    pub(crate) fn are_whole(self, exchanges: usize) -> bool {
        self.entered as usize == exchanges && self.left as usize == exchanges
    }

    /// Whether no exchange but the one that met lack of memory was entered and not left. One worker ends with
    /// that one, if it has entered any.
    pub(crate) fn are_broken_off(self, workers: u32) -> bool {
        let missing = self.entered.saturating_sub(self.left);
        missing == 1 || missing == 0 && (workers > 1 || self.entered == 0)
    }
}

impl Gate for Counter {
    fn enter(&self, _i: u32) {
        self.entered.fetch_add(1, Ordering::SeqCst);
    }

    fn leave(&self, _i: u32) {
        self.left.fetch_add(1, Ordering::SeqCst);
    }
}
