//! How many processors there are.

use std::num::NonZeroUsize;
use std::thread::{Threads, available_parallelism};

/// The processors that the system tells of, or one where it doesn't. To ask takes longer than a small round.
pub fn processors_of(rt: &impl Threads) -> NonZeroUsize {
    available_parallelism(rt).unwrap_or(NonZeroUsize::MIN)
}
