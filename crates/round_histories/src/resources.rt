//! What a round is carried out with.

ghost use Rattle.model.specs.Runs.{AreWorkers};

use std::alloc::Global;
use std::num::NonZeroUsize;

/// The workers that carry out the exchanges of a round, and the processors that there are for its figures.
#[derive(Clone, Copy)]
pub struct Hands {
    pub workers: u32,
    pub processors: NonZeroUsize,
}

/// Threads, memory, and who there is to do the work of a round.
#[derive(Drop)]
pub struct Resources<'a, R> {
    pub rt: &'a R,
    pub alloc: Global,
    pub hands: Hands,
    pub ghost lawful: { AreWorkers hands.workers },
}
