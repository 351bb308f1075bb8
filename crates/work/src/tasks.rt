//! Where a worker finds exchanges to try.

ghost use Rattle.std.specs.Prelude.{◌≡◌, ◌<◌, ◌≤◌, [], ◌∷◌, ◌++◌, ⊤, IfOk, IfSome, IsOkUnless, OnOk, length, map, vec_len};
ghost use Rattle.bench_types.specs.declared.faults.Fault.TheVariants.{OutOfMemory};
ghost use Rattle.crossbeam_deque.specs.Handles.{IsPassOf, stealer_deque, worker_flavor};
ghost use Rattle.dependencies.specs.Neighbours.{as_list};
ghost use Rattle.work.specs.inner.Deques.{IsPushed, IsTaken, no_pushes};

use crate::push_logs::PushLog;
use bench_types::Fault;
use crossbeam_deque::protocol::{Outcome, Protocol};
use crossbeam_deque::{Pass, Stealer, Worker};
use std::alloc::Global;

// The rule of a deque, which asks nothing of the indices in it: a deque may outlive a list. And what a pop and a steal
// tell.
pub struct Logged;

impl Protocol<u32, PushLog> for Logged {
    ghost holds = { λ _ _. ⊤ };

    ghost first = { no_pushes };

    ghost guest = { no_pushes };
}

impl Outcome<u32, PushLog> for Logged {
    ghost then = { IsTaken };
}

// What a push tells.
struct Push;

impl Outcome<u32, PushLog> for Push {
    ghost then = { IsPushed };
}

// The way to another worker's deque.
#[derive(Drop)]
struct Way {
    from: Stealer<u32, Global, PushLog, Logged>,
    pass: Pass<u32, PushLog>,
    ghost fits: { IsPassOf (stealer_deque from) pass },
}

/// Where a worker finds exchanges to try: its own deque, and those of the others.
pub struct Tasks {
    own: Worker<u32, Global, PushLog, Logged>,
    // What it has just made ready, if anything, which lies in its deque too: the tables are still in its core's caches.
    at_hand: Option<u32>,
    // In the order in which it steals from them.
    others: Vec<Way>,
    ghost in_order: { worker_flavor own ≡ 0 },
}

// Written out: a derived drop is proved once more in each crate that lets one go.
impl Drop for Tasks {
    fn drop(self) {
        let Tasks {
            own: _,
            at_hand: _,
            others: _,
        } = self;
    }
}

impl Way {
    // The oldest index of the deque. `None` where there is none, or where another thread took it first.
    fn steal(&mut self) -> Option<u32> {
        self.from.steal_as::<Logged>(&mut self.pass).success()
    }
}

impl Tasks {
    ghost use Rattle.work.specs.Pushes.{AreDealt, pushed};

    // An empty deque with room for so many indices, before it grows, and no way to any other.
    fn new(alloc: Global, room: usize) -> Result<Tasks, Fault>
        ensures only { IsOkUnless result OutOfMemory }
    {
        let own = Worker::fifo_as(alloc, room)?;
        Ok(Tasks {
            own,
            at_hand: None,
            others: Vec::new(alloc),
        })
    }

    // A way to its own deque, for another worker.
    fn way(&self) -> Result<Way, Fault>
        ensures only { IsOkUnless result OutOfMemory }
    {
        let from = self.own.stealer()?;
        let pass = from.pass();
        Ok(Way { from, pass })
    }

    fn push(&mut self, i: u32) -> Result<(), Fault>
        ensures pushed { OnOk result (pushed self.new ≡ pushed self.old ++ i ∷ []) }
        ensures only { IsOkUnless result OutOfMemory }
    {
        self.own.push_as::<Push>(i).ok().ok_or(Fault::OutOfMemory)
    }

    /// Puts an exchange that was made ready on its own deque, if there is one. An error is lack of memory.
    pub fn push_freed(&mut self, freed: Option<u32>) -> Result<(), Fault>
        ensures pushed { OnOk result (pushed self.new ≡ pushed self.old ++ as_list freed) }
        ensures only { IsOkUnless result OutOfMemory }
    {
        match freed {
            Some(i) => {
                self.at_hand = freed;
                self.push(i)
            }
            None => Ok(()),
        }
    }

    /// What it made ready last, if it hasn't tried that yet, or else the oldest index of its own deque, or else of the
    /// first other one that yields any. `None` says that none below the limit was found, and not that all deques were
    /// empty at one moment.
    pub fn next(&mut self, limit: u32) -> Option<u32>
        ensures within { IfSome result (λ i. i < limit) }
        ensures kept { pushed self.new ≡ pushed self.old }
    {
        let i = self.take()?;
        if i < limit { Some(i) } else { None }
    }

    fn take(&mut self) -> Option<u32>
        ensures kept { pushed self.new ≡ pushed self.old }
    {
        if let Some(i) = self.at_hand.take() {
            return Some(i);
        }
        if let Some(i) = self.own.pop_as::<Logged>() {
            return Some(i);
        }
        for way in self.others.iter_mut() {
            if let Some(i) = way.steal() {
                return Some(i);
            }
        }
        None
    }

    /// The deques of so many workers. The index at place j of those that are ready goes to worker j modulo
    /// their number. A worker w steals from w + 1, w + 2 and so on, modulo their number. An error is lack of
    /// memory.
    pub fn deal(alloc: Global, workers: u32, ready: &[u32]) -> Result<Vec<Tasks>, Fault>
        requires some { 1 ≤ workers }
        ensures dealt { IfOk result (λ tasks. (vec_len tasks ≡ workers)
            × AreDealt ready.now (map pushed tasks.items) (length ready.now)) }
        ensures only { IsOkUnless result OutOfMemory }
    {
        let count = workers as usize;
        let mut tasks = Vec::with_capacity(alloc, count)?;
        for _ in 0..count {
            tasks.push(Tasks::new(alloc, ready.len() / count + 1)?)?;
        }
        for worker in 0..count {
            for step in 1..count {
                let way = tasks[(worker + step) % count].way()?;
                tasks[worker].others.push(way)?;
            }
        }
        for (place, i) in ready.iter().enumerate() {
            tasks[place % count].push(*i)?;
        }
        Ok(tasks)
    }
}
