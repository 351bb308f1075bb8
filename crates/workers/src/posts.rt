//! Threads of workers that carry out one list after another.

ghost use Rattle.std.specs.Prelude.{◌≡◌, ◌<◌, ◌≤◌, map, vec_len, IfOk, IfErr, IsOkUnless, MatchResult};
ghost use Rattle.bench_types.specs.declared.faults.Fault.TheVariants.{OutOfMemory};
ghost use Rattle.model.specs.Runs.{AreWorkers};
ghost use Rattle.work.specs.Carrying.{MayCarryOut, IsBatchDone};
ghost use Rattle.crew.specs.Named.{post_count};
ghost use Rattle.workers.specs.inner.Outcomes.{ComesTo};
ghost use Rattle.workers.specs.inner.Works.{MayShareOut};

use crate::shifts::{close, open};
use crate::tasks::Task;
use bench_types::Fault;
use crew::{Crew, Job, Yard};
use model::{Exchanging, MemoryTable};
use std::alloc::Global;
use std::marker::Model;
use std::num::NonZeroUsize;
use std::sync::Wait;
use std::thread;
use std::thread::{Scope, Threads, available_parallelism};
use work::{Batch, Done, Gate, Work, exchange_all};

// So many looks take some 20 to 100 microseconds, about as long as it takes to wake a thread.
const LOOKS: u64 = 2000;

// What a thread is given to do.
#[derive(Drop)]
enum Duty<T: MemoryTable, X: Exchanging<T>, G, J> {
    List(Task<T, X, G>),
    Job(J),
}

impl<T: MemoryTable, X: Exchanging<T> + Drop, G: Gate + Drop, J: Job> Duty<T, X, G, J> {
    fn carry_out<R: Wait>(self, rt: &R) {
        match self {
            Duty::List(task) => task.carry_out(rt),
            Duty::Job(job) => job.carry_out(rt),
        }
    }
}

/// Where workers are given lists to carry out, or jobs of another kind. Each has a thread of its own, but that the
/// caller's thread may be one.
pub struct Posts<T: MemoryTable, X: Exchanging<T>, G, J> {
    alloc: Global,
    yard: Yard<Duty<T, X, G, J>>,
    workers: u32,
    threads: u32,
}

// Written out: a derived drop is proved once more in each crate that lets posts go.
impl<T: MemoryTable, X: Exchanging<T> + Drop, G: Drop, J: Drop> Drop for Posts<T, X, G, J> {
    fn drop(self) {
        let Posts {
            alloc: _,
            yard: _,
            workers: _,
            threads: _,
        } = self;
    }
}

// Callers see how many workers there are.
impl<T: MemoryTable, X: Exchanging<T>, G, J> Model for Posts<T, X, G, J> {
    ghost use Rattle.std.specs.Prelude.{◌≡◌, ℕ};
    ghost use Rattle.crew.specs.Named.{post_count};
    ghost use Rattle.model.specs.Runs.{AreWorkers};

    ghost Value = { ℕ };

    ghost view = { λ p. p.workers };

    ghost invariant = { λ p. AreWorkers p.workers × (post_count p.yard ≡ p.threads) };
}

impl<T: MemoryTable, X: Exchanging<T> + Drop, G: Gate + Drop, J: Job> Posts<T, X, G, J> {
    /// Posts for so many workers, of which the caller's thread is one. No thread is started yet.
    pub fn new(alloc: Global, workers: u32) -> Result<Posts<T, X, G, J>, Fault>
        requires workers { AreWorkers workers }
        ensures workers { IfOk result (λ posts. posts ≡ workers) }
        ensures only { IsOkUnless result OutOfMemory }
    {
        Posts::with(alloc, workers, workers - 1)
    }

    /// Posts for so many workers, each of which has a thread of its own if there are several. No thread is started yet.
    pub fn apart(alloc: Global, workers: u32) -> Result<Posts<T, X, G, J>, Fault>
        requires workers { AreWorkers workers }
        ensures workers { IfOk result (λ posts. posts ≡ workers) }
        ensures only { IsOkUnless result OutOfMemory }
    {
        let threads = if workers == 1 { 0 } else { workers };
        Posts::with(alloc, workers, threads)
    }

    fn with(alloc: Global, workers: u32, threads: u32) -> Result<Posts<T, X, G, J>, Fault>
        requires { AreWorkers workers }
        ensures { ComesTo result (λ posts. posts ≡ workers) }
    {
        let yard = Yard::new(alloc, threads as usize)?;
        Ok(Posts {
            alloc,
            yard,
            workers,
            threads,
        })
    }

    /// How many workers there are.
    pub fn workers(&self) -> u32
        ensures value { result ≡ self.now }
        ensures lawful { AreWorkers result }
    {
        self.workers
    }

    /// Carries out the exchanges of a list by threads that were started before. It calls `meanwhile` once they have
    /// what they need, works on the list too if the caller's thread is one of the workers, and waits for the others
    /// then. With one worker it calls `meanwhile` first. An error is lack of memory
    /// (`OutOfMemory`): the tables, and what was shared, are then given up, and all threads wait for what comes next.
    ///
    /// With several workers it never ends outside `with_threads`, nor where another list is under way at these posts.
    pub fn carry_out<R: Wait, F: FnOnce() -> M + Drop, M: Drop>(
        &self,
        rt: &R,
        batch: Batch<X, G>,
        tables: Vec<T>,
        meanwhile: F,
    ) -> Result<Done<T, X, M>, Fault>
        requires tables { MayCarryOut (X.fits batch.shared) batch.rules.now batch.list.now.nodes
            (map T.table tables.items) }
        requires meanwhile { F.pre meanwhile }
        ensures done { IfOk result (IsBatchDone T.table batch.entry tables.items (F.post meanwhile)) }
        ensures only { IsOkUnless result OutOfMemory }
    {
        if self.workers == 1 {
            return carry_out_alone(self.alloc, batch, tables, meanwhile);
        }
        let opened = open(self.alloc, self.workers, batch, tables)?;
        let made = self.work_on(rt, opened.tasks, meanwhile);
        close(
            rt,
            opened.shift,
            opened.gathered,
            self.workers as usize,
            made,
        )
    }

    // The tasks by all workers. What is left for the caller comes after `meanwhile`.
    fn work_on<R: Wait, F: FnOnce() -> M + Drop, M: Drop>(
        &self,
        rt: &R,
        mut tasks: Vec<Task<T, X, G>>,
        meanwhile: F,
    ) -> M
        requires { F.pre meanwhile }
        ensures { F.post meanwhile result }
    {
        for i in 0..self.threads as usize {
            if let Some(task) = tasks.pop() {
                self.yard.give(rt, i, Duty::List(task));
            }
        }
        let made = meanwhile();
        for task in tasks {
            task.carry_out(rt);
        }
        self.yard.wait(rt);
        made
    }
}

/// The caller's thread does what the others have no post for. With several workers it never ends outside
/// `with_threads`, nor where a list or other jobs are under way at these posts.
impl<T: MemoryTable, X: Exchanging<T> + Drop, G: Gate + Drop, J: Job> Crew<J>
    for Posts<T, X, G, J> {
    fn carry_out_jobs<R: Wait>(&self, rt: &R, mut jobs: Vec<J>) {
        let own = jobs.pop();
        for i in 0..self.threads as usize {
            if let Some(job) = jobs.pop() {
                self.yard.give(rt, i, Duty::Job(job));
            }
        }
        if let Some(job) = own {
            job.carry_out(rt);
        }
        finish(rt, &self.yard, jobs);
    }
}

impl<
    T: MemoryTable + Send + Sync,
    X: Exchanging<T> + Send + Drop,
    G: Gate + Send + Sync + Drop,
    J: Job + Send,
> Posts<T, X, G, J> {
    /// Starts the threads, if there are several workers, calls `body` with what is lent and sends them home. Where one
    /// can't be started, what was lent comes back. It goes by value, since a scope says nothing of a `&mut` that its
    /// closure holds.
    pub fn with_threads<R: Threads + Wait + Sync, D: Drop, F: FnOnce(D) -> A + Drop, A>(
        &self,
        rt: &R,
        lent: D,
        body: F,
    ) -> Result<A, D>
        requires { F.pre body lent }
        ensures done { IfOk result (F.post body lent) }
        ensures back { IfErr result (λ left. left ≡ lent) }
        ensures several { IfErr result (λ _. 1 < self.now) }
    {
        if self.workers == 1 {
            return Ok(body(lent));
        }
        look_before_sleep(rt, &self.yard, self.workers);
        let yard = &self.yard;
        let threads = self.threads as usize;
        thread::scope(
            thread::scope_env(),
            rt,
            move |scope|
                requires { (threads ≤ post_count yard.now) × F.pre body lent }
                ensures { MatchResult result (F.post body lent) (λ left. left ≡ lent) }
            {
                if !start(scope, rt, yard, threads) {
                    return Err(lent);
                }
                let answer = body(lent);
                yard.send_home(rt, threads);
                Ok(answer)
            },
        )
    }
}

// The list in its order, by the caller's thread.
fn carry_out_alone<
    T: MemoryTable,
    X: Exchanging<T> + Drop,
    G: Gate + Drop,
    F: FnOnce() -> M + Drop,
    M: Drop,
>(
    alloc: Global,
    batch: Batch<X, G>,
    mut tables: Vec<T>,
    meanwhile: F,
) -> Result<Done<T, X, M>, Fault>
    requires tables { MayShareOut T.table X.fits batch tables.items }
    requires meanwhile { F.pre meanwhile }
    ensures { ComesTo result (IsBatchDone T.table batch.entry tables.items (F.post meanwhile)) }
{
    let made = meanwhile();
    let work = Work {
        shared: &batch.shared,
        list: batch.list,
        rules: batch.rules,
        gate: &batch.gate,
        workers: 1,
    };
    let records = exchange_all(alloc, work, &mut tables)?;
    Ok(Done {
        tables,
        records,
        shared: batch.shared,
        made,
    })
}

// Where there is a processor for each worker, a small list comes sooner than a thread that slept is awake.
fn look_before_sleep<D: Drop, R: Threads>(rt: &R, yard: &Yard<D>, workers: u32) {
    let processors = available_parallelism(rt).unwrap_or(NonZeroUsize::MIN);
    if workers as usize <= processors.get() {
        yard.look_before_sleep(LOOKS);
    }
}

// Does what is left for the caller's thread, and waits for the others.
fn finish<D: Drop, J: Job, R: Wait>(rt: &R, yard: &Yard<D>, left: Vec<J>) {
    for job in left {
        job.carry_out(rt);
    }
    yard.wait(rt);
}

// Starts so many threads, and says whether it could. Where one can't be started, those that were go home.
fn start<
    'e,
    T: MemoryTable + Send + Sync,
    X: Exchanging<T> + Send + Drop,
    G: Gate + Send + Sync + Drop,
    J: Job + Send,
    R: Threads + Wait + Sync,
>(scope: &Scope<'_, &'e ()>, rt: &'e R, yard: &'e Yard<Duty<T, X, G, J>>, threads: usize) -> bool
    requires { threads ≤ post_count yard.now }
{
    for i in 0..threads {
        let Ok(_thread) = scope.spawn(
            move ||
                requires { i < post_count yard.now }
            { serve(rt, yard, i) },
        ) else {
            yard.send_home(rt, i);
            return false;
        };
    }
    true
}

// What the thread of a worker does until it is sent home.
fn serve<T: MemoryTable, X: Exchanging<T> + Drop, G: Gate + Drop, J: Job, R: Wait>(
    rt: &R,
    yard: &Yard<Duty<T, X, G, J>>,
    i: usize,
)
    requires { i < post_count yard.now }
{
    for _ in rt.forever() {
        let Some(duty) = yard.next(rt, i) else {
            return;
        };
        duty.carry_out(rt);
        yard.finish();
    }
    unreachable!()
}
