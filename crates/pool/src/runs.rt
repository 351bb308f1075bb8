//! Carrying out the exchanges of a list, by workers that are started for it.

ghost use Rattle.std.specs.Prelude.{map, IfOk, IfErr, IsOkUnless, MatchResult};
ghost use Rattle.bench_types.specs.declared.faults.Fault.TheVariants.{OutOfMemory};
ghost use Rattle.model.specs.Runs.{AreWorkers, IsFaultOfWorkers};
ghost use Rattle.work.specs.Carrying.{MayCarryOut, AreExchanged};
ghost use Rattle.pool.specs.inner.Loans.{IsLoanDone, MayBeLent};

use crate::lent::Lent;
use bench_types::{Fault, Record};
use model::{Exchanging, MemoryTable};
use std::alloc::Global;
use std::sync::Wait;
use std::thread::Threads;
use workers::{Batch, Done, Gate, NoJob, Posts, Work};

/// Carries out the exchanges of a list on tables of any representation. The answer is the tables, by node, and the
/// records, in list order: those of one thread that goes through the list in order, whatever order the workers take.
///
/// With one worker no thread is started, and the list is done in order. With more, each is a thread of its
/// own, also where the list has fewer exchanges, and all have ended when this returns. It waits for them, so
/// no contract says that it returns. Before it waits, it calls `meanwhile`; with one worker it does so first.
///
/// An error is lack of memory (`OutOfMemory`), or with more than one worker that a thread couldn't be
/// started (`NoThread`), which goes before a worker's lack of memory. The tables are then given up.
///
/// Beside the exchanges, several workers cost a step for each node and a few for each exchange, a thread for
/// each worker, and a way from each to each other.
pub fn run_list_with<
    R: Threads + Wait + Sync,
    T: MemoryTable + Send + Sync,
    X: Exchanging<T>,
    G: Gate + Sync,
    F: FnOnce() -> M + Drop,
    M: Drop,
>(
    rt: &R,
    alloc: Global,
    work: Work<X, G>,
    tables: Vec<T>,
    meanwhile: F,
) -> Result<(Vec<T>, Vec<Record>, M), Fault>
    requires workers { AreWorkers work.workers }
    requires tables { MayCarryOut (X.fits work.shared.now) work.rules.now work.list.now.nodes
        (map T.table tables.items) }
    requires meanwhile { F.pre meanwhile }
    ensures exchanged { IfOk result (λ p. AreExchanged T.table work.entry.rules.now work.entry.list.now.exchanges
        tables.items p.0.items p.1.items) }
    ensures made { IfOk result (λ p. F.post meanwhile p.2) }
    ensures fault { IfErr result (IsFaultOfWorkers work.entry.workers) }
{
    let posts: Posts<T, Lent<X>, &G, NoJob> = Posts::apart(alloc, work.workers)?;
    let batch = Batch {
        shared: Lent {
            shared: work.shared,
        },
        list: work.list,
        rules: work.rules,
        gate: work.gate,
    };
    let loan = Loan {
        batch,
        tables,
        meanwhile,
    };
    let done = carry_out_once(rt, posts, loan)?;
    Ok((done.tables, done.records, done.made))
}

// One list with its tables, and what is called meanwhile.
#[derive(Drop)]
struct Loan<'a, T, X, G, F> {
    batch: Batch<'a, X, G>,
    tables: Vec<T>,
    meanwhile: F,
}

// Starts the threads, if there are several workers, lends them one list, and sends them home.
fn carry_out_once<
    R: Threads + Wait + Sync,
    T: MemoryTable + Send + Sync,
    X: Exchanging<T> + Send + Drop,
    G: Gate + Send + Sync + Drop,
    F: FnOnce() -> M + Drop,
    M: Drop,
>(rt: &R, posts: Posts<T, X, G, NoJob>, loan: Loan<T, X, G, F>) -> Result<Done<T, X, M>, Fault>
    requires { MayBeLent T.table X.fits F.pre loan }
    ensures { MatchResult result (IsLoanDone T.table F.post loan.entry) (IsFaultOfWorkers posts) }
{
    let by = &posts;
    let answer = posts.with_threads(
        rt,
        loan,
        move |loan|
            requires { MayBeLent T.table X.fits F.pre loan }
            ensures done { IfOk result (IsLoanDone T.table F.post loan.entry) }
            ensures only { IsOkUnless result OutOfMemory }
        {
            let Loan {
                batch,
                tables,
                meanwhile,
            } = loan;
            by.carry_out(rt, batch, tables, meanwhile)
        },
    );
    drop(posts);
    answer.unwrap_or(Err(Fault::NoThread))
}
