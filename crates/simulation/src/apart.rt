//! A round by workers that are started for it.

ghost use Rattle.std.specs.Prelude.{IfOk, IfErr, IsOkUnless};
ghost use Rattle.bench_types.specs.declared.faults.Fault.TheVariants.{OutOfMemory};
ghost use Rattle.model.specs.Runs.{IsFaultOfWorkers};
ghost use Rattle.played_rounds.specs.calls.Playing.{MayPlay, Plays};

use bench_types::Fault;
use cluster::Cluster;
use model::MemoryTable;
use played_rounds::{NextRound, Round};
use round_histories::{Hands, Resources, RoundHistories};
use std::sync::Wait;
use std::thread::Threads;
use workers::{Gate, Posts};

/// Plays a round by workers that are started for it, each of which has a thread of its own if there are several.
pub(crate) fn play_apart<
    T: MemoryTable + Send + Sync,
    K: RoundHistories<T> + Send,
    G: Gate + Send + Sync + Drop,
    H: Threads + Wait + Sync,
>(next: NextRound<T, K, G>, resources: &Resources<H>) -> Result<(Cluster<T, K>, Round), Fault>
    requires { MayPlay T.table K.kept K.may_write next }
    ensures played { IfOk result (λ p. Plays T.table K.kept next.entry p.0 p.1) }
    ensures fault { IfErr result (IsFaultOfWorkers resources.now.hands.workers) }
{
    let rt = resources.rt;
    let alloc = resources.alloc;
    let processors = resources.hands.processors;
    let posts = match Posts::apart(alloc, resources.hands.workers) {
        Ok(posts) => posts,
        Err(fault) => {
            drop(next.cluster);
            return Err(fault);
        }
    };
    let by: &Posts<T, K, G, K::Job> = &posts;
    let answer = posts.with_threads(
        rt,
        next,
        move |next|
            requires { MayPlay T.table K.kept K.may_write next }
            ensures played { IfOk result (λ p. Plays T.table K.kept next.entry p.0 p.1) }
            ensures only { IsOkUnless result OutOfMemory }
        {
            let resources = Resources {
                rt,
                alloc,
                hands: Hands {
                    workers: by.workers(),
                    processors,
                },
            };
            next.play(&resources, by)
        },
    );
    drop(posts);
    answer.ok().ok_or(Fault::NoThread).flatten()
}
