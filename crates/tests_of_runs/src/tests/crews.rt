//! Threads that carry out one list after another.

use crate::tests::comparing::{check, expect};
use crate::tests::gates::Meeting;
use crate::tests::pools::run_fresh;
use crate::tests::small_boards::{CROSSING, ONE_ENTRY, TWICE, list_of};
use bench_types::{Exchange, Fault, Record, Rules};
use crew::{Answered, Divided, LookJob, Parted, look_in_parts};
use exchange::Entries;
use fixtures::{Writers, tables_of};
use model::Exchanging;
use node_table::NodeTable;
use pool::{Batch, FreeGate, Gate, Posts};
use round_plan::RoundList;
use std::alloc::{AllocGlobal, Global};
use std::process::Abort;
use std::sync::Wait;
use std::thread::Threads;

// Carries out exchanges, or lacks memory in each.
#[derive(Drop)]
struct Fickle {
    lacks_memory: bool,
}

impl Exchanging<NodeTable> for Fickle {
    ghost fits = { λ _ _. Unit {0} };

    ghost stays_fit = { λ shared rules e p q may fit_p fit_q. (tt, tt) };

    fn exchange(
        &self,
        alloc: Global,
        initiator: &mut NodeTable,
        responder: &mut NodeTable,
        plan: &Exchange,
        rules: &Rules,
    ) -> Result<Record, Fault> {
        if self.lacks_memory {
            return Err(Fault::OutOfMemory);
        }
        Entries.exchange(alloc, initiator, responder, plan, rules)
    }
}

// Numbers of which threads add some up.
#[derive(Drop)]
struct Numbers {
    all: Vec<u32>,
}

impl Parted for Numbers {
    ghost use Rattle.std.specs.Prelude.{◌≤◌, vec_len};

    type Answer = u64;

    ghost may = { λ numbers from to. (from ≤ to) × (to ≤ vec_len numbers.all) };

    ghost tells = { λ _ _ _ _. Unit {0} };

    fn look(&self, from: usize, to: usize) -> u64 {
        let mut sum = 0u64;
        for number in &self.all[from..to] {
            sum = sum.saturating_add(u64::from(*number));
        }
        sum
    }
}

type Crewed<G> = Posts<NodeTable, Fickle, G, LookJob<Numbers>>;

// The records of a list that begins with fresh tables.
fn records_of<R: Abort + AllocGlobal + Wait, G: Gate + Drop>(
    rt: &R,
    posts: &Crewed<G>,
    list: &RoundList,
    gate: G,
    lacks_memory: bool,
) -> Result<Vec<Record>, Fault> {
    let tables = tables_of(rt.alloc(), Writers::all(list.nodes(), 1))?;
    let batch = Batch {
        shared: Fickle { lacks_memory },
        list,
        rules: &ONE_ENTRY,
        gate,
    };
    let done = posts.carry_out(rt, batch, tables, || ())?;
    check!(rt; !done.shared.lacks_memory);
    Ok(done.records)
}

// A list, and one that lacks memory, by the same three workers, and the first again by others at the same posts.
#[test]
fn lists_by_the_same_threads(rt: HostRuntime) -> Result<(), Fault> {
    let list = list_of(&rt, 8, CROSSING);
    let (_, wanted) = run_fresh(&rt, &list, 1, &ONE_ENTRY, 1, &FreeGate)?;
    let posts = Posts::new(rt.alloc(), 3)?;
    let lists = posts.with_threads(&rt, (), |_| {
        (
            records_of(&rt, &posts, &list, FreeGate, false),
            records_of(&rt, &posts, &list, FreeGate, true),
        )
    });
    let again = posts.with_threads(&rt, (), |_| records_of(&rt, &posts, &list, FreeGate, false));
    let (Ok((first, second)), Ok(third)) = (lists, again) else {
        return Err(Fault::NoThread);
    };
    expect(&rt, second.err(), Some(Fault::OutOfMemory));
    expect(&rt, first?.as_slice() == wanted.as_slice(), true);
    expect(&rt, third?.as_slice() == wanted.as_slice(), true);
    Ok(())
}

// Parts of numbers by three workers, more than they are, between two lists.
#[test]
fn parts_by_the_same_threads(rt: HostRuntime) -> Result<(), Fault> {
    let list = list_of(&rt, 8, CROSSING);
    let posts: Crewed<FreeGate> = Posts::new(rt.alloc(), 3)?;
    let done = posts.with_threads(&rt, (), |_| -> Result<Vec<u64>, Fault> {
        records_of(&rt, &posts, &list, FreeGate, false)?;
        let divided = Divided {
            whole: Numbers {
                all: Vec::from_array(rt.alloc(), [5, 1, 4, 2, 8, 7])?,
            },
            bounds: Vec::from_array(rt.alloc(), [0, 2, 3, 3, 5, 6])?,
        };
        let Answered { answers, .. } = look_in_parts(&rt, rt.alloc(), &posts, divided)?;
        records_of(&rt, &posts, &list, FreeGate, false)?;
        Ok(answers)
    });
    let Ok(answers) = done else {
        return Err(Fault::NoThread);
    };
    expect(
        &rt,
        answers?.as_slice() == [6, 4, 0, 10, 7].as_slice(),
        true,
    );
    Ok(())
}

// The records of a list by two workers, of which the caller's thread is one.
fn records_by_two<R: Abort + AllocGlobal + Threads + Wait + Sync, G: Gate + Send + Sync + Drop>(
    rt: &R,
    list: &RoundList,
    gate: G,
) -> Result<Vec<Record>, Fault> {
    let posts = Posts::new(rt.alloc(), 2)?;
    let done = posts.with_threads(rt, gate, |gate| records_of(rt, &posts, list, gate, false));
    let Ok(records) = done else {
        return Err(Fault::NoThread);
    };
    records
}

#[test]
fn two_exchanges_at_once_by_a_crew(rt: HostRuntime) -> Result<(), Fault> {
    let gate = Meeting::new();
    let list = list_of(&rt, 4, TWICE);
    let records = records_by_two(&rt, &list, &gate)?;
    expect(&rt, records.len(), list.len() as usize);
    check!(&rt; gate.has_met());
    Ok(())
}
