//! One value at which several threads look, each at a part of it.
ghost use Rattle.std.specs.Prelude.{◌≡◌, ◌<◌, ◌≤◌, length, vec_capacity, vec_len, IfOk};
ghost use Rattle.std.specs.Arc.{arc_value};
ghost use Rattle.crew.specs.Parts.{AreAnswered, HoldsAnswers, MayLookAtEach};
ghost use Rattle.crew.specs.inner.Looks.{IsSharedOut};

use crate::shares::alone;
use crate::trays::{Label, Trays};
use std::alloc::{AllocError, Global};
use std::marker::Model;
use std::snapshot::Snapshot;
use std::sync::{Arc, Wait};

/// A duty that needs nothing but itself and the runtime.
pub trait Job: Drop {
    /// Does it, and lets go all that it shares.
    fn carry_out<R: Wait>(self, rt: &R);
}

/// No job at all, for threads that are given something else.
#[derive(Drop)]
pub struct NoJob;

impl Job for NoJob {
    fn carry_out<R: Wait>(self, _rt: &R) {}
}

/// Threads that wait for jobs of one kind.
pub trait Crew<J> {
    /// Has each of the jobs carried out, by a thread of its own where there are so many, the caller's among them, and
    /// waits until all are done. Threads that aren't started or have something else to do never do one.
    fn carry_out_jobs<R: Wait>(&self, rt: &R, jobs: Vec<J>);
}

/// A value at parts of which threads look, each from one bound up to another.
pub trait Parted: Drop {
    ghost use Rattle.std.specs.Prelude.{ℕ};

    /// What is found at a part.
    type Answer: Drop;

    // Whether that part may be looked at.
    ghost may: { Self → ℕ → ℕ → Type 0 };

    // What an answer tells of such a part.
    ghost tells: { Self → ℕ → ℕ → Self.Answer → Type 0 };

    /// Looks at a part.
    fn look(&self, from: usize, to: usize) -> Self::Answer
        requires { may self.now from to }
        ensures { tells self.now from to result };
}

/// A value with the bounds of its parts: each goes from one bound up to the next.
#[derive(Drop)]
pub struct Divided<S> {
    pub whole: S,
    pub bounds: Vec<usize>,
}

/// The value, and what was found at each of its parts.
#[derive(Drop)]
pub struct Answered<S, A> {
    pub whole: S,
    pub answers: Vec<A>,
}

// What a tray may hold: an answer of the part of its number.
#[derive(Drop)]
pub struct Found<S>(Snapshot<Divided<S>>);

impl<S: Parted> Label<S::Answer> for Found<S> {
    ghost use Rattle.crew.specs.Parts.{TellsOfPart};

    ghost keeps = { λ parts. TellsOfPart S.tells parts.0.value.whole parts.0.value.bounds.items };
}

// What the threads share.
#[derive(Drop)]
pub struct Shared<S: Parted> {
    divided: Divided<S>,
    trays: Trays<S::Answer, Found<S>>,
}

/// The job of one thread: to look at a part, and to leave what it finds in a tray.
pub struct LookJob<S: Parted> {
    shared: Arc<Shared<S>>,
    place: usize,
}

// Written out: a derived drop is proved once more in each crate that lets a job go.
impl<S: Parted> Drop for LookJob<S> {
    fn drop(self) {
        let LookJob {
            shared: _,
            place: _,
        } = self;
    }
}

impl<S: Parted> Model for LookJob<S> {
    ghost use Rattle.std.specs.Prelude.{ℕ};
    ghost use Rattle.std.specs.Arc.{arc_value};
    ghost use Rattle.crew.specs.inner.Looks.{IsLook};

    ghost Value = { ℕ };

    ghost view = { λ s. s.place };

    ghost invariant = { λ s. IsLook S.may (arc_value s.shared) s.place };
}

impl<S: Parted> Job for LookJob<S> {
    fn carry_out<R: Wait>(self, rt: &R) {
        let LookJob { shared, place } = self;
        let divided = &shared.divided;
        let answer = divided
            .whole
            .look(divided.bounds[place], divided.bounds[place + 1]);
        shared.trays.leave(rt, place, answer);
    }
}

/// What each part of a value tells, in their order, each looked at by a thread of a crew, for which it waits. It takes
/// memory for a tray, a job and an answer for each part before any is looked at. An error is lack of that memory, and
/// the value is then given up.
pub fn look_in_parts<S: Parted, C: Crew<LookJob<S>>, R: Wait>(
    rt: &R,
    alloc: Global,
    crew: &C,
    divided: Divided<S>,
) -> Result<Answered<S, S::Answer>, AllocError>
    requires some { 0 < vec_len divided.bounds }
    requires may { MayLookAtEach S.may divided.whole divided.bounds.items }
    ensures { IfOk result (AreAnswered S.tells divided) }
{
    let count = divided.bounds.len() - 1;
    let shared = share(alloc, divided)?;
    let answers = Vec::with_capacity(alloc, count)?;
    let jobs = looks_of(alloc, &shared, count)?;
    crew.carry_out_jobs(rt, jobs);
    let answers = take_all(rt, &shared, answers, count);
    let Shared {
        divided: Divided { whole, bounds: _ },
        trays: _,
    } = alone(rt, shared);
    Ok(Answered { whole, answers })
}

// What the threads of a divided value share.
fn share<S: Parted>(alloc: Global, divided: Divided<S>) -> Result<Arc<Shared<S>>, AllocError>
    requires some { 0 < vec_len divided.bounds }
    requires may { MayLookAtEach S.may divided.whole divided.bounds.items }
    ensures shared { IfOk result (λ shared. IsSharedOut S.may (arc_value shared)) }
    ensures divided { IfOk result (λ shared. (arc_value shared).divided ≡ divided) }
{
    let parts = Found(Snapshot::of(&divided));
    let trays = Trays::new(alloc, divided.bounds.len() - 1, &parts)?;
    Arc::new(alloc, Shared { divided, trays })
        .ok()
        .ok_or(AllocError)
}

// The jobs of the first so many parts.
fn looks_of<S: Parted>(
    alloc: Global,
    shared: &Arc<Shared<S>>,
    count: usize,
) -> Result<Vec<LookJob<S>>, AllocError>
    requires shared { IsSharedOut S.may (arc_value shared.now) }
    requires within { count < vec_len (arc_value shared.now).divided.bounds }
{
    let mut jobs = Vec::with_capacity(alloc, count)?;
    for place in 0..count {
        let shared = Arc::try_clone(shared)?;
        jobs.push_reserved(LookJob { shared, place });
    }
    Ok(jobs)
}

// What was left in the trays of the first so many parts.
fn take_all<S: Parted, R: Wait>(
    rt: &R,
    shared: &Shared<S>,
    mut answers: Vec<S::Answer>,
    count: usize,
) -> Vec<S::Answer>
    requires shared { IsSharedOut S.may shared.now }
    requires within { count < vec_len shared.now.divided.bounds }
    requires empty { vec_len answers ≡ 0 }
    requires room { count ≤ vec_capacity answers }
    ensures count { length result.items ≡ count }
    ensures each { HoldsAnswers S.tells shared.now.divided.whole shared.now.divided.bounds.items result.items }
{
    for place in 0..count {
        let answer = shared.trays.wait_for(rt, place);
        answers.push_reserved(answer);
    }
    answers
}
