//! Which exchanges of a list wait for which others.

ghost use Rattle.std.specs.Prelude.{◌≡◌, ◌<◌, ◌≤◌, ◌++◌, All, length, IfOk, IsOkUnless};
ghost use Rattle.bench_types.specs.declared.exchanges.Exchange.{Exchange};
ghost use Rattle.bench_types.specs.declared.faults.Fault.TheVariants.{OutOfMemory};
ghost use Rattle.bench_types.specs.calls.Exchange.{IsPlanned};
ghost use Rattle.model.specs.calls.RoundLists.{IsRoundPlan};
ghost use Rattle.model.specs.declared.lists.TheConstants.{MOST_EXCHANGES};
ghost use Rattle.dependencies.specs.Sharing.{exchange_at};
ghost use Rattle.dependencies.specs.inner.Dependencies.{AreFirstReady};
ghost use Rattle.dependencies.specs.Neighbours.{predecessors_of, successors, as_list, unless_same, pending_of, first_ready_of};
ghost use Rattle.dependencies.specs.inner.Dependencies.{all_predecessors, all_successors};

use bench_types::{Exchange, Fault};
use model::RoundList;
use std::alloc::Global;
use std::marker::Model;

/// The next exchanges of the two nodes of an exchange.
#[derive(Clone, Copy, Debug, PartialEq, Eq)]
pub struct After {
    /// That of its initiator.
    pub first: Option<u32>,
    /// That of its responder, where it is another one.
    pub second: Option<u32>,
}

/// The last earlier exchanges of the two nodes of an exchange.
#[derive(Clone, Copy, Debug, PartialEq, Eq)]
pub struct Before {
    /// That of its initiator.
    pub first: Option<u32>,
    /// That of its responder, where it is another one.
    pub second: Option<u32>,
}

/// A round's list, and which of its exchanges wait for which others.
#[derive(Debug)]
pub struct Deps {
    list: RoundList,
    before: Vec<Before>,
    after: Vec<After>,
    first_ready: Vec<u32>,
}

// Written out: a derived drop is proved once more in each crate that lets one go.
impl Drop for Deps {
    fn drop(self) {
        let Deps {
            list: _,
            before: _,
            after: _,
            first_ready: _,
        } = self;
    }
}

impl Model for Deps {
    ghost use Rattle.model.specs.RoundLists.{RoundListView};
    ghost use Rattle.dependencies.specs.inner.Dependencies.{AreKept};

    ghost Value = { RoundListView };

    ghost view = { λ d. d.list };

    ghost invariant = { λ d. AreKept d.list d.before.items d.after.items d.first_ready.items };
}

impl Deps {
    /// The dependencies of a round's list, of which a copy is kept. Costs a step for each node and a
    /// few for each exchange. An error is lack of memory (`OutOfMemory`).
    pub fn new(alloc: Global, list: &RoundList) -> Result<Deps, Fault>
        ensures value { IfOk result (λ deps. deps ≡ list.now) }
        ensures only { IsOkUnless result OutOfMemory }
    {
        let exchanges = Vec::from_slice(alloc, list.exchanges())?;
        let list = RoundList::planned(list.nodes(), list.unreached(), exchanges);
        let before = all_before(alloc, list.nodes(), list.exchanges())?;
        let after = all_after(alloc, list.nodes(), list.exchanges())?;
        let first_ready = free_places(alloc, &before)?;
        Ok(Deps {
            list,
            before,
            after,
            first_ready,
        })
    }

    /// How many exchanges there are.
    pub fn len(&self) -> u32
        ensures value { result ≡ length self.now.exchanges }
        ensures kept { IsRoundPlan self.now }
    {
        self.list.len()
    }

    /// The exchange at a place of the list, from 0.
    pub fn exchange(&self, i: u32) -> Exchange
        requires within { i < length self.now.exchanges }
        ensures value { result ≡ exchange_at self.now.exchanges i }
        ensures kept { IsRoundPlan self.now }
    {
        self.list.exchanges()[i as usize]
    }

    /// The exchanges that it waits for.
    pub fn before(&self, i: u32) -> Before
        requires within { i < length self.now.exchanges }
        ensures { result ≡ predecessors_of self.now.exchanges i }
    {
        self.before[i as usize]
    }

    /// How many exchanges it waits for at first: none, one or two.
    pub fn pending(&self, i: u32) -> u32
        requires within { i < length self.now.exchanges }
        ensures { result ≡ pending_of self.now.exchanges i }
    {
        count(self.before(i))
    }

    /// The exchanges that wait for it.
    pub fn after(&self, i: u32) -> After
        requires within { i < length self.now.exchanges }
        ensures { result ≡ successors self.now.exchanges i }
    {
        self.after[i as usize]
    }

    /// The places of the exchanges that wait for none, ascending.
    pub fn first_ready(&self) -> &[u32]
        ensures { result.now ≡ first_ready_of self.now.exchanges }
    {
        &self.first_ready
    }
}

// In list order, with the last exchange so far of each node.
fn all_before(alloc: Global, nodes: u32, exchanges: &[Exchange]) -> Result<Vec<Before>, Fault>
    requires planned { All (IsPlanned nodes) exchanges.now }
    requires few { length exchanges.now ≤ MOST_EXCHANGES }
    ensures value { IfOk result (λ v. v.items ≡ all_predecessors exchanges.now) }
    ensures only { IsOkUnless result OutOfMemory }
{
    let mut last: Vec<Option<u32>> = vec![in alloc; None; nodes as usize]?;
    let mut before = Vec::with_capacity(alloc, exchanges.len())?;
    for (i, exchange) in exchanges.iter().enumerate() {
        let initiator = exchange.initiator as usize;
        let responder = exchange.responder as usize;
        let first = last[initiator];
        let second = unless_same(first, last[responder]);
        before.push_reserved(Before { first, second });
        last[initiator] = Some(i as u32);
        last[responder] = Some(i as u32);
    }
    Ok(before)
}

// From the end of the list, with the first exchange so far of each node.
fn all_after(alloc: Global, nodes: u32, exchanges: &[Exchange]) -> Result<Vec<After>, Fault>
    requires planned { All (IsPlanned nodes) exchanges.now }
    requires few { length exchanges.now ≤ MOST_EXCHANGES }
    ensures value { IfOk result (λ v. v.items ≡ all_successors exchanges.now) }
    ensures only { IsOkUnless result OutOfMemory }
{
    let none = After {
        first: None,
        second: None,
    };
    let mut next: Vec<Option<u32>> = vec![in alloc; None; nodes as usize]?;
    let mut after = vec![in alloc; none; exchanges.len()]?;
    for i in (0..exchanges.len()).rev() {
        let initiator = exchanges[i].initiator as usize;
        let responder = exchanges[i].responder as usize;
        let first = next[initiator];
        let second = unless_same(first, next[responder]);
        after[i] = After { first, second };
        next[initiator] = Some(i as u32);
        next[responder] = Some(i as u32);
    }
    Ok(after)
}

fn free_places(alloc: Global, before: &[Before]) -> Result<Vec<u32>, Fault>
    requires few { length before.now ≤ MOST_EXCHANGES }
    ensures value { IfOk result (λ v. AreFirstReady before.now v.items) }
    ensures only { IsOkUnless result OutOfMemory }
{
    let mut free = Vec::new(alloc);
    for (i, waits) in before.iter().enumerate() {
        if count(*waits) == 0 {
            free.push(i as u32)?;
        }
    }
    Ok(free)
}

fn count(before: Before) -> u32
    ensures { result ≡ length (as_list before.first ++ as_list before.second) }
{
    u32::from(before.first.is_some()) + u32::from(before.second.is_some())
}

fn unless_same(first: Option<u32>, second: Option<u32>) -> Option<u32>
    ensures { result ≡ unless_same first second }
{
    if second == first { None } else { second }
}
