//! Carrying out a schedule on one thread.

ghost use Rattle.std.specs.Prelude.{◌≡◌, ◌<◌, ℕ, length, map, filter_map, IfOk, IfErr, OnOk, IsOkUnless};
ghost use Rattle.bench_types.specs.declared.exchanges.Rules.{Rules};
ghost use Rattle.bench_types.specs.declared.faults.Fault.TheVariants.{OutOfMemory};
ghost use Rattle.bench_types.specs.calls.Budget.{IsLawfulBudget};
ghost use Rattle.dependencies.specs.declared.events.Event.TheVariants.{Start, Finish};
ghost use Rattle.planner.specs.Stages.{not_started};
ghost use Rattle.dependencies.specs.inner.Slots.{in_place};
ghost use Rattle.planner.specs.inner.Places.{state_in, AreEmpty, HasPlaces, ShowsEvent, AreInPlace, StandIn, itself, both_or_none};
ghost use Rattle.node_table.specs.NodeTableView.{tables_in};
ghost use Rattle.model.specs.calls.Tables.{IsCluster};
ghost use Rattle.planner.specs.Plays.{ArePlayed, IsRefusal};
ghost use Rattle.planner.specs.inner.Plays.{Follows, IsEventRefused};

use crate::schedules::Schedule;
use bench_types::{Fault, Record, Rules};
use dependencies::{Deps, Event};
use exchange::exchange;
use model::RoundList;
use node_table::NodeTable;
use std::alloc::Global;

// The tables that a running exchange has taken out.
#[derive(Drop)]
struct Pair {
    initiator: NodeTable,
    responder: NodeTable,
}

// The tables at home, by node; what is taken out, and the records, by exchange.
#[derive(Drop)]
struct Places {
    homes: Vec<Option<NodeTable>>,
    out: Vec<Option<Pair>>,
    records: Vec<Option<Record>>,
}

/// Carries out a schedule: each start takes the tables of two nodes out, and each finish carries out
/// the exchange and puts back what it leaves of them. The answer is the tables, by node, and the
/// records, in list order. An error is the first event that is refused (`NotAllowed`, `NotRunning`), an exchange
/// that isn't finished at the end (`Unfinished`), or lack of memory (`OutOfMemory`). The tables are then
/// given up.
///
/// Beside the exchanges and the dependencies it costs a step for each node and each event and a few
/// for each exchange. The tables are moved, never copied.
pub fn play(
    alloc: Global,
    list: &RoundList,
    tables: Vec<NodeTable>,
    events: &[Event],
    rules: &Rules,
) -> Result<(Vec<NodeTable>, Vec<Record>), Fault>
    requires cluster { IsCluster list.now.nodes (tables_in tables.items) }
    requires budget { IsLawfulBudget rules.now.budget }
    ensures played { IfOk result (λ p. ArePlayed rules.now list.now events.now tables.items p.0.items p.1.items) }
    ensures refused { IfErr result (IsRefusal list.now.exchanges events.now) }
{
    let mut schedule = unstarted(alloc, list)?;
    let mut places = all_at_home(alloc, list, tables)?;
    for event in events {
        follow(alloc, &mut schedule, &mut places, list, *event, rules)?;
    }
    if schedule.done_count() < list.len() {
        return Err(Fault::Unfinished);
    }
    given_by(alloc, places)
}

fn unstarted(alloc: Global, list: &RoundList) -> Result<Schedule, Fault>
    ensures value { IfOk result (λ s. s ≡ not_started list.now) }
    ensures only { IsOkUnless result OutOfMemory }
{
    let deps = Deps::new(alloc, list)?;
    match Schedule::new(alloc, deps) {
        Ok(schedule) => Ok(schedule),
        Err((fault, _)) => Err(fault),
    }
}

fn all_at_home(alloc: Global, list: &RoundList, tables: Vec<NodeTable>) -> Result<Places, Fault>
    ensures homes { IfOk result (λ p. p.homes.items ≡ map in_place tables.items) }
    ensures out { IfOk result (λ p. AreEmpty (length list.now.exchanges) p.out.items) }
    ensures records { IfOk result (λ p. AreEmpty (length list.now.exchanges) p.records.items) }
    ensures only { IsOkUnless result OutOfMemory }
{
    Ok(Places {
        homes: each_at_home(alloc, tables)?,
        out: empty_places(alloc, list.len())?,
        records: empty_places(alloc, list.len())?,
    })
}

fn each_at_home(alloc: Global, tables: Vec<NodeTable>) -> Result<Vec<Option<NodeTable>>, Fault>
    ensures value { IfOk result (λ v. v.items ≡ map in_place tables.items) }
    ensures only { IsOkUnless result OutOfMemory }
{
    let mut homes = Vec::with_capacity(alloc, tables.len())?;
    for table in tables {
        homes.push(Some(table))?;
    }
    Ok(homes)
}

fn empty_places<T: Drop>(alloc: Global, count: u32) -> Result<Vec<Option<T>>, Fault>
    ensures value { IfOk result (λ v. AreEmpty count v.items) }
    ensures only { IsOkUnless result OutOfMemory }
{
    let mut places = Vec::with_capacity(alloc, count as usize)?;
    for _ in 0..count {
        places.push(None)?;
    }
    Ok(places)
}

fn follow(
    alloc: Global,
    schedule: &mut Schedule,
    places: &mut Places,
    list: &RoundList,
    event: Event,
    rules: &Rules,
) -> Result<(), Fault>
    requires plan { schedule.old.plan ≡ list.now }
    requires size { length schedule.old.stages ≡ length list.now.exchanges }
    requires budget { IsLawfulBudget rules.now.budget }
    requires places { HasPlaces list.now places.old }
    requires tables { (keys : ℕ) × AreInPlace list.now.nodes keys list.now.exchanges (state_in places.old) }
    ensures schedule { OnOk result (Follows event schedule.old schedule.new) }
    ensures places { OnOk result (HasPlaces list.now places.new) }
    ensures state { OnOk result (ShowsEvent rules.now list.now.exchanges event places.old places.new) }
    ensures refused { IfErr result (IsEventRefused event schedule.old) }
{
    match event {
        Event::Start(i) => {
            schedule.start(i)?;
            take_out(places, list, i);
        }
        Event::Finish(i) => {
            schedule.finish(i)?;
            put_back(alloc, places, list, i, rules)?;
        }
    }
    Ok(())
}

fn take_out(places: &mut Places, list: &RoundList, i: u32)
    requires within { i < length list.now.exchanges }
    requires places { HasPlaces list.now places.old }
    ensures places { HasPlaces list.now places.new }
    ensures state { (rules : Rules) → ShowsEvent rules list.now.exchanges (Start i) places.old places.new }
{
    let plan = list.exchanges()[i as usize];
    let initiator = places.homes[plan.initiator as usize].take();
    let responder = places.homes[plan.responder as usize].take();
    places.out[i as usize] = both(initiator, responder);
}

fn both(initiator: Option<NodeTable>, responder: Option<NodeTable>) -> Option<Pair>
    ensures { result ≡ both_or_none initiator responder }
{
    match (initiator, responder) {
        (Some(initiator), Some(responder)) => Some(Pair {
            initiator,
            responder,
        }),
        _ => None,
    }
}

// The tables that an exchange has taken out are exchanged and come back into their places.
fn put_back(
    alloc: Global,
    places: &mut Places,
    list: &RoundList,
    i: u32,
    rules: &Rules,
) -> Result<(), Fault>
    requires within { i < length list.now.exchanges }
    requires budget { IsLawfulBudget rules.now.budget }
    requires places { HasPlaces list.now places.old }
    requires tables { (keys : ℕ) × AreInPlace list.now.nodes keys list.now.exchanges (state_in places.old) }
    ensures places { OnOk result (HasPlaces list.now places.new) }
    ensures state { OnOk result (ShowsEvent rules.now list.now.exchanges (Finish i) places.old places.new) }
    ensures only { IsOkUnless result OutOfMemory }
{
    let plan = list.exchanges()[i as usize];
    if let Some(mut pair) = places.out[i as usize].take() {
        let record = exchange(
            alloc,
            &mut pair.initiator,
            &mut pair.responder,
            &plan,
            rules,
        )?;
        places.homes[plan.initiator as usize] = Some(pair.initiator);
        places.homes[plan.responder as usize] = Some(pair.responder);
        places.records[i as usize] = Some(record);
    }
    Ok(())
}

fn given_by(alloc: Global, places: Places) -> Result<(Vec<NodeTable>, Vec<Record>), Fault>
    ensures value { IfOk result (λ p. StandIn places p.0.items p.1.items) }
    ensures only { IsOkUnless result OutOfMemory }
{
    let Places {
        homes,
        out: _,
        records,
    } = places;
    Ok((all_of(alloc, homes)?, all_of(alloc, records)?))
}

fn all_of<T: Drop>(alloc: Global, places: Vec<Option<T>>) -> Result<Vec<T>, Fault>
    ensures value { IfOk result (λ v. v.items ≡ filter_map itself places.items) }
    ensures only { IsOkUnless result OutOfMemory }
{
    let mut all = Vec::with_capacity(alloc, places.len())?;
    for place in places {
        if let Some(x) = place {
            all.push(x)?;
        }
    }
    Ok(all)
}
