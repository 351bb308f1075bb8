//! What a simulation keeps beside tables that have their entries themselves: the owners' lists.

use bench_types::{Exchange, Fault, Figures, Record, Rules};
use crew::{Crew, NoJob};
use exchange::exchange;
use model::Exchanging;
use node_table::NodeTable;
use owner_lists::OwnerList;
use round_histories::{Counted, Resources, RoundHistories, TakesAll};
use staleness::figures;
use std::alloc::Global;
use std::marker::Model;
use std::sync::Wait;
use std::thread::Threads;

/// The lists of all owners, beside tables with entries, how many keys each has, and how many rounds were ended.
pub struct EntryHistories {
    lists: Vec<OwnerList>,
    keys: u32,
    rounds: u32,
}

// Written out: a derived drop is proved once more in each crate that lets one go.
impl Drop for EntryHistories {
    fn drop(self) {
        let EntryHistories {
            lists: _,
            keys: _,
            rounds: _,
        } = self;
    }
}

impl Model for EntryHistories {
    ghost use Rattle.owner_writes.specs.inner.Codes.{list_code};
    ghost use Rattle.round_histories.specs.Histories.{HistoriesView, histories_code, KeepLimits};

    ghost Value = { HistoriesView };

    ghost coded = { histories_code list_code };

    ghost view = { λ h. record { lists = h.lists.items; keys = h.keys; rounds = h.rounds } };

    ghost invariant = { λ h. KeepLimits (record { lists = h.lists.items; keys = h.keys; rounds = h.rounds }) };
}

impl Exchanging<NodeTable> for EntryHistories {
    ghost fits = { λ _ _. Unit {0} };

    ghost stays_fit = { λ shared rules e p q may fit_p fit_q. (tt, tt) };

    fn exchange(
        &self,
        alloc: Global,
        initiator: &mut NodeTable,
        responder: &mut NodeTable,
        plan: &Exchange,
        rules: &Rules,
    ) -> Result<Record, Fault> {
        exchange(alloc, initiator, responder, plan, rules)
    }
}

impl RoundHistories<NodeTable> for EntryHistories {
    ghost use Rattle.std.specs.Prelude.{IfOk, IsOkUnless};
    ghost use denote.Param.Send.{IsSync};
    ghost use Rattle.bench_types.specs.declared.faults.Fault.TheVariants.{OutOfMemory};
    ghost use Rattle.node_table.specs.NodeTableView.{kept_table};
    ghost use Rattle.round_histories.specs.Histories.{AreFiguresCounted, StandAtRoundEnd};

    type Job = NoJob;

    ghost kept = { λ h. h };

    ghost may_write = { λ _ _ _. Unit {0} };

    fn new(alloc: Global, nodes: u32, keys: u32) -> Result<EntryHistories, Fault> {
        let mut lists = Vec::with_capacity(alloc, nodes as usize)?;
        for _ in 0..nodes {
            lists.push(OwnerList::new(alloc))?;
        }
        Ok(EntryHistories {
            lists,
            keys,
            rounds: 0,
        })
    }

    fn empty_table(&self, alloc: Global, node: u32) -> Result<NodeTable, Fault> {
        NodeTable::new(alloc, node, self.lists.len() as u32, self.keys)
    }

    fn restart(table: &mut NodeTable) {
        table.forget_others();
    }

    fn forget(&mut self, table: &mut NodeTable) {
        let list = &mut self.lists[table.node() as usize];
        table.forget_all();
        list.begin_generation();
    }

    fn count(&self, owner: u32) -> u32 {
        self.lists[owner as usize].len()
    }

    fn write(&mut self, table: &mut NodeTable, key: u32, value: u32) -> Result<(), Fault> {
        let born = self.rounds + 1;
        let list = &mut self.lists[table.node() as usize];
        table.write_own(key, value, born)?;
        list.write(key, value, born)
    }

    fn end_writes(&mut self) -> Result<(), Fault> {
        self.rounds += 1;
        Ok(())
    }

    fn figures<R: Threads + Sync>(
        &self,
        resources: &Resources<R>,
        tables: &[NodeTable],
    ) -> Result<Figures, Fault> {
        figures(
            resources.rt,
            resources.alloc,
            tables,
            &self.lists,
            self.rounds,
        )
    }

    // (the threads of `figures` do that)
    fn figures_by<R: Threads + Wait + Sync, C: Crew<NoJob>>(
        self,
        resources: &Resources<R>,
        _crew: &C,
        tables: Vec<NodeTable>,
    ) -> Result<Counted<NodeTable, EntryHistories>, Fault>
        requires sync { IsSync R.row }
        requires ended { StandAtRoundEnd kept_table tables.items self }
        ensures counted { IfOk result (AreFiguresCounted kept_table (λ h. h) self tables.items) }
        ensures only { IsOkUnless result OutOfMemory }
    {
        let figures = RoundHistories::figures(&self, resources, &tables)?;
        Ok(Counted {
            figures,
            tables,
            histories: self,
        })
    }
}

impl TakesAll<NodeTable> for EntryHistories {
    ghost takes_all = { λ owner number e. tt };
}
