//! Tables of versions as tables that a simulation carries through its rounds.

ghost use denote.Param.Send.{IsSync};
ghost use Rattle.std.specs.Prelude.{[]};
ghost use Rattle.version_tables.specs.inner.Common.{IfOk, IsOkUnless, OutOfMemory, AreFiguresCounted, StandAtRoundEnd, table_in};
ghost use Rattle.version_tables.specs.inner.Histories.{IsWriteUnder};

use crate::ended::{Ended, figures_in_parts};
use crate::histories::Histories;
use crate::lags::SharedNumber;
use crate::tables::{VersionTable, Written};
use bench_types::{Fault, Figures};
use crew::{Crew, LookJob};
use planes::Number;
use round_histories::{Counted, Resources, RoundHistories};
use std::alloc::Global;
use std::marker::Brand;
use std::sync::Wait;
use std::thread::Threads;
use version_lags::bounds_for;

impl Written for Brand {
    ghost lists = { λ _. [] };
}

impl<N: SharedNumber + Send + Sync, H: Written + Send + Sync> RoundHistories<VersionTable<N, H>>
    for Histories<N, H> {
    type Job = LookJob<Ended<N, H>>;

    ghost kept = { λ h. h };

    ghost may_write = { IsWriteUnder H.lists N.most };

    fn new(alloc: Global, nodes: u32, keys: u32) -> Result<Histories<N, H>, Fault> {
        Histories::new(alloc, nodes, keys)
    }

    fn empty_table(&self, alloc: Global, node: u32) -> Result<VersionTable<N, H>, Fault> {
        let keys = self.keys();
        let nodes = self.lists().len() as u32;
        VersionTable::new(alloc, node, nodes, keys)
    }

    fn restart(table: &mut VersionTable<N, H>) {
        table.forget_others();
    }

    fn forget(&mut self, table: &mut VersionTable<N, H>) {
        self.begin_generation(table.node());
        table.forget_all();
    }

    fn count(&self, owner: u32) -> u32 {
        self.lists()[owner as usize].len()
    }

    fn write(&mut self, table: &mut VersionTable<N, H>, key: u32, value: u32) -> Result<(), Fault> {
        let node = table.node();
        let number = self.write(node, key, value)?;
        table.write_own(key, number);
        Ok(())
    }

    fn end_writes(&mut self) -> Result<(), Fault> {
        self.end_round()
    }

    fn figures<R: Threads + Sync>(
        &self,
        resources: &Resources<R>,
        tables: &[VersionTable<N, H>],
    ) -> Result<Figures, Fault> {
        N::figures(resources, tables, self)
    }

    fn figures_by<R: Threads + Wait + Sync, C: Crew<LookJob<Ended<N, H>>>>(
        self,
        resources: &Resources<R>,
        crew: &C,
        tables: Vec<VersionTable<N, H>>,
    ) -> Result<Counted<VersionTable<N, H>, Histories<N, H>>, Fault>
        requires sync { IsSync R.row }
        requires ended { StandAtRoundEnd (table_in H.lists) tables.items self }
        ensures counted { IfOk result (AreFiguresCounted (table_in H.lists) (λ h. h) self tables.items) }
        ensures only { IsOkUnless result OutOfMemory }
    {
        let alloc = resources.alloc;
        if let Some(bounds) = bounds_for(alloc, self.lasts(), tables.len(), resources.hands)? {
            let ended = Ended {
                alloc,
                tables,
                histories: self,
            };
            return figures_in_parts(resources.rt, crew, ended, bounds);
        }
        let figures = N::figures(resources, &tables, &self)?;
        Ok(Counted {
            figures,
            tables,
            histories: self,
        })
    }
}
