//! The figures of a round, where tables keep versions alone.

ghost use denote.Param.Send.{IsSync};
ghost use Rattle.std.specs.Prelude.{◌≡◌};
ghost use Rattle.version_tables.specs.inner.Common.{List, map, IfOk, IsOkUnless, OutOfMemory, figures_of, lists_in, StandAtRoundEnd, numbers_in, VersionTableView, table_in};
ghost use Rattle.version_tables.specs.inner.Beside.{AreCellsOf, AreNumbersBeside};

use crate::histories::Histories;
use crate::tables::{VersionTable, Written};
use bench_types::{Fault, Figures};
use planes::{Number, Short};
use round_histories::Resources;
use std::alloc::Global;
use std::thread::Threads;
use version_lags::RoundNumbers;

/// The cells of each table.
pub(crate) fn cells_of<'a, N: Number, H: Written>(
    alloc: Global,
    tables: &'a [VersionTable<N, H>],
) -> Result<Vec<&'a [N]>, Fault>
    ensures cells { IfOk result (λ v. AreCellsOf H.lists tables.now (numbers_in N.number v.items)) }
    ensures only { IsOkUnless result OutOfMemory }
{
    let mut cells = Vec::with_capacity(alloc, tables.len())?;
    for table in tables {
        cells.push(table.cells())?;
    }
    Ok(cells)
}

/// The numbers of tables that have these cells.
pub(crate) fn numbers_of<'a, N: Number, H: Written>(
    cells: &'a [&'a [N]],
    histories: &'a Histories<N, H>,
) -> RoundNumbers<'a, N>
    ensures { (views : List VersionTableView) → StandAtRoundEnd (table_in H.lists) views histories.now
        → AreCellsOf H.lists views (numbers_in N.number cells.now)
        → AreNumbersBeside N.number N.most H.lists views histories.now result }
{
    RoundNumbers {
        cells,
        keys: histories.keys() as usize,
        lists: histories.lists(),
        bases: histories.bases(),
        last: histories.lasts(),
        ends: histories.ends(),
    }
}

/// The figures at the end of a round, as `version_lags` counts them. An error is lack of memory (`OutOfMemory`).
pub(crate) fn figures<N: Number + Send + Sync, H: Written>(
    resources: &Resources<impl Threads + Sync>,
    tables: &[VersionTable<N, H>],
    histories: &Histories<N, H>,
) -> Result<Figures, Fault>
    requires { StandAtRoundEnd (table_in H.lists) tables.now histories.now }
    ensures figures { IfOk result (λ f. f
        ≡ figures_of histories.now.rounds (map (table_in H.lists) tables.now) (lists_in histories.now.lists)) }
    ensures only { IsOkUnless result OutOfMemory }
{
    let cells = cells_of(resources.alloc, tables)?;
    version_lags::figures(resources, &numbers_of(&cells, histories))
}

/// Numbers that threads may share. What starts threads is written for each type of them, since no proof is had of what
/// sends a parameter's values to a thread in a generic `impl` of a trait.
pub trait SharedNumber: Number {
    /// The figures at the end of a round, as `figures` has them.
    fn figures<H: Written, R: Threads + Sync>(
        resources: &Resources<R>,
        tables: &[VersionTable<Self, H>],
        histories: &Histories<Self, H>,
    ) -> Result<Figures, Fault>
        requires sync { IsSync R.row }
        requires ended { StandAtRoundEnd (table_in H.lists) tables.now histories.now }
        ensures figures { IfOk result (λ f. f
            ≡ figures_of histories.now.rounds (map (table_in H.lists) tables.now) (lists_in histories.now.lists)) }
        ensures only { IsOkUnless result OutOfMemory };
}

impl SharedNumber for u8 {
    fn figures<H: Written, R: Threads + Sync>(
        resources: &Resources<R>,
        tables: &[VersionTable<u8, H>],
        histories: &Histories<u8, H>,
    ) -> Result<Figures, Fault> {
        figures(resources, tables, histories)
    }
}

impl SharedNumber for Short {
    fn figures<H: Written, R: Threads + Sync>(
        resources: &Resources<R>,
        tables: &[VersionTable<Short, H>],
        histories: &Histories<Short, H>,
    ) -> Result<Figures, Fault> {
        figures(resources, tables, histories)
    }
}

impl SharedNumber for u32 {
    fn figures<H: Written, R: Threads + Sync>(
        resources: &Resources<R>,
        tables: &[VersionTable<u32, H>],
        histories: &Histories<u32, H>,
    ) -> Result<Figures, Fault> {
        figures(resources, tables, histories)
    }
}
