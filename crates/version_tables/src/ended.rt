//! Tables and histories at the end of a round, of which several threads count the figures, each those of some tables.

ghost use Rattle.version_tables.specs.inner.Common.{length, IfOk, IsOkUnless, OutOfMemory, AreFiguresCounted, StandAtRoundEnd, AreBounds, table_in};

use crate::histories::Histories;
use crate::lags::{cells_of, numbers_of};
use crate::tables::{VersionTable, Written};
use bench_types::Fault;
use crew::{Answered, Crew, Divided, LookJob, Parted, look_in_parts};
use planes::Number;
use round_histories::Counted;
use std::alloc::Global;
use std::sync::Wait;
use version_lags::{Piece, figures_of_pieces, piece_of};

/// The tables of all nodes and the histories, once a round's exchanges are made.
#[derive(Drop)]
pub struct Ended<N: Number, H: Written> {
    pub(crate) alloc: Global,
    pub(crate) tables: Vec<VersionTable<N, H>>,
    pub(crate) histories: Histories<N, H>,
}

impl<N: Number, H: Written> Parted for Ended<N, H> {
    ghost use Rattle.version_tables.specs.inner.Beside.{CountsStretch, MayCountStretch};

    type Answer = Result<Piece<N>, Fault>;

    ghost may = { MayCountStretch H.lists };

    ghost tells = { CountsStretch N.number N.most H.lists };

    fn look(&self, from: usize, to: usize) -> Result<Piece<N>, Fault> {
        let cells = cells_of(self.alloc, &self.tables)?;
        piece_of(self.alloc, &numbers_of(&cells, &self.histories), from, to)
    }
}

/// The figures of the tables, of which a crew counts those between two bounds each.
pub(crate) fn figures_in_parts<N: Number, H: Written, C: Crew<LookJob<Ended<N, H>>>, R: Wait>(
    rt: &R,
    crew: &C,
    ended: Ended<N, H>,
    bounds: Vec<usize>,
) -> Result<Counted<VersionTable<N, H>, Histories<N, H>>, Fault>
    requires ended { StandAtRoundEnd (table_in H.lists) ended.tables.items ended.histories }
    requires bounds { AreBounds (length ended.tables.items) bounds.items }
    ensures counted { IfOk result
        (AreFiguresCounted (table_in H.lists) (λ h. h) ended.histories ended.tables.items) }
    ensures only { IsOkUnless result OutOfMemory }
{
    let alloc = ended.alloc;
    let divided = Divided {
        whole: ended,
        bounds,
    };
    let Answered { whole, answers } = look_in_parts(rt, alloc, crew, divided)?;
    let figures = {
        let cells = cells_of(alloc, &whole.tables)?;
        figures_of_pieces(alloc, &numbers_of(&cells, &whole.histories), &answers)?
    };
    Ok(Counted {
        figures,
        tables: whole.tables,
        histories: whole.histories,
    })
}
