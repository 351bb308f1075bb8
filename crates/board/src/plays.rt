//! The rule of a board's table, and the names of its steps.
ghost use Rattle.board.specs.Rule.{Orderly};
ghost use Rattle.board.specs.inner.Plays.{opened_view, claimed, emptied, retaken, finished, released, looked, halted, shown, left, right, both, spent};
ghost use Rattle.board.specs.Keys.{key_plan};
ghost use Rattle.board.specs.Models.{state_model, TellsOf};

use crate::views::View;
use atomic_table::{Join, Play, Split, TableRule};
use bench_types::Rules;
use dependencies::Deps;
use model::MemoryTable;
use std::marker::PhantomData;
use std::snapshot::Snapshot;

// What a board was made of, which its rule reads.
#[derive(Drop)]
pub struct BoardKey<T> {
    pub rules: Rules,
    pub list: Snapshot<Deps>,
    pub tables: Snapshot<Vec<T>>,
}

// The rule of the table: what holds between any two steps of any threads.
#[derive(Drop)]
pub struct Order<T>(PhantomData<T>);

impl<T: MemoryTable> TableRule<Option<T>, View, BoardKey<T>> for Order<T> {
    ghost holds = { λ key s. Orderly (key_plan T.table key) (state_model T.table s) };

    ghost first = { λ key. opened_view (key_plan T.table key) };
}

// A seat is split: one part goes to another.
pub struct Part;

impl Split<View> for Part {
    ghost left = { left };

    ghost right = { right };
}

// A seat takes in another, which is spent then.
pub struct Both;

impl Join<View> for Both {
    ghost both = { both };

    ghost spent = { spent };
}

// A claim, at the word of an exchange: where it was 0, the seat gets both tables and leaves empty slots owed.
pub struct Take;

impl<T: MemoryTable> Play<Option<T>, View> for Take {
    ghost then = { TellsOf T.table claimed };
}

// The emptied slots go back, at the count word: the exchange is held.
pub struct Empty;

impl<T: MemoryTable> Play<Option<T>, View> for Empty {
    ghost then = { TellsOf T.table emptied };
}

// A put-back begins, at the word of the exchange: the seat gets its two empty slots again.
pub struct Retake;

impl<T: MemoryTable> Play<Option<T>, View> for Retake {
    ghost then = { TellsOf T.table retaken };
}

// The filled slots go back, at the count word, which rises by one exchange. The seat owes the releases.
pub struct Finish;

impl<T: MemoryTable> Play<Option<T>, View> for Finish {
    ghost then = { TellsOf T.table finished };
}

// The first release that is owed, at the word of the exchange that waits: one predecessor less.
pub struct Release;

impl<T: MemoryTable> Play<Option<T>, View> for Release {
    ghost then = { TellsOf T.table released };
}

// A look at the count word.
pub struct Look;

impl<T: MemoryTable> Play<Option<T>, View> for Look {
    ghost then = { TellsOf T.table looked };
}

// A stop, at the lowest bit of the count word.
pub struct Halt;

impl<T: MemoryTable> Play<Option<T>, View> for Halt {
    ghost then = { TellsOf T.table halted };
}

// A look that changes nothing, for the promises of what a joined seat has.
pub struct Show;

impl<T: MemoryTable> Play<Option<T>, View> for Show {
    ghost then = { TellsOf T.table shown };
}
