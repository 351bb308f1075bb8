//! What a round came to.

ghost use Rattle.std.specs.Prelude.{◌≡◌, ◌+◌, ◌<◌, ◌≤◌, ◌^◌, length};
ghost use Rattle.played_rounds.specs.calls.Outcomes.{played_with};
ghost use Rattle.model.specs.declared.lists.TheConstants.{MOST_EXCHANGES};
ghost use Rattle.played_rounds.specs.Rows.{row_of, has_lost};

use bench_types::{Fate, Figures, Record, Row};
use model::RoundList;
use std::marker::Model;

/// A round that was carried out.
#[derive(Debug, Drop)]
pub struct Round {
    row: Row,
    list: RoundList,
    records: Vec<Record>,
    figures: Figures,
}

impl Model for Round {
    ghost use Rattle.std.specs.Prelude.{◌≡◌, length};
    ghost use Rattle.played_rounds.specs.calls.RoundView.{RoundView};

    ghost Value = { RoundView };

    ghost view = { λ r. record { row = r.row; list = r.list; records = r.records.items; figures = r.figures } };

    ghost invariant = { λ r. length r.records.items ≡ length r.list.exchanges };
}

impl Round {
    pub(crate) fn of(round: u32, list: RoundList, records: Vec<Record>, figures: Figures) -> Round
        requires { length records.items ≡ length list.exchanges }
        ensures { result ≡ played_with round list records.items figures }
    {
        let row = row_of(round, &list, &records, figures);
        Round {
            row,
            list,
            records,
            figures,
        }
    }

    /// The round's row of the report.
    pub fn row(&self) -> Row
        ensures { result ≡ self.now.row }
    {
        self.row
    }

    /// The exchanges of the round, in order, and how many nodes reached no peer.
    pub fn list(&self) -> &RoundList
        ensures { result.now ≡ self.now.list }
    {
        &self.list
    }

    /// What was sent in each exchange, in the order of the round's list.
    pub fn records(&self) -> &[Record]
        ensures value { result.now ≡ self.now.records }
        ensures count { length result.now ≡ length self.now.list.exchanges }
    {
        &self.records
    }

    /// How far the copies lagged at the end of the round.
    pub fn figures(&self) -> Figures
        ensures { result ≡ self.now.figures }
    {
        self.figures
    }
}

fn row_of(round: u32, list: &RoundList, records: &[Record], figures: Figures) -> Row
    requires { length records.now ≤ MOST_EXCHANGES }
    ensures { result ≡ row_of round list.now records.now figures }
{
    let mut lost = 0;
    let mut entries = 0;
    let mut cut = 0;
    for record in records {
        lost += u32::from(has_lost(record.fate));
        entries += both(record.back, record.forth);
        cut += both(record.back_cut, record.forth_cut);
    }
    Row {
        round,
        exchanges: list.len(),
        unreached: list.unreached(),
        lost,
        entries,
        cut,
        stale: figures.stale,
        greatest: figures.greatest,
        leftover: figures.leftover,
    }
}

// What went both ways.
fn both(back: u32, forth: u32) -> u64
    ensures sum { result ≡ back + forth }
    ensures few { result < 2 ^ 33 }
{
    u64::from(back) + u64::from(forth)
}

fn has_lost(fate: Fate) -> bool
    ensures { result ≡ has_lost fate }
{
    match fate {
        Fate::Ok => false,
        Fate::Lost1 | Fate::Lost2 | Fate::Lost3 => true,
    }
}
