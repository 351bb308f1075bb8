//! Scenarios, and what must come of them.

use bench_types::{Budget, Record, Row};
use fixtures::{
    A_NODE_DOWN, A_NODE_FORGETS, RING_OF_FOUR, TWO_NODES_CUT, Texts, Writers, row, sent,
};

/// A scenario, its texts, its rows, and the exchanges of its first round.
#[derive(Drop)]
pub(crate) struct Case {
    pub(crate) name: &'static str,
    pub(crate) texts: Texts,
    pub(crate) rows: &'static [Row],
    pub(crate) first: FirstRound,
}

/// A scenario and its rows.
#[derive(Clone, Copy)]
pub(crate) struct Rounds {
    pub(crate) scenario: &'static str,
    pub(crate) rows: &'static [Row],
}

impl Case {
    pub(crate) fn rounds(&self) -> Rounds {
        Rounds {
            scenario: self.texts.scenario,
            rows: self.rows,
        }
    }
}

/// The nodes that write in the first round, and what is exchanged then.
#[derive(Drop)]
pub(crate) struct FirstRound {
    pub(crate) writers: Writers,
    pub(crate) budget: Budget,
    pub(crate) pairs: &'static [(u32, u32)],
    pub(crate) records: &'static [Record],
    /// By node, the owners of whom it then holds all keys.
    pub(crate) held: &'static [&'static [u32]],
}

/// The four modes come to the same rows in each of them: of one owner there is one entry to send at most, or two
/// that were written in one round.
pub(crate) const CASES: [Case; 4] = [DOWN, CUT, RING, FORGETFUL];

/// A list that is tried alone.
#[derive(Drop)]
pub(crate) struct LoneList {
    pub(crate) name: &'static str,
    pub(crate) first: FirstRound,
}

pub(crate) const LISTS: [LoneList; 2] = [
    LoneList {
        name: "eight pairs",
        first: EIGHT_PAIRS,
    },
    LoneList {
        name: "branches",
        first: BRANCHES,
    },
];

/// A ring whose figures are over 33 * 33 * 64 numbers, so that threads share them.
pub(crate) const MANY_NUMBERS: Rounds = Rounds {
    scenario: "format = 1\nnodes = 33\nkeys = 64\nrounds = 1\nseed = 0\nmode = \"scuttle-breadth\"\n\
        budget = 33\npeers = \"ring\"\nrotation = \"none\"\nchoice = \"cycle\"\nloss_ppm = 0\nwrites = 1\n",
    rows: &[row!(round: 1, exchanges: 33, entries: 591, stale: 465, greatest: 1)],
};

/// The name of a case by its place: the cases, then the lists alone, then many numbers.
pub(crate) fn name_of(place: usize) -> &'static str {
    match (CASES.get(place), LISTS.get(place.wrapping_sub(CASES.len()))) {
        (Some(case), _) => case.name,
        (None, Some(list)) => list.name,
        (None, None) => "many numbers",
    }
}

// Each of the first three exchanges makes two others ready. At first one alone is, so a deque has room for one. Of two
// workers one must let its deque grow, however they steal: both fit in only where the other steals the first of them
// at once. So each worker has one of the second and the third exchange, and who puts its own back first finds the
// other still at work.
const BRANCHES: FirstRound = FirstRound {
    writers: Writers {
        nodes: 8,
        keys: 1,
        writers: 8,
    },
    budget: Budget::Entries(10),
    pairs: &[(0, 1), (0, 2), (1, 3), (0, 4), (2, 5), (1, 6), (3, 7)],
    records: &[
        sent!(1, 1, 1, 1, 0, 0),
        sent!(2, 1, 1, 2, 0, 0),
        sent!(2, 1, 1, 2, 0, 0),
        sent!(3, 1, 1, 3, 0, 0),
        sent!(3, 1, 1, 3, 0, 0),
        sent!(3, 1, 1, 3, 0, 0),
        sent!(3, 1, 1, 3, 0, 0),
    ],
    held: &[
        &[0, 1, 2, 4],
        &[0, 1, 3, 6],
        &[0, 1, 2, 5],
        &[0, 1, 3, 7],
        &[0, 1, 2, 4],
        &[0, 1, 2, 5],
        &[0, 1, 3, 6],
        &[0, 1, 3, 7],
    ],
};

// Eight pairs of nodes that share none.
const EIGHT_PAIRS: FirstRound = FirstRound {
    writers: Writers {
        nodes: 16,
        keys: 1,
        writers: 16,
    },
    budget: Budget::Entries(1),
    pairs: &[
        (0, 1),
        (2, 3),
        (4, 5),
        (6, 7),
        (8, 9),
        (10, 11),
        (12, 13),
        (14, 15),
    ],
    records: &[sent!(1, 1, 1, 1, 0, 0); 8],
    held: &[
        &[0, 1],
        &[0, 1],
        &[2, 3],
        &[2, 3],
        &[4, 5],
        &[4, 5],
        &[6, 7],
        &[6, 7],
        &[8, 9],
        &[8, 9],
        &[10, 11],
        &[10, 11],
        &[12, 13],
        &[12, 13],
        &[14, 15],
        &[14, 15],
    ],
};

// A case, by its name, its texts, its rows, and its first round.
macro_rules! case {
    (
        $name:literal, $texts:expr, rows [$(($($column:ident: $number:literal),+)),+],
        nodes $nodes:literal, keys $keys:literal, writers $writers:literal, budget $budget:expr,
        pairs $pairs:expr, records [$(($($size:literal),+)),+], held [$($held:expr),+]
    ) => {
        Case {
            name: $name,
            texts: $texts,
            rows: &[$(row!($($column: $number),+)),+],
            first: FirstRound {
                writers: Writers {
                    nodes: $nodes,
                    keys: $keys,
                    writers: $writers,
                },
                budget: $budget,
                pairs: &$pairs,
                records: &[$(sent!($($size),+)),+],
                held: &[$(&$held),+],
            },
        }
    };
}

// A node is down for two rounds, and apart from the others.
const DOWN: Case = case!(
    "a node that is down", A_NODE_DOWN,
    rows [
        (round: 1, exchanges: 1, unreached: 1, entries: 2, stale: 2, greatest: 1),
        (round: 2, exchanges: 1, unreached: 1, stale: 2, greatest: 2)
    ],
    nodes 3, keys 1, writers 2, budget Budget::Entries(10),
    pairs [(0, 1)], records [(1, 1, 1, 1, 0, 0)], held [[0, 1], [0, 1], []]
);

// Two nodes whose budget cuts.
const CUT: Case = case!(
    "two nodes with a budget that cuts", TWO_NODES_CUT, rows [(round: 1, exchanges: 2, entries: 4, cut: 2)],
    nodes 2, keys 2, writers 2, budget Budget::Entries(1),
    pairs [(0, 1), (1, 0)], records [(1, 1, 1, 1, 1, 1), (2, 2, 1, 1, 0, 0)], held [[0, 1], [0, 1]]
);

// Four nodes on a ring, of which each misses one.
const RING: Case = case!(
    "a ring of four", RING_OF_FOUR, rows [(round: 1, exchanges: 4, entries: 8, cut: 2, stale: 4, greatest: 1)],
    nodes 4, keys 1, writers 4, budget Budget::Entries(1), pairs [(0, 1), (1, 2), (2, 3), (3, 0)],
    records [(1, 1, 1, 1, 0, 0), (2, 1, 1, 1, 0, 1), (2, 1, 1, 1, 0, 1), (2, 2, 1, 1, 0, 0)],
    held [[0, 1, 3], [0, 1, 2], [0, 2, 3], [0, 1, 3]]
);

// A node forgets, and its copy is left over for a round.
const FORGETFUL: Case = case!(
    "a node that forgets", A_NODE_FORGETS,
    rows [
        (round: 1, exchanges: 2, entries: 2), (round: 2, unreached: 1, stale: 1, greatest: 2, leftover: 1),
        (round: 3, exchanges: 2, entries: 2)
    ],
    nodes 2, keys 1, writers 2, budget Budget::Bytes(1023),
    pairs [(0, 1), (1, 0)], records [(1, 1, 1, 1, 0, 0), (2, 2, 0, 0, 0, 0)], held [[0, 1], [0, 1]]
);
