//! Texts that are read, and the list of a round.

ghost use Rattle.std.specs.Prelude.{◌≡◌, IfOk};
ghost use Rattle.round_plan.specs.calls.Words.{run_words_of};

use crate::failures::{Failure, check, pass, refused, retried};
use bench_types::{Budget, Exchange, Fault, Field, Mode, TableName};
use fixtures::{between, changed, changed_in_bytes};
use round_plan::{RoundList, RunWords, round_list, round_list_by};
use scenario::{Scenario, read};
use std::thread::Threads;

// What makes ten nodes at random of two nodes.
const TEN_NODES: [(&str, &str); 4] = [
    ("nodes = 2", "nodes = 10"),
    ("ring", "random"),
    ("none", "random"),
    ("loss_ppm = 0", "loss_ppm = 509331"),
];

// What the words of its first node come to in round 1.
const FIRST: Exchange = Exchange {
    initiator: 0,
    responder: 4,
    lost1: false,
    lost2: false,
    lost3: false,
    rotation: 3,
};

// So many nodes that threads share the list of a round, in which each meets the next one.
const LONG_RING: [(&str, &str); 1] = [("nodes = 2", "nodes = 4096")];

// What makes of them two that are parted, one of which then forgets.
const FORGETFUL: [(&str, &str); 2] = [
    ("rounds = 1", "rounds = 3"),
    ("scuttle-breadth", "precise-newest"),
];

const TABLES: &str = "[[partition]]
from = 1
to = 2
apart = [0, 1]
[[restart]]
node = 1
round = 2
down = 1
forget = true
[[load]]
from = 2
to = 3
writes = 0
";

const REFUSED: [(&str, Fault); 6] = [
    ("[[parti", Fault::NotToml),
    ("", Fault::Missing(Field::Format)),
    ("format = \"1\"", Fault::WrongType(Field::Format)),
    ("format = 3", Fault::OutOfRange(Field::Format)),
    ("format = 1\nnodes = 4096\nkeys = 17", Fault::TooLarge),
    (
        "format = 1\nnodes = 1\nkeys = 17",
        Fault::OutOfRange(Field::Nodes),
    ),
];

// A field that no table has, behind a whole text.
const UNKNOWN: &str = "note = 1";

fn accepted<R: Eprint + AllocGlobal>(rt: &R, text: &str) -> Result<Scenario, Failure> {
    let alloc = rt.alloc();
    Ok(retried!(rt, "read", read(alloc, text.as_bytes())))
}

// The scenario of the text that these changes make.
fn accepted_with<R: Eprint + AllocGlobal>(
    rt: &R,
    changes: &[(&str, &str)],
) -> Result<Scenario, Failure> {
    let alloc = rt.alloc();
    let text = retried!(
        rt,
        "changed",
        changed(alloc, changes, "").map_err(Fault::from)
    );
    accepted(rt, text.as_str())
}

fn check_fault<R: Eprint + AllocGlobal>(rt: &R, text: &str, wanted: &Fault) -> Result<(), Failure> {
    let mut answer = read(rt.alloc(), text.as_bytes());
    if let Err(Fault::OutOfMemory) = answer {
        refused(rt, "read", Fault::OutOfMemory)?;
        answer = read(rt.alloc(), text.as_bytes());
    }
    match answer {
        Err(fault) if fault == *wanted => Ok(()),
        Err(fault) => Err(Failure::Fault(fault)),
        Ok(_) => Err(Failure::Wrong),
    }
}

fn check_ten_nodes(scenario: &Scenario) -> Result<(), Failure> {
    check((scenario.nodes(), scenario.keys(), scenario.loss_ppm()) == (10, 1, 509_331))?;
    check(scenario.mode() == Mode::ScuttleBreadth && scenario.budget() == Budget::Entries(1))
}

fn check_forgetful(scenario: &Scenario) -> Result<(), Failure> {
    check(scenario.mode() == Mode::PreciseNewest && scenario.budget() == Budget::Bytes(1023))?;
    check(
        scenario.partitions().len() == 1
            && scenario.restarts().len() == 1
            && scenario.loads().len() == 1,
    )
}

fn try_read<R: Eprint + AllocGlobal>(rt: &R) -> Result<(), Failure> {
    let alloc = rt.alloc();
    let text = retried!(
        rt,
        "changed_in_bytes",
        changed_in_bytes(alloc, &FORGETFUL, TABLES).map_err(Fault::from)
    );
    check_forgetful(&accepted(rt, text.as_str())?)?;
    for (text, fault) in REFUSED {
        check_fault(rt, text, &fault)?;
    }
    Ok(())
}

fn try_round_list<R: Eprint + AllocGlobal + Threads + Sync>(
    rt: &R,
    scenario: &Scenario,
) -> Result<(), Failure> {
    let alloc = rt.alloc();
    let list = retried!(rt, "round_list", round_list(rt, alloc, scenario, 1));
    check_list(&list)
}

fn check_list(list: &RoundList) -> Result<(), Failure> {
    check((list.nodes(), list.len(), list.unreached()) == (10, 10, 0))?;
    check(list.get(0) == Some(FIRST))
}

fn check_long_ring(list: &RoundList) -> Result<(), Failure> {
    check((list.nodes(), list.len(), list.unreached()) == (4096, 4096, 0))?;
    check(
        list.exchanges().iter().zip(0..4096).all(|(exchange, node)| *exchange
            == between(node, node.wrapping_add(1) % 4096)),
    )
}

fn try_long_ring<R: Eprint + AllocGlobal + Threads + Sync>(rt: &R) -> Result<(), Failure> {
    let alloc = rt.alloc();
    let scenario = accepted_with(rt, &LONG_RING)?;
    let list = retried!(rt, "round_list", round_list(rt, alloc, &scenario, 1));
    check_long_ring(&list)
}

// The words before the first round.
fn run_words<R: Eprint + AllocGlobal>(rt: &R, scenario: &Scenario) -> Result<RunWords, Failure>
    ensures { IfOk result (λ words. words ≡ run_words_of scenario.now 0) }
{
    let alloc = rt.alloc();
    Ok(retried!(rt, "RunWords::new", RunWords::new(alloc, scenario)))
}

fn try_round_list_by<R: Eprint + AllocGlobal + Threads + Sync>(
    rt: &R,
    scenario: &Scenario,
) -> Result<(), Failure> {
    let alloc = rt.alloc();
    let mut words = run_words(rt, scenario)?;
    words.next_round();
    let list = retried!(
        rt,
        "round_list_by",
        round_list_by(rt, alloc, scenario, 1, &words)
    );
    check_list(&list)
}

pub(crate) fn try_scenarios<R: Print + Eprint + AllocGlobal + Threads + Sync>(
    rt: &R,
) -> Result<(), Failure> {
    let ten_nodes = accepted_with(rt, &TEN_NODES)?;
    check_ten_nodes(&ten_nodes)?;
    try_read(rt)?;
    pass(rt, "read")?;
    try_round_list(rt, &ten_nodes)?;
    try_long_ring(rt)?;
    pass(rt, "round_list")?;
    try_round_list_by(rt, &ten_nodes)?;
    pass(rt, "round_list_by")
}
