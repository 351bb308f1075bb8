//! What an accepted scenario says.

use crate::tests::comparing::{check, expect};
use bench::check_input;
use bench_types::{Budget, Fault, Mode, Pull};
use fixtures::{changed, changed_in_bytes};
use scenario::{Choice, Load, Partition, Peers, Restart, Rotation, Scenario, read};
use std::process::Abort;

const TEXT: &str = "\
writes = 8
loss_ppm = 999_999
choice = 'random'
rotation = 'random'
peers = 'random'
budget = 65535
mode = 'precise-newest'
seed = 0x2a
rounds = 100_000
keys = 64
nodes = 2_048 # half of the most
format = 1
";

fn expect_numbers(rt: &impl Abort, scenario: &Scenario) {
    let sizes = [
        scenario.format(),
        scenario.nodes(),
        scenario.keys(),
        scenario.rounds(),
    ];
    expect(rt, sizes, [1, 2048, 64, 100_000]);
    let rules = [scenario.loss_ppm(), scenario.writes()];
    expect(rt, rules, [999_999, 8]);
    let budget = scenario.budget();
    check!(rt; scenario.seed() == 42 && budget == Budget::Entries(65_535));
}

#[test]
fn values_of_the_fields(rt: HostRuntime) -> Result<(), Fault> {
    let scenario = check_input(rt.alloc(), &mut Pull::new(TEXT.as_bytes()))?;
    expect_numbers(&rt, &scenario);
    expect(&rt, scenario.mode(), Mode::PreciseNewest);
    let words = (scenario.peers(), scenario.rotation(), scenario.choice());
    let random = (Peers::Random, Rotation::Random, Choice::Random);
    expect(&rt, words, random);
    check!(&rt; scenario.partitions().is_empty());
    check!(&rt; scenario.restarts().is_empty());
    check!(&rt; scenario.loads().is_empty());
    Ok(())
}

const BYTES: [(&str, u32); 2] = [
    ("budget_bytes = 1023", 1023),
    ("budget_bytes = 67_108_864", 67_108_864),
];

#[test]
fn byte_budget_limits(rt: HostRuntime) -> Result<(), Fault> {
    for (line, bytes) in BYTES {
        let changes = [("format = 1", "format = 2"), ("budget = 1", line)];
        let text = changed(rt.alloc(), &changes, "")?;
        let scenario = read(rt.alloc(), text.as_bytes())?;
        check!(&rt; scenario.format() == 2);
        expect(&rt, scenario.budget(), Budget::Bytes(bytes));
    }
    Ok(())
}

const SECTIONS: &str = "\
[[load]]
from = 4
to = 100000
writes = 0
[[partition]]
from = 1
to = 3
apart = [0, 2, 4]
[[restart]]
node = 4
round = 7
down = 2
[[partition]]
from = 5
to = 5
apart = []
[[restart]]
node = 4
round = 7
down = 0
";

// The same as inline tables.
const INLINE: &str = "\
partition = [{ apart = [0, 2, 4], from = 1, to = 3 }, { from = 5, to = 5, apart = [] }]
restart = [{ node = 4, round = 7, down = 2 }, { node = 4, round = 7, down = 0 }]
load = [{ from = 4, to = 100_000, writes = 0 }]
";

fn expect_partition(rt: &impl Abort, found: &Partition, from: u32, to: u32, apart: &[u32]) {
    expect(rt, (found.from, found.to), (from, to));
    expect(rt, found.apart.as_slice(), apart);
}

const RESTARTS: [Restart; 2] = [
    Restart {
        node: 4,
        round: 7,
        down: 2,
        forget: false,
    },
    Restart {
        node: 4,
        round: 7,
        down: 0,
        forget: false,
    },
];

const LOADS: [Load; 1] = [Load {
    from: 4,
    to: 100_000,
    writes: 0,
}];

fn expect_partitions(rt: &impl Abort, found: &[Partition]) {
    check!(rt; found.len() == 2);
    expect_partition(rt, &found[0], 1, 3, &[0, 2, 4]);
    expect_partition(rt, &found[1], 5, 5, &[]);
}

#[test]
fn values_of_the_elements(rt: HostRuntime) -> Result<(), Fault> {
    for tables in [SECTIONS, INLINE] {
        let text = changed(rt.alloc(), &[("nodes = 2", "nodes = 5")], tables)?;
        let scenario = read(rt.alloc(), text.as_bytes())?;
        expect_partitions(&rt, scenario.partitions());
        expect(&rt, scenario.restarts(), RESTARTS.as_slice());
        expect(&rt, scenario.loads(), LOADS.as_slice());
    }
    Ok(())
}

// In format 2, a restart that forgets and one that says nothing of it.
const FORGETTING: &str = "[[restart]]\nnode = 1\nround = 3\ndown = 1\nforget = true\n\
    [[restart]]\nnode = 0\nround = 3\ndown = 0\n";

const FORGETTING_RESTARTS: [Restart; 2] = [
    Restart {
        node: 1,
        round: 3,
        down: 1,
        forget: true,
    },
    Restart {
        node: 0,
        round: 3,
        down: 0,
        forget: false,
    },
];

#[test]
fn restarts_that_forget(rt: HostRuntime) -> Result<(), Fault> {
    let text = changed_in_bytes(rt.alloc(), &[], FORGETTING)?;
    let scenario = read(rt.alloc(), text.as_bytes())?;
    expect(&rt, scenario.restarts(), FORGETTING_RESTARTS.as_slice());
    Ok(())
}

#[test]
fn another_mode(rt: HostRuntime) -> Result<(), Fault> {
    let tables = "[[restart]]\nnode = 1\nround = 1\ndown = 0\n";
    let text = changed(rt.alloc(), &[("seed = 0", "seed = 7")], tables)?;
    let scenario = read(rt.alloc(), text.as_bytes())?.with_mode(Mode::PreciseOldest);
    expect(&rt, scenario.mode(), Mode::PreciseOldest);
    expect(&rt, scenario.seed(), 7);
    expect(&rt, scenario.restarts().len(), 1);
    Ok(())
}
