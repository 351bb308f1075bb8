//! The words of nodes, and what a round takes from them.

use crate::tests::comparing::{check, expect, expect_at};
use crate::tests::exchange_lists::between;
use crate::tests::small_scenarios::{PLAIN, RANDOM, expect_counts, listed, scenario_of};
use crate::tests::word_tables::{NODES, PLACES, SEEDS, WORDS};
use bench_types::Exchange;
use bench_types::limits::MOST_ROUNDS;
use round_plan::{OwnWrite, ROUND_WORDS, RunWords, draw, peer, round_list_by, writes_of};
use scenario::Scenario;
use std::process::Abort;

// The first and the second test vector of RFC 8439, A.1, by words of four bytes.
const BLOCKS: [[u8; 4]; 32] = [
    [0x76, 0xb8, 0xe0, 0xad],
    [0xa0, 0xf1, 0x3d, 0x90],
    [0x40, 0x5d, 0x6a, 0xe5],
    [0x53, 0x86, 0xbd, 0x28],
    [0xbd, 0xd2, 0x19, 0xb8],
    [0xa0, 0x8d, 0xed, 0x1a],
    [0xa8, 0x36, 0xef, 0xcc],
    [0x8b, 0x77, 0x0d, 0xc7],
    [0xda, 0x41, 0x59, 0x7c],
    [0x51, 0x57, 0x48, 0x8d],
    [0x77, 0x24, 0xe0, 0x3f],
    [0xb8, 0xd8, 0x4a, 0x37],
    [0x6a, 0x43, 0xb8, 0xf4],
    [0x15, 0x18, 0xa1, 0x1c],
    [0xc3, 0x87, 0xb6, 0x69],
    [0xb2, 0xee, 0x65, 0x86],
    [0x9f, 0x07, 0xe7, 0xbe],
    [0x55, 0x51, 0x38, 0x7a],
    [0x98, 0xba, 0x97, 0x7c],
    [0x73, 0x2d, 0x08, 0x0d],
    [0xcb, 0x0f, 0x29, 0xa0],
    [0x48, 0xe3, 0x65, 0x69],
    [0x12, 0xc6, 0x53, 0x3e],
    [0x32, 0xee, 0x7a, 0xed],
    [0x29, 0xb7, 0x21, 0x76],
    [0x9c, 0xe6, 0x4e, 0x43],
    [0xd5, 0x71, 0x33, 0xb0],
    [0x74, 0xd8, 0x39, 0xd5],
    [0x31, 0xed, 0x1f, 0x28],
    [0x51, 0x0a, 0xfb, 0x45],
    [0xac, 0xe1, 0x0a, 0x1f],
    [0x4b, 0x79, 0x4d, 0x6f],
];

// Words of node 0, by their places.
const WORDS_OF_THE_FIRST: &[(u32, u32)] = &[
    (0, 2_917_185_654),
    (4, 3_088_700_093),
    (16, 3_202_811_807),
];

// Responders and rotations of a few nodes, by the words of `word_tables`.
const CHOSEN: &[(u32, u32, u32)] = &[(0, 1840, 701), (77, 1875, 3281), (4095, 1991, 2009)];

// By the loss, which messages of initiator 0's exchange are lost.
const LOSSES: &[(&str, [bool; 3])] = &[
    ("509331", [false, false, false]),
    ("509332", [false, false, true]),
    ("953152", [false, false, true]),
    ("953153", [false, true, true]),
    ("978656", [false, true, true]),
    ("978657", [true, true, true]),
];

// The word at a place of a node's stream, in which the rounds' words stand one round behind another.
fn expect_word(rt: &impl Abort, scenario: &Scenario, node: u32, place: u32, word: u32) {
    let round = place / ROUND_WORDS + 1;
    check!(rt; node < scenario.nodes());
    check!(rt; round <= MOST_ROUNDS);
    let found = draw(scenario, node, round, place % ROUND_WORDS);
    expect_at(rt, found, word, (node, place));
}

// The words of a seed, by place and by node.
fn expect_words(rt: &impl Abort, scenario: &Scenario, words: &[[u32; 5]; 8]) {
    for i in 0..8 {
        for j in 0..5 {
            expect_word(rt, scenario, NODES[j], PLACES[i], words[i][j]);
        }
    }
}

fn turned(initiator: u32, responder: u32, rotation: u32) -> Exchange {
    Exchange {
        rotation,
        ..between(initiator, responder)
    }
}

// The first exchange of ten nodes, where these messages are lost.
fn losing(lost: [bool; 3]) -> Exchange {
    let [lost1, lost2, lost3] = lost;
    Exchange {
        lost1,
        lost2,
        lost3,
        ..turned(0, 4, 3)
    }
}

// That these are the words of a block of a zero key, 0 or 1.
fn expect_block(rt: &impl Abort, words: &[u32; ROUND_WORDS as usize], block: usize) {
    check!(rt; block < 2);
    for place in 0..ROUND_WORDS as usize {
        let wanted = u32::from_le_bytes(BLOCKS[ROUND_WORDS as usize * block + place]);
        expect_at(rt, words[place], wanted, place);
    }
}

#[test]
fn words_of_another_program(rt: HostRuntime) {
    let rest = "nodes = 4096\nkeys = 1\nloss_ppm = 0\nwrites = 0\nseed = ";
    for (seed, words) in SEEDS.iter().zip(&WORDS) {
        let scenario = scenario_of(&rt, &[RANDOM, rest, seed]);
        expect_words(&rt, &scenario, words);
    }
}

#[test]
fn blocks_of_a_zero_key(rt: HostRuntime) {
    let scenario = scenario_of(&rt, &[RANDOM, "nodes = 2\n", PLAIN]);
    for place in 0..32 {
        let word = u32::from_le_bytes(BLOCKS[place as usize]);
        expect_word(&rt, &scenario, 0, place, word);
    }
}

// The words that a run keeps, in its first two rounds.
#[test]
fn words_kept_by_a_run(rt: HostRuntime) {
    let scenario = scenario_of(&rt, &[RANDOM, "nodes = 2\n", PLAIN]);
    check!(&rt; scenario.nodes() == 2);
    let mut words = RunWords::new(rt.alloc(), &scenario).expect(&rt, "memory");
    words.next_round();
    expect_block(&rt, words.of_node(0), 0);
    words.next_round();
    expect_block(&rt, words.of_node(0), 1);
}

// A list by words that are kept.
#[test]
fn list_by_kept_words(rt: HostRuntime) {
    let scenario = scenario_of(&rt, &[RANDOM, "nodes = 10\n", PLAIN]);
    let mut words = RunWords::new(rt.alloc(), &scenario).expect(&rt, "memory");
    words.next_round();
    let list = round_list_by(&rt, rt.alloc(), &scenario, 1, &words).expect(&rt, "memory");
    expect_counts(&rt, &list, (10, 0));
    expect(&rt, list.get(0), Some(turned(0, 4, 3)));
}

#[test]
fn words_of_ten_nodes(rt: HostRuntime) {
    let scenario = scenario_of(&rt, &[RANDOM, "nodes = 10\n", PLAIN]);
    for (place, word) in WORDS_OF_THE_FIRST {
        expect_word(&rt, &scenario, 0, *place, *word);
    }
    check!(&rt; scenario.nodes() == 10);
    expect(&rt, (peer(&scenario, 0, 1), peer(&scenario, 0, 2)), (4, 6));
    let list = listed(&rt, &scenario, 1);
    expect_counts(&rt, &list, (10, 0));
    expect(&rt, list.get(0), Some(turned(0, 4, 3)));
}

// So many nodes that threads choose their exchanges.
#[test]
fn exchanges_chosen_in_threads(rt: HostRuntime) {
    let scenario = scenario_of(&rt, &[RANDOM, "nodes = 4096\n", PLAIN]);
    let list = listed(&rt, &scenario, 1);
    expect_counts(&rt, &list, (4096, 0));
    for (node, responder, rotation) in CHOSEN {
        let wanted = turned(*node, *responder, *rotation);
        expect_at(&rt, list.get(*node), Some(wanted), *node);
    }
}

#[test]
fn loss_thresholds(rt: HostRuntime) {
    let rest = "nodes = 10\nseed = 0\nkeys = 1\nwrites = 0\nloss_ppm = ";
    for (loss_ppm, lost) in LOSSES {
        let scenario = scenario_of(&rt, &[RANDOM, rest, loss_ppm]);
        let list = listed(&rt, &scenario, 1);
        expect_at(&rt, list.get(0), Some(losing(*lost)), *loss_ppm);
    }
}

#[test]
fn first_random_write(rt: HostRuntime) {
    let rest = "nodes = 2\nseed = 0\nkeys = 10\nloss_ppm = 0\nwrites = 1\n";
    let scenario = scenario_of(&rt, &[RANDOM, rest]);
    expect_word(&rt, &scenario, 0, 8, 2_086_224_346);
    check!(&rt; scenario.nodes() == 2);
    let writes = writes_of(&scenario, 0, 1, 0);
    let wanted = OwnWrite {
        key: 6,
        value: 208_622_434,
        version: 1,
    };
    expect(&rt, writes.as_slice(), &[wanted]);
}
