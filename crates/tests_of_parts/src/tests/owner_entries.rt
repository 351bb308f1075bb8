//! An owner that wrote in two of its three generations: which write has which number.

use crate::tests::comparing::{check, expect_at};
use staleness::OwnerList;
use std::alloc::Global;
use std::process::Abort;

// What it wrote in generation 0 and in generation 2, by key, value and round. In generation 1 it wrote nothing.
const FIRST: [[u32; 3]; 3] = [[5, 70, 1], [3, 71, 1], [5, 72, 2]];

const LAST: [[u32; 3]; 2] = [[3, 90, 6], [4, 91, 7]];

// A number, and the version, the key, the value and the round of its write, if there is one.
const NUMBERED: [(u32, Option<[u32; 4]>); 7] = [
    (0, None),
    (1, Some([1, 5, 70, 1])),
    (2, Some([2, 3, 71, 1])),
    (3, Some([3, 5, 72, 2])),
    (4, Some([1, 3, 90, 6])),
    (5, Some([2, 4, 91, 7])),
    (6, None),
];

fn write_all(rt: &impl Abort, list: &mut OwnerList, writes: &[[u32; 3]]) {
    for [key, value, born] in writes {
        check!(rt; list.len() < 1000);
        list.write(*key, *value, *born).expect(rt, "memory");
    }
}

fn begin(rt: &impl Abort, list: &mut OwnerList) {
    check!(rt; list.generation() < 1000);
    list.begin_generation();
}

fn written(rt: &impl Abort, alloc: Global) -> OwnerList {
    let mut list = OwnerList::new(alloc);
    write_all(rt, &mut list, &FIRST);
    begin(rt, &mut list);
    begin(rt, &mut list);
    write_all(rt, &mut list, &LAST);
    list
}

// Its generation, and how many writes it has of it.
fn expect_counts(rt: &impl Abort, list: &OwnerList, wanted: [u32; 2]) {
    expect_at(
        rt,
        [list.generation(), list.len()],
        wanted,
        "generation and writes",
    );
}

fn expect_numbered(rt: &impl Abort, list: &OwnerList, number: u32, wanted: Option<[u32; 4]>) {
    let found = match list.numbered(number) {
        Some(write) => Some([write.version, write.key, write.value, write.born]),
        None => None,
    };
    expect_at(rt, found, wanted, "write");
}

#[test]
fn a_write_of_any_generation_has_its_number(rt: HostRuntime) {
    let list = written(&rt, rt.alloc());
    expect_counts(&rt, &list, [2, 2]);
    for (number, wanted) in NUMBERED {
        expect_numbered(&rt, &list, number, wanted);
    }
}

#[test]
fn a_list_that_forgot_is_as_a_new_one(rt: HostRuntime) {
    let mut list = written(&rt, rt.alloc());
    list.forget();
    expect_counts(&rt, &list, [0, 0]);
    for (number, _) in NUMBERED {
        expect_numbered(&rt, &list, number, None);
    }
}
