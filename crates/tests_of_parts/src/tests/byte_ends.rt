//! Sources and sinks over memory. That they stay failed is said by their contracts.

use crate::tests::comparing::{check, expect};
use bench_types::{Discard, Failed, Pull, Push, Sink, Source};
use std::alloc::AllocGlobal;
use std::process::Abort;

// What four bytes take of "gossip", call by call, and how many bytes that is.
const PIECES: &[(usize, &[u8])] = &[(4, b"goss"), (2, b"ip"), (0, b"")];

// Compares the answer of a source, and what then stands in front of the bytes that it was to fill.
fn expect_pulled(
    rt: &impl Abort,
    source: &mut impl Source,
    buffer: &mut [u8; 4],
    answer: Result<usize, Failed>,
    front: &[u8],
) {
    expect(rt, source.pull(buffer), answer);
    check!(rt; front.len() <= buffer.len());
    expect(rt, &buffer[..front.len()], front);
}

fn expect_pushed(
    rt: &impl Abort,
    sink: &mut impl Sink,
    bytes: &[u8],
    answer: Result<usize, Failed>,
) {
    expect(rt, sink.push(bytes), answer);
}

fn expect_flushed(rt: &impl Abort, sink: &mut impl Sink, answer: Result<(), Failed>) {
    expect(rt, sink.flush(), answer);
}

fn pull_from_memory(rt: &impl Abort) {
    let mut source = Pull::new(b"gossip".as_slice());
    let mut buffer = [0; 4];
    for (count, bytes) in PIECES {
        expect_pulled(rt, &mut source, &mut buffer, Ok(*count), bytes);
    }
    expect(rt, source.pull(&mut []), Ok(0));
    expect(rt, source.into_inner().len(), 0);
}

fn push_to_memory(rt: &(impl Abort + AllocGlobal)) {
    let mut sink = Push::new(Vec::new(rt.alloc()));
    for (count, bytes) in PIECES {
        expect_pushed(rt, &mut sink, bytes, Ok(*count));
    }
    expect_flushed(rt, &mut sink, Ok(()));
    expect(rt, sink.into_inner().as_slice(), b"gossip");
}

#[test]
fn bytes_through_memory(rt: HostRuntime) {
    pull_from_memory(&rt);
    push_to_memory(&rt);
}

#[test]
fn discarded_bytes(rt: HostRuntime) {
    let mut sink = Discard;
    expect_pushed(&rt, &mut sink, b"gossip", Ok(6));
    expect_pushed(&rt, &mut sink, b"", Ok(0));
    expect_flushed(&rt, &mut sink, Ok(()));
}
