//! Inputs whose reader fails.

use crate::tests::comparing::{check, expect};
use bench::read_all;
use bench_types::{Fault, Pull};
use fixtures::Halting;
use std::io::ErrorKind;

// Four bytes at each call take three, and the fourth call is the one that gives no byte.
const TEN: &[u8] = b"0123456789";

// Gives these bytes, four at each call, and is interrupted after so many.
fn source(calls: usize) -> Pull<Halting<'static>> {
    Pull::new(Halting {
        rest: TEN,
        step: 4,
        calls: Some(calls),
        kind: ErrorKind::Interrupted,
    })
}

// A source that has failed fails again.
#[test]
fn readers_that_fail(rt: HostRuntime) -> Result<(), Fault> {
    for calls in 0..4 {
        let mut reader = source(calls);
        for _ in 0..2 {
            let fault = read_all(rt.alloc(), &mut reader).err();
            expect(&rt, (calls, fault), (calls, Some(Fault::ReadFailed)));
        }
    }
    for calls in 4..6 {
        let text = read_all(rt.alloc(), &mut source(calls))?;
        check!(&rt; text.as_slice() == TEN);
    }
    Ok(())
}
