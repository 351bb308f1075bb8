//! Ends that go byte by byte and fail at each place of a run of two rounds, and flushes of what else the program
//! prints. How the program meets reads and writes that fail is tried by `scripts/try_program`.

use crate::tests::comparing::{check, expect};
use bench::{compare, run};
use bench_types::{Fault, Field, Pull, Push, write_text};
use fixtures::{
    ALL, Drip, FOUR_MODES, FOUR_MODES_COMPARED, Halting, RESTART_WITHOUT_DOWNTIME, Taking, Team,
};
use std::alloc::{AllocError, AllocGlobal, Global};
use std::io::ErrorKind;
use std::process::Abort;
use std::sync::Wait;
use std::thread::Threads;

#[derive(Clone, Copy, PartialEq)]
enum End {
    Report,
    Trace,
}

// What the run writes, in this order, each part followed by a flush.
const PARTS: [(End, &str); 6] = [
    (
        End::Report,
        "round,exchanges,unreached,lost,entries,cut,stale,greatest\n",
    ),
    (
        End::Trace,
        "round,index,initiator,responder,fate,digest1,digest2,back,forth,back_cut,forth_cut\n",
    ),
    (
        End::Trace,
        "1,0,0,1,ok,1,1,1,1,0,0\n1,1,1,0,ok,2,2,0,0,0,0\n",
    ),
    (End::Report, "1,2,0,0,2,0,0,0\n"),
    (
        End::Trace,
        "2,0,0,1,ok,2,1,0,1,0,0\n2,1,1,0,ok,2,2,0,0,0,0\n",
    ),
    (End::Report, "2,2,0,0,1,0,0,0\n"),
];

// What the first so many parts bring to an end.
fn brought(alloc: Global, end: End, parts: usize) -> Result<String, AllocError> {
    let mut text = String::new(alloc);
    for (at, part) in PARTS.iter().take(parts) {
        if *at == end {
            text.push_str(part)?;
        }
    }
    Ok(text)
}

// How many calls the ends of a run answer before they fail.
#[derive(Clone, Copy)]
struct Calls {
    reads: Option<usize>,
    report: Taking,
    trace: Taking,
}

const NEVER_FAILS: Calls = Calls {
    reads: None,
    report: ALL,
    trace: ALL,
};

fn calls_of(end: End, taking: Taking) -> Calls {
    match end {
        End::Report => Calls {
            report: taking,
            ..NEVER_FAILS
        },
        End::Trace => Calls {
            trace: taking,
            ..NEVER_FAILS
        },
    }
}

// What a run answers, and what it has written.
#[derive(Drop)]
struct Ran {
    answer: Result<(), Fault>,
    report: Vec<u8>,
    trace: Vec<u8>,
}

// A run of this text that reads and writes byte by byte until an end fails.
fn run_until(
    rt: &(impl Threads + Wait + AllocGlobal + Sync),
    text: &str,
    calls: Calls,
    team: Team,
) -> Ran {
    let alloc = rt.alloc();
    let mut reader = Pull::new(Halting {
        rest: text.as_bytes(),
        step: 1,
        calls: calls.reads,
        kind: ErrorKind::Other,
    });
    let mut report = Push::new(Drip::new(alloc, calls.report));
    let mut trace = Push::new(Drip::new(alloc, calls.trace));
    let answer = run(
        rt,
        alloc,
        &mut reader,
        &mut report,
        &mut trace,
        team.workers(),
    );
    Ran {
        answer,
        report: report.into_inner().taken,
        trace: trace.into_inner().taken,
    }
}

// An end to which at least the first so many parts were written, and no more than the first so many.
fn expect_written(
    rt: &impl Abort,
    alloc: Global,
    end: End,
    written: &[u8],
    (least, most): (usize, usize),
) -> Result<(), AllocError> {
    let front = brought(alloc, end, least)?;
    let whole = brought(alloc, end, most)?;
    assert!(rt; written.starts_with(front.as_bytes()), "part {least}");
    assert!(rt; whole.as_bytes().starts_with(written), "part {least}");
    Ok(())
}

// A run in which a writer failed within the part behind the first so many: what was flushed stands in
// front, and what was written is the beginning of the whole.
fn expect_front(rt: &impl Abort, alloc: Global, ran: &Ran, parts: usize) -> Result<(), AllocError> {
    expect(rt, &ran.answer, &Err(Fault::WriteFailed));
    let parts = (parts, PARTS.len());
    expect_written(rt, alloc, End::Report, &ran.report, parts)?;
    expect_written(rt, alloc, End::Trace, &ran.trace, parts)
}

// A run that answers this fault of its input, and writes nothing.
fn expect_nothing(rt: &impl Abort, ran: Ran, fault: Fault) {
    expect(rt, ran.answer, Err(fault));
    check!(rt; ran.report.is_empty() && ran.trace.is_empty());
}

// Runs of no text, of one that can't be read to its end, and one whose first write fails.
fn expect_no_begin(
    rt: &(impl Threads + Wait + Abort + AllocGlobal + Sync),
    team: Team,
) -> Result<(), AllocError> {
    let empty = run_until(rt, "", NEVER_FAILS, team);
    expect_nothing(rt, empty, Fault::Missing(Field::Format));
    for reads in 0..=RESTART_WITHOUT_DOWNTIME.len() {
        let calls = Calls {
            reads: Some(reads),
            ..NEVER_FAILS
        };
        let ran = run_until(rt, RESTART_WITHOUT_DOWNTIME, calls, team);
        expect_nothing(rt, ran, Fault::ReadFailed);
    }
    let at_once = calls_of(End::Report, Taking { writes: 0, ..ALL });
    let ran = run_until(rt, RESTART_WITHOUT_DOWNTIME, at_once, team);
    expect_front(rt, rt.alloc(), &ran, 0)
}

#[test]
fn empty_input_and_failing_ends(rt: HostRuntime) -> Result<(), Fault> {
    for team in Team::ALL {
        expect_no_begin(&rt, team)?;
    }
    Ok(())
}

// One read more than the text has bytes finds its end, and each end is flushed three times.
#[test]
fn byte_by_byte(rt: HostRuntime) -> Result<(), Fault> {
    let taking = Taking { flushes: 3, ..ALL };
    let calls = Calls {
        reads: Some(RESTART_WITHOUT_DOWNTIME.len() + 1),
        report: taking,
        trace: taking,
    };
    for team in Team::ALL {
        let ran = run_until(&rt, RESTART_WITHOUT_DOWNTIME, calls, team);
        expect(&rt, ran.answer, Ok(()));
        let all = (PARTS.len(), PARTS.len());
        expect_written(&rt, rt.alloc(), End::Report, &ran.report, all)?;
        expect_written(&rt, rt.alloc(), End::Trace, &ran.trace, all)?;
    }
    Ok(())
}

// Runs in which a writer fails at each byte of the part behind the first so many.
fn expect_fronts(
    rt: &(impl Threads + Wait + Abort + AllocGlobal + Sync),
    place: usize,
    (end, part): (End, &str),
    team: Team,
) -> Result<(), AllocError> {
    let before = brought(rt.alloc(), end, place)?.len();
    for within in 0..part.len() {
        let taking = Taking {
            writes: before.saturating_add(within),
            ..ALL
        };
        let calls = calls_of(end, taking);
        let ran = run_until(rt, RESTART_WITHOUT_DOWNTIME, calls, team);
        expect_front(rt, rt.alloc(), &ran, place)?;
    }
    Ok(())
}

#[test]
fn writes_that_fail(rt: HostRuntime) -> Result<(), Fault> {
    for team in Team::ALL {
        for (place, part) in PARTS.iter().enumerate() {
            expect_fronts(&rt, place, *part, team)?;
        }
    }
    Ok(())
}

// After how many flushes of this end the first so many parts are written.
const FLUSHES: [(usize, End, usize); 6] = [
    (0, End::Report, 0),
    (1, End::Trace, 0),
    (2, End::Trace, 1),
    (3, End::Report, 1),
    (4, End::Trace, 2),
    (5, End::Report, 2),
];

#[test]
fn flushes_that_fail(rt: HostRuntime) -> Result<(), Fault> {
    for team in Team::ALL {
        for (place, end, flushes) in FLUSHES {
            let calls = calls_of(end, Taking { flushes, ..ALL });
            let ran = run_until(&rt, RESTART_WITHOUT_DOWNTIME, calls, team);
            expect_front(&rt, rt.alloc(), &ran, place)?;
        }
    }
    Ok(())
}

// What a comparison answers whose writer answers so many flushes, and what it has written.
fn compared_until(
    rt: &(impl Threads + Wait + AllocGlobal + Sync),
    flushes: usize,
    team: Team,
) -> (Result<(), Fault>, Vec<u8>) {
    let mut reader = Pull::new(FOUR_MODES.as_bytes());
    let mut writer = Push::new(Drip::new(rt.alloc(), Taking { flushes, ..ALL }));
    let answer = compare(rt, rt.alloc(), &mut reader, &mut writer, team.workers());
    (answer, writer.into_inner().taken)
}

// A comparison whose writer answers so many flushes answers this, and has written so much.
fn expect_compared(
    rt: &(impl Threads + Wait + Abort + AllocGlobal + Sync),
    (flushes, length): (usize, usize),
    team: Team,
    wanted: Result<(), Fault>,
) {
    let (answer, written) = compared_until(rt, flushes, team);
    let workers = team.workers();
    expect(rt, (workers, answer), (workers, wanted));
    expect(rt, (workers, written.len()), (workers, length));
    assert!(rt;
        FOUR_MODES_COMPARED.as_bytes().starts_with(&written),
        "{flushes}"
    );
}

// Each line is flushed.
#[test]
fn flushes_of_a_comparison_that_fail(rt: HostRuntime) {
    for team in Team::ALL {
        let mut length = 0usize;
        for (flushes, line) in FOUR_MODES_COMPARED.split_inclusive('\n').enumerate() {
            length = length.saturating_add(line.len());
            expect_compared(&rt, (flushes, length), team, Err(Fault::WriteFailed));
        }
        expect_compared(&rt, (9, length), team, Ok(()));
    }
}

// What `check` prints, to a writer that answers so many flushes.
fn expect_printed(rt: &(impl Abort + AllocGlobal), flushes: usize, wanted: Result<(), Fault>) {
    let mut writer = Push::new(Drip::new(rt.alloc(), Taking { flushes, ..ALL }));
    expect(rt, write_text(&mut writer, b"ok\n"), wanted);
    expect(rt, writer.into_inner().taken.as_slice(), b"ok\n");
}

#[test]
fn flushes_of_a_text_that_fail(rt: HostRuntime) {
    expect_printed(&rt, 0, Err(Fault::WriteFailed));
    expect_printed(&rt, 1, Ok(()));
}
