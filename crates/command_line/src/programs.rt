//! The program, from its words to its status.

ghost use Rattle.std.specs.Prelude.{◌≡◌, ◌≤◌, map};
ghost use Rattle.command_words.specs.Endings.{IsRefusalTold};
ghost use Rattle.command_line.specs.Endings.{HaveAnswer, IsDone, IsStoppedByFault};

use crate::jobs::{Host, perform};
use bench_types::{Discard, Push, Sink, Source};
use command_words::{answer_words, job_of, status_of};
use std::alloc::Global;
use std::convert::AsStr;
use std::rt::Files;
use std::sync::Wait;
use std::thread::Threads;

/// Does what the words behind the program's name ask for. The status is 0 if it was done; 1 after a
/// fault, whose line goes to `err`; and 2 if the words are refused, for a reason that goes to `err`.
/// Help goes to `out`. The status is the same if `err` fails.
pub fn main_with<H: Threads + Wait + Sync + Files, S: AsStr, R: Source, W: Sink, E: Sink>(
    rt: &H,
    alloc: Global,
    words: &[S],
    reader: &mut R,
    out: &mut W,
    err: &mut E,
) -> u8
    ensures status { result ≤ 2 }
    ensures done { result ≡ 0 → IsDone R.Source reader.old reader.new (map S.text words.entry.now)
        W.Sink out.old out.new E.Sink err.old err.new ⟦<Discard as Sink>⟧ ⟦<Push<H::File> as Sink>⟧ }
    ensures fault { result ≡ 1 → IsStoppedByFault R.Source reader.old reader.new (map S.text words.entry.now)
        W.Sink out.old out.new E.Sink err.old err.new ⟦<Discard as Sink>⟧ ⟦<Push<H::File> as Sink>⟧ }
    ensures refused { result ≡ 2 → HaveAnswer R.Source reader.old reader.new (map S.text words.entry.now)
        (IsRefusalTold W.Sink out.old out.new E.Sink err.old err.new) }
{
    match job_of(alloc, words) {
        Ok(job) => {
            let done = perform(&Host { rt, alloc }, job, reader, out);
            status_of(done, err)
        }
        Err(reason) => answer_words(reason, out, err),
    }
}
