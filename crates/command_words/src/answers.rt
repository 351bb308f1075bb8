//! What is told of a fault, and of words that ask for no job, and the status after it.

ghost use Rattle.std.specs.Prelude.{◌≡◌, ◌≤◌};
ghost use Rattle.bench_types.specs.declared.faults.Fault.{Fault};
ghost use Rattle.command_words.specs.Endings.{IsAnswerFault, IsHelpWritten, IsRefusalTold};
ghost use Rattle.command_words.specs.Statuses.{IsTold, told_of};
ghost use Rattle.command_words.specs.calls.Statuses.{IsOutcomeTold, status_of};

use crate::lines::line_of;
use crate::words::NoJob;
use bench_types::{Fault, Sink, write_text};

// What the program ends with.
const DONE: u8 = 0;

const FAULT: u8 = 1;

/// What the program ends with where its words are refused.
pub const REFUSED: u8 = 2;

/// The status after a job, or after help: 0 if it was done, and 1 after a fault, whose line goes to `err`. It is the
/// same if `err` fails.
pub fn status_of<E: Sink>(done: Result<(), Fault>, err: &mut E) -> u8
    ensures status { result ≡ status_of done }
    ensures told { IsOutcomeTold E.Sink err.old err.new done }
{
    match done {
        Ok(()) => DONE,
        Err(fault) => {
            let mut line = line_of(&fault);
            line.push_str("\n");
            tell(line.as_str(), err);
            FAULT
        }
    }
}

/// Answers words that ask for no job, and gives the status. Help goes to `out`, with status 0; the reason of a refusal
/// goes to `err`, with status 2. The status is 1 if help can't be written, or memory ran out, and the line of that
/// fault goes to `err`. It is the same if `err` fails.
pub fn answer_words<W: Sink, E: Sink>(reason: NoJob, out: &mut W, err: &mut E) -> u8
    ensures status { result ≤ 2 }
    ensures done { result ≡ 0 → IsHelpWritten W.Sink out.old out.new reason × (err.new ≡ err.old) }
    ensures fault { result ≡ 1 → (fault : Fault) × IsAnswerFault W.Sink out.old out.new fault reason
        × IsTold E.Sink err.old err.new (told_of fault) }
    ensures refused { result ≡ 2 → IsRefusalTold W.Sink out.old out.new E.Sink err.old err.new reason }
{
    match reason {
        NoJob::Help(text) => {
            let done = write_text(out, text.as_bytes());
            status_of(done, err)
        }
        NoJob::Refused(text) => {
            tell(text.as_str(), err);
            REFUSED
        }
        NoJob::OutOfMemory => status_of(Err(Fault::OutOfMemory), err),
    }
}

// Tells a text. Where that fails there is nobody to tell.
fn tell<E: Sink>(text: &str, err: &mut E)
    ensures { IsTold E.Sink err.old err.new text.now }
{
    let _ = write_text(err, text.as_bytes());
}
