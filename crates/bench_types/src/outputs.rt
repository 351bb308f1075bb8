//! Writing a text to a sink.

ghost use Rattle.std.specs.Prelude.{OnOk, OnErr, IsOkUnless};
ghost use Rattle.bench_types.specs.Output.{IsWritten, IsBrokenOff};

use crate::faults::Fault;
use crate::sinks::Sink;
use crate::sources::Failed;

/// Writes all of the text, and flushes. An error says that the sink failed (`WriteFailed`).
pub fn write_text<W: Sink>(writer: &mut W, text: &[u8]) -> Result<(), Fault>
    ensures written { OnOk result (IsWritten W.Sink writer.old writer.new text.now) }
    ensures cut { OnErr result (IsBrokenOff W.Sink writer.old writer.new text.now) }
    ensures only { IsOkUnless result Fault.WriteFailed }
{
    let mut rest = text;
    while !rest.is_empty() {
        match writer.push(rest) {
            Ok(count) => rest = rest.split_at(count).1,
            Err(Failed) => return Err(Fault::WriteFailed),
        }
    }
    match writer.flush() {
        Ok(()) => Ok(()),
        Err(Failed) => Err(Fault::WriteFailed),
    }
}
