//! Reading an input whole.

ghost use Rattle.std.specs.Prelude.{IfOk, IfErr};
ghost use Rattle.runs.specs.Inputs.{IsReadWhole, IsReadingFault};

use bench_types::limits::MOST_BYTES;
use bench_types::{Failed, Fault, Source};
use std::alloc::Global;

// The bytes that one pull may give.
const CHUNK: usize = 8192;

/// Reads until the source gives no byte. It pulls at most one byte more than a scenario's text may
/// have, and where the source gives that byte the input is too long (`TooLong`), whatever would follow. Other
/// errors are lack of memory (`OutOfMemory`) and what the source answers (`ReadFailed`).
pub fn read_all<R: Source>(alloc: Global, reader: &mut R) -> Result<Vec<u8>, Fault>
    ensures whole { IfOk result (λ text. IsReadWhole R.Source reader.old reader.new text.items) }
    ensures fault { IfErr result (IsReadingFault R.Source reader.old reader.new) }
{
    let mut text = Vec::new(alloc);
    let mut chunk = [0u8; CHUNK];
    loop {
        let space = MOST_BYTES - text.len();
        let room = CHUNK.min(space + 1);
        let count = match reader.pull(&mut chunk[..room]) {
            Ok(count) => count,
            Err(Failed) => return Err(Fault::ReadFailed),
        };
        if count == 0 {
            return Ok(text);
        }
        if count > space {
            return Err(Fault::TooLong);
        }
        text.extend_from_slice(&chunk[..count])?;
    }
}
