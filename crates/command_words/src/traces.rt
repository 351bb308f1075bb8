//! The file that a word names for a trace.

use std::fs;
use std::fs::Metadata;
use std::os::unix::fs::MetadataExt;
use std::rt::Files;

// The names by which the system tells of the process's own input and output.
const INPUT: &str = "/proc/self/fd/0";

const OUTPUT: &str = "/proc/self/fd/1";

/// Makes the file of a trace anew. One that is the process's own input or output is refused, and stays as it is.
pub fn trace_file<H: Files>(rt: &H, path: &str) -> Option<H::File> {
    if is_input_or_output(rt, path) {
        return None;
    }
    fs::create(rt, path).ok()
}

// Whether the path leads to a regular file that is the process's input or its output, under whatever name. `false` too
// where the system doesn't tell, as without `/proc`.
fn is_input_or_output<H: Files>(rt: &H, path: &str) -> bool {
    match fs::metadata(rt, path) {
        Ok(file) => file.is_file() && (leads_to(rt, INPUT, &file) || leads_to(rt, OUTPUT, &file)),
        Err(_) => false,
    }
}

fn leads_to<H: Files>(rt: &H, path: &str, file: &Metadata) -> bool {
    match fs::metadata(rt, path) {
        Ok(found) => found.dev() == file.dev() && found.ino() == file.ino(),
        Err(_) => false,
    }
}
