//! The program as a process.

use crate::programs::main_with;
use bench_types::{Fault, Pull, Push, Sink, write_text};
use command_words::{REFUSED, status_of, words_of};
use std::alloc::AllocGlobal;
use std::env::Env;
use std::io;
use std::io::{Input, Print};
use std::rt::Files;
use std::sync::Wait;
use std::thread::Threads;

/// Hands the words of the process, its input and its output to `main_with`, and answers the status. A
/// word that isn't UTF-8 is refused.
pub fn run_process<H: Env + AllocGlobal + Files + Input + Print + Threads + Wait + Sync, E: Sink>(
    rt: &H,
    err: &mut E,
) -> u8 {
    let alloc = rt.alloc();
    let words = match words_of(rt) {
        Ok(words) => words,
        Err(error) if error.kind() == io::ErrorKind::InvalidData => {
            let _ = write_text(err, b"error: a word is not UTF-8\n");
            return REFUSED;
        }
        Err(_) => return status_of(Err(Fault::OutOfMemory), err),
    };
    let mut reader = Pull::new(rt.reader());
    let mut out = Push::new(io::writer(rt));
    main_with(rt, alloc, words.as_slice(), &mut reader, &mut out, err)
}
