//! Files of texts, each behind a line that says how many bytes it has, and what comes of it: the line of
//! its fault, or `ok` where it is accepted. A line's end follows each.

use crate::outcomes::check_line;
use std::alloc::{AllocError, AllocGlobal};
use std::str;
use std::sync::Wait;
use std::thread::Threads;

/// How many texts of a file are as stored, or the first that is not.
pub fn texts_line<R: Threads + Wait + AllocGlobal + Sync>(
    rt: &R,
    file: &[u8],
) -> Result<String, AllocError> {
    let mut rest = file;
    let mut texts = 0u32;
    for _ in 0..file.len() {
        let Some(first) = Stored::first(rest) else {
            break;
        };
        let found = check_line(rt, first.text)?;
        if found.as_str() != first.outcome {
            return format!(in rt.alloc(); "{found} behind {texts} texts as stored");
        }
        texts = texts.saturating_add(1);
        rest = first.behind;
    }
    format!(in rt.alloc(); "{texts} texts as stored")
}

// A stored text, what comes of it, and what stands behind both.
#[derive(Clone, Copy)]
struct Stored<'a> {
    outcome: &'a str,
    text: &'a [u8],
    behind: &'a [u8],
}

impl<'a> Stored<'a> {
    // The text that stands in front.
    fn first(bytes: &'a [u8]) -> Option<Stored<'a>> {
        let (head, rest) = line_of(bytes)?;
        let (length, outcome) = str::from_utf8(head).ok()?.split_once(" ")?;
        let (text, rest) = rest.split_at_checked(length.parse::<usize>().ok()?)?;
        let (_, behind) = line_of(rest)?;
        Some(Stored {
            outcome,
            text,
            behind,
        })
    }
}

// The line in front, and what is behind its end.
fn line_of(bytes: &[u8]) -> Option<(&[u8], &[u8])> {
    let end = bytes.iter().position(|byte| *byte == b'\n')?;
    let (line, rest) = bytes.split_at_checked(end)?;
    Some((line, rest.get(1..)?))
}
