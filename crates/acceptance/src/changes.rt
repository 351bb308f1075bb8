//! Tables of changes to the scenario of two nodes.
//!
//! A row has changes, divided by `; `, and behind an arrow what comes of the changed text: the line of
//! its fault, `ok` where it is accepted, or `as CASE` where its run writes what is stored of that case.
//!
//! | Change | Meaning |
//! |---|---|
//! | `field = value` | takes the place of the line of this field, or is added |
//! | `field` | takes the line of this field away |
//! | `N times piece` | adds the piece so often, with `{}` for 0, 1 and so on |
//! | `old becomes new` | puts the new piece in each place of the old one |
//!
//! In all of these `\n` stands for a line's end, `\r` for a carriage return, `\0` for a byte of 0 and
//! `\u{feff}` for a byte order mark.

use crate::outcomes::{check_line, run_line};
use std::alloc::{AllocError, AllocGlobal, Global};
use std::rt::Files;
use std::sync::Wait;
use std::thread::Threads;
use std::{fs, io};

/// How many rows of a table are as stored, or the first that is not.
pub fn table_line<R: Files + Threads + Wait + AllocGlobal + Sync>(
    rt: &R,
    table: &str,
) -> io::Result<String> {
    let alloc = rt.alloc();
    let text = fs::read_to_string(rt, "small/two_nodes.toml")?;
    let mut rows = 0u32;
    for row in table.lines() {
        if let Some((changes, stored)) = row.split_once(" -> ") {
            let text = changed(alloc, text.as_str(), changes)?;
            let found = outcome(rt, text.as_bytes(), stored)?;
            if found.as_str() != stored {
                return Ok(format!(in alloc; "{changes} -> {found}")?);
            }
            rows = rows.saturating_add(1);
        }
    }
    Ok(format!(in alloc; "{rows} rows as stored")?)
}

fn outcome<R: Files + Threads + Wait + AllocGlobal + Sync>(
    rt: &R,
    text: &[u8],
    stored: &str,
) -> io::Result<String> {
    let Some(("", case)) = stored.split_once("as ") else {
        return Ok(check_line(rt, text)?);
    };
    let line = run_line(rt, case, text)?;
    if line.as_str() == "report as stored, trace as stored" {
        Ok(String::from_str(rt.alloc(), stored)?)
    } else {
        Ok(line)
    }
}

#[derive(Clone, Copy)]
enum Change<'a> {
    Line { field: &'a str, line: &'a str },
    Without { field: &'a str },
    Times { count: &'a str, piece: &'a str },
    Becomes { old: &'a str, new: &'a str },
}

impl<'a> Change<'a> {
    fn of(change: &'a str) -> Change<'a> {
        if let Some((count, piece)) = change.split_once(" times ") {
            Change::Times { count, piece }
        } else if let Some((old, new)) = change.split_once(" becomes ") {
            Change::Becomes { old, new }
        } else if let Some((field, _)) = change.split_once(" = ") {
            Change::Line {
                field,
                line: change,
            }
        } else {
            Change::Without { field: change }
        }
    }

    // Whether it takes the line of this field away.
    fn takes(self, taken: &str) -> bool {
        match self {
            Change::Line { field, .. } | Change::Without { field } => field == taken,
            Change::Times { .. } | Change::Becomes { .. } => false,
        }
    }
}

// The text with these changes.
fn changed(alloc: Global, text: &str, changes: &str) -> Result<String, AllocError> {
    let mut changed = String::new(alloc);
    for line in text.lines() {
        if !is_taken(line, changes) {
            changed.push_str(line)?;
            changed.push_str("\n")?;
        }
    }
    for change in changes.split("; ") {
        changed = with_change(alloc, changed, Change::of(change))?;
    }
    Ok(changed)
}

// Whether one of the changes takes this line away.
fn is_taken(line: &str, changes: &str) -> bool {
    let Some((field, _)) = line.split_once(" = ") else {
        return false;
    };
    for change in changes.split("; ") {
        if Change::of(change).takes(field) {
            return true;
        }
    }
    false
}

fn with_change(alloc: Global, mut text: String, change: Change) -> Result<String, AllocError> {
    match change {
        Change::Line { line, .. } => {
            text.push_str(piece_of(alloc, line)?.as_str())?;
            text.push_str("\n")?;
        }
        Change::Without { .. } => {}
        Change::Times { count, piece } => {
            let piece = piece_of(alloc, piece)?;
            for place in 0..count.parse::<u32>().unwrap_or(0) {
                let place = format!(in alloc; "{place}")?;
                text.push_str(piece.replace(alloc, "{}", place.as_str())?.as_str())?;
            }
        }
        Change::Becomes { old, new } => {
            let (old, new) = (piece_of(alloc, old)?, piece_of(alloc, new)?);
            text = text.replace(alloc, old.as_str(), new.as_str())?;
        }
    }
    Ok(text)
}

// The bytes that some words stand for.
fn piece_of(alloc: Global, words: &str) -> Result<String, AllocError> {
    let mut piece = words.replace(alloc, "\\n", "\n")?;
    piece = piece.replace(alloc, "\\r", "\r")?;
    piece = piece.replace(alloc, "\\0", "\0")?;
    piece.replace(alloc, "\\u{feff}", "\u{feff}")
}
