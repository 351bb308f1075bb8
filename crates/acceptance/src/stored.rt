//! The texts that are stored.

use std::alloc::{AllocError, AllocGlobal, Global};
use std::rt::Files;
use std::{fs, io};

/// A text that a case gives: its report, its trace, or its report under a mode.
pub fn stored_text<R: Files + AllocGlobal>(
    rt: &R,
    case: &str,
    part: &str,
) -> io::Result<Option<String>> {
    let file = format!(in rt.alloc(); "{case}.{part}.csv")?;
    if fs::exists(rt, file.as_str())? {
        Ok(Some(fs::read_to_string(rt, file.as_str())?))
    } else {
        Ok(None)
    }
}

/// The comparison that a case gives, if its report is stored under a mode that isn't its own.
pub fn stored_comparison<R: Files + AllocGlobal>(rt: &R, case: &str) -> io::Result<Option<String>> {
    let Some(report) = stored_text(rt, case, "report")? else {
        return Ok(None);
    };
    let mut text = String::from_str(rt.alloc(), "mode,")?;
    text.push_str(report.as_str().lines().next().unwrap_or(""))?;
    text.push_str("\n")?;
    let mut some = false;
    let modes = fs::read_to_string(rt, "modes.txt")?;
    for mode in modes.lines() {
        if let Some(other) = stored_text(rt, case, mode)? {
            push_block(&mut text, mode, other.as_str())?;
            some = true;
        } else {
            push_block(&mut text, mode, report.as_str())?;
        }
    }
    Ok(if some { Some(text) } else { None })
}

// Adds the rows of a report to a comparison, each behind its mode.
fn push_block(text: &mut String, mode: &str, report: &str) -> Result<(), AllocError> {
    for row in report.lines().skip(1) {
        text.push_str(mode)?;
        text.push_str(",")?;
        text.push_str(row)?;
        text.push_str("\n")?;
    }
    Ok(())
}

/// Adds to a line how a text that was written compares with the one that is stored, if one is.
pub fn compare_part(
    alloc: Global,
    line: &mut String,
    part: &str,
    stored: Option<String>,
    written: &[u8],
) -> Result<(), AllocError> {
    let Some(stored) = stored else {
        return Ok(());
    };
    if !line.is_empty() {
        line.push_str(", ")?;
    }
    line.push_str(part)?;
    if stored.as_bytes() == written {
        line.push_str(" as stored")
    } else {
        line.push_str(difference(alloc, stored.as_str(), written)?.as_str())
    }
}

// The first line of a written text that differs from the stored one.
fn difference(alloc: Global, stored: &str, written: &[u8]) -> Result<String, AllocError> {
    let mut lines = std::str::from_utf8(written).unwrap_or("").lines();
    let mut number = 0u32;
    for line in stored.lines() {
        number = number.saturating_add(1);
        let found = lines.next().unwrap_or("");
        if found != line {
            return format!(in alloc; " differs in line {number}: {found}");
        }
    }
    format!(in alloc; " differs behind line {number}")
}
