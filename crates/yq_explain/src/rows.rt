//! What a code means, in lines.

use crate::codes::ROWS;
use std::alloc::{AllocError, Global};
use yq_fault::Fault;

/// The code with which the line of a fault begins.
pub fn code_of(alloc: Global, fault: &Fault) -> Result<String, AllocError> {
    let line = format!(in alloc; "{fault}")?;
    match line.split_once(' ') {
        Some((code, _)) => String::from_str(alloc, code),
        None => String::from_str(alloc, &line),
    }
}

/// Adds a line after its head, where there is something to say.
fn push_line(out: &mut String, head: &str, line: &str) -> Result<(), AllocError> {
    if line.is_empty() {
        return Ok(());
    }
    out.push_str(head)?;
    out.push_str(line)?;
    out.push('\n')
}

/// A row's text up to a tab, and what comes after that.
fn cell(row: &str) -> (&str, &str) {
    row.split_once('\t').unwrap_or((row, ""))
}

/// Adds what causes a fault of this code, and what to do, and with its words before, where these are
/// asked for. Whether there is such a code.
pub fn push_rows(out: &mut String, code: &str, with_words: bool) -> Result<bool, AllocError> {
    let mut found = false;
    'rows: for row in ROWS.lines() {
        let (own, row) = cell(row);
        if code != own {
            continue 'rows;
        }
        let (words, row) = cell(row);
        let (cause, cure) = cell(row);
        if with_words && !found {
            out.push_str(own)?;
            push_line(out, " ", words)?;
        }
        push_line(out, "Cause: ", cause)?;
        push_line(out, "What to do: ", cure)?;
        found = true;
    }
    Ok(found)
}
