//! Where a text is at fault.

use crate::caret::{line_at, push_caret, push_name};
use std::alloc::{AllocError, Global};
use yq_core::fault_place::fault_at;
use yq_core::{ReadFault, spaces_len};

/// The text with which bytes begin: all of them, or those before what is no text.
fn text_in(bytes: &[u8]) -> &str {
    match std::str::from_utf8(bytes) {
        Ok(text) => text,
        Err(error) => {
            let valid = bytes.get(..error.valid_up_to()).unwrap_or(b"");
            std::str::from_utf8(valid).unwrap_or("")
        }
    }
}

/// A place of a text, or the end of the spaces that are there: of a row its indentation is a part.
fn past_spaces(text: &str, at: usize) -> usize {
    let rest = text.as_bytes().get(at..).unwrap_or(b"");
    at.saturating_add(spaces_len(rest))
}

/// Where a file is at fault, in lines: its name, the line and the column, counted in characters from 1,
/// and the line itself, with a caret below the place. The last two only where the bytes are still those
/// that were refused.
pub fn place_lines(
    alloc: Global,
    file: &str,
    bytes: Option<&[u8]>,
    fault: ReadFault,
) -> Result<String, AllocError> {
    let mut out = String::new(alloc);
    push_name(&mut out, file)?;
    let line = fault.line;
    let place = format!(in alloc; ", line {line}")?;
    out.push_str(place.as_str())?;
    match bytes {
        Some(bytes) if fault_at(fault.kind, bytes, fault.at) == fault => {
            let text = text_in(bytes);
            let at = past_spaces(text, fault.at);
            let column = line_at(text, at).0.chars().count().saturating_add(1);
            let column = format!(in alloc; ", column {column}:\n")?;
            out.push_str(column.as_str())?;
            push_caret(&mut out, text, at)?;
        }
        _ => out.push('\n')?,
    }
    Ok(out)
}
