//! A line of a text, and a caret below a place of it.

use crate::parts::in_two;
use std::alloc::AllocError;

/// How many columns of a line are shown, and how many of these before the place at most.
const COLUMNS: usize = 72;

const BEFORE: usize = 50;

/// The hexadecimal digit of the last four bits.
fn digit(code: u32) -> char {
    char::from_digit(code & 15, 16).unwrap_or('?')
}

/// Adds a character as it is printed, a control character by its escape. In how many columns it is.
fn push_char(out: &mut String, c: char) -> Result<usize, AllocError> {
    if c == '\t' {
        out.push_str("\\t")?;
        return Ok(2);
    }
    if c == '\u{feff}' {
        out.push_str("\\ufeff")?;
        return Ok(6);
    }
    if !c.is_control() {
        out.push(c)?;
        return Ok(1);
    }
    let code = u32::from(c);
    out.push_str("\\x")?;
    out.push(digit(code >> 4))?;
    out.push(digit(code))?;
    Ok(4)
}

/// Adds a name, a control character by its escape.
pub fn push_name(out: &mut String, name: &str) -> Result<(), AllocError> {
    'chars: for c in name.chars() {
        push_char(out, c)?;
    }
    Ok(())
}

/// Adds what is before a place on its line, without its beginning where the whole line is long. In how many columns it is.
fn push_before(out: &mut String, before: &str, after: &str) -> Result<usize, AllocError> {
    let count = before.chars().count();
    let is_long = count.saturating_add(after.chars().count()) > COLUMNS;
    let skipped = if is_long {
        count.saturating_sub(BEFORE)
    } else {
        0
    };
    let mut columns = 0usize;
    if skipped > 0 {
        out.push_str("..")?;
        columns = 2;
    }
    'chars: for c in before.chars().skip(skipped) {
        columns = columns.saturating_add(push_char(out, c)?);
    }
    Ok(columns)
}

/// Adds what is from a place on, to the last column.
fn push_after(out: &mut String, after: &str, before: usize) -> Result<(), AllocError> {
    let mut columns = before;
    'chars: for c in after.chars() {
        if columns >= COLUMNS {
            return out.push_str("..");
        }
        columns = columns.saturating_add(push_char(out, c)?);
    }
    Ok(())
}

/// The line on which a place is, parted there.
pub fn line_at(text: &str, at: usize) -> (&str, &str) {
    let (before, after) = in_two(text, at);
    let before = before.rsplit_once('\n').unwrap_or(("", before)).1;
    let after = after.split_once('\n').unwrap_or((after, "")).0;
    (before, after.strip_suffix('\r').unwrap_or(after))
}

/// Adds the line of a text on which a place is, and a caret below that.
pub fn push_caret(out: &mut String, text: &str, at: usize) -> Result<(), AllocError> {
    let (before, after) = line_at(text, at);
    out.push_str("  ")?;
    let columns = push_before(out, before, after)?;
    push_after(out, after, columns)?;
    out.push_str("\n  ")?;
    'columns: for _ in 0..columns {
        out.push(' ')?;
    }
    out.push_str("^\n")
}
