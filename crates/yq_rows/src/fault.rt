//! Where a text is at fault.
ghost use Rattle.std.specs.Prelude.{◌≢◌};
ghost use Rattle.yq_core.specs.declared.fault.FaultKind.TheVariants.{NotUtf8};

use yq_core::characters::is_text_char;
use yq_core::fault_place::{fault, fault_at};
use yq_core::lines::line_len;
use yq_core::text::{is_blank, spaces_len, without_spaces};
use yq_core::{FaultKind, ReadFault};
use yq_text::TEXT_LIMIT;

/// How many spaces the first line after a header begins with that isn't blank; the most that there are
/// where all are blank.
fn text_indent(raw: &[u8]) -> usize {
    let mut rest = raw;
    'lines: while !rest.is_empty() {
        let (line, after) = rest.split_at(line_len(rest));
        if !is_blank(line) {
            return spaces_len(line);
        }
        rest = after;
    }
    usize::MAX
}

/// Whether a line of a block scalar may be at fault where its text begins in a column: it has a tab
/// before that, or it is blank and goes on past it.
fn is_at_fault(kind: FaultKind, column: usize, line: &[u8]) -> bool {
    match kind {
        FaultKind::TabIndent => {
            spaces_len(line) < column && matches!(without_spaces(line), [b'\t', ..])
        }
        FaultKind::BadIndent => is_blank(line) && column < spaces_len(line),
        _ => false,
    }
}

/// How many bytes there are from where the indentation ends of the first of these lines that may be at
/// fault; none where none may be.
fn from_fault(kind: FaultKind, column: usize, raw: &[u8]) -> Option<usize> {
    let mut rest = raw;
    'lines: while !rest.is_empty() {
        let (line, after) = rest.split_at(line_len(rest));
        if is_at_fault(kind, column, line) {
            return Some(without_spaces(rest).len());
        }
        rest = after;
    }
    None
}

/// A fault of the block scalar with which this rest of the whole text begins: on the line whose
/// indentation is at fault, or else on that of the header.
pub(crate) fn block_fault(kind: FaultKind, whole: &str, rest: &str) -> ReadFault
    requires { kind ≢ NotUtf8 }
    ensures { result.kind ≢ NotUtf8 }
{
    let raw = rest.as_bytes().split_at(line_len(rest.as_bytes())).1;
    let found = match from_fault(kind, text_indent(raw), raw) {
        Some(len) => Some(len),
        None => from_fault(kind, usize::MAX, raw),
    };
    match found {
        Some(len) => fault_at(kind, whole.as_bytes(), whole.len().saturating_sub(len)),
        None => fault(kind, whole, rest),
    }
}

/// The first fault of a text that is too large, or that holds a character that it may not hold.
pub(crate) fn text_fault(text: &str) -> ReadFault
    ensures { result.kind ≢ NotUtf8 }
{
    if text.len() > TEXT_LIMIT {
        return fault_at(FaultKind::TooLarge, text.as_bytes(), 0);
    }
    let mut returned = None;
    'chars: for (at, c) in text.char_indices() {
        if let Some(before) = returned
            && c != '\n'
        {
            return fault_at(FaultKind::CarriageReturn, text.as_bytes(), before);
        }
        if !is_text_char(c) {
            return fault_at(FaultKind::ControlCharacter, text.as_bytes(), at);
        }
        returned = if c == '\r' { Some(at) } else { None };
    }
    fault_at(
        FaultKind::CarriageReturn,
        text.as_bytes(),
        returned.unwrap_or(text.len()),
    )
}
