//! Calls on a text that take memory.

use std::alloc::Global;
use yq_core::{Break, Place, Scalar, Style};
use yq_inline::read_inline;
use yq_rows::scan;
use yq_scalar::{content, read_block, read_plain, read_quoted, repair, write_block, write_scalar};
use yq_scalar_reader::can_write;

/// A call on a text: the content of the scalar in front of it, a gap repaired after that one, its lines in
/// a block scalar, it as a plain scalar of which a copy is written, the inline node in front of it, and its
/// rows.
#[derive(Clone, Copy)]
pub enum OnText {
    Content,
    Gap,
    Lines(Break),
    Copied,
    Inline,
    Rows,
}

/// For how many bytes the content of the scalar in front of a text has room, or a gap after it.
fn piece_room(alloc: Global, text: &str, is_gap: bool) -> Option<usize> {
    if !text.is_char_boundary(0) {
        return None;
    }
    let piece = match text.as_bytes().first() {
        Some(b'\'' | b'"') => read_quoted(text, 0),
        Some(b'|' | b'>') => read_block(text, 0, 0),
        _ => read_plain(text, 0, Place::Block, 0),
    };
    let Ok(piece) = piece else {
        return None;
    };
    let written = if is_gap {
        repair(alloc, &piece, 1, "\n   # c\n")
    } else {
        content(alloc, text, &piece)
    };
    match written {
        Ok(written) => Some(written.capacity()),
        Err(_) => None,
    }
}

/// How long a copy of a scalar is in double quotes.
fn copied_len(alloc: Global, scalar: &Scalar) -> Option<usize> {
    match scalar.copy(alloc) {
        Ok(copy) if can_write(&copy, Style::Double, Place::Block) => {
            match write_scalar(alloc, &copy, Style::Double, Place::Block) {
                Ok(written) => Some(written.len()),
                Err(_) => None,
            }
        }
        _ => None,
    }
}

/// Where the inline node in front of a text ends.
fn node_end(alloc: Global, text: &str) -> Option<usize> {
    if !text.is_char_boundary(0) {
        return None;
    }
    match read_inline(alloc, text, 0, Place::Flow, -1, 0) {
        Ok(node) => Some(node.end),
        Err(_) => None,
    }
}

/// The number that says what a call gives: none where memory ran out.
pub fn called(alloc: Global, call: OnText, text: &str) -> Option<usize> {
    match call {
        OnText::Content => piece_room(alloc, text, false),
        OnText::Gap => piece_room(alloc, text, true),
        OnText::Copied => match Scalar::plain(alloc, text) {
            Ok(scalar) => copied_len(alloc, &scalar),
            Err(_) => None,
        },
        OnText::Inline => node_end(alloc, text),
        OnText::Lines(br) => match write_block(alloc, text, 2, br) {
            Ok((_, raw)) => Some(raw.capacity()),
            Err(_) => None,
        },
        OnText::Rows => match scan(alloc, text) {
            Ok(rows) => Some(rows.len()),
            Err(_) => None,
        },
    }
}
