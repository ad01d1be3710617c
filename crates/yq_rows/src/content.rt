//! What comes after a row's mark.
ghost use Rattle.std.{specs.Option.option_map, specs.Prelude.{◌≡◌, ◌≤◌, ◌==◌, ◌||◌, ◌&&◌, not, length, true, false}};
ghost use Rattle.yq_core.{specs.Answers.Gives, specs.Text.{front, is_empty}};
ghost use Rattle.yq_rows.{specs.ReadPieces.{is_plain_kind, filling_view}, specs.RowAnswers.KnowsContent};
ghost use Rattle.yq_row_table.specs.Slicing.{filled_at};
ghost use Rattle.yq_inline.specs.Measured as measured;
ghost use Rattle.yq_core.specs.Scalars as scalars;
ghost use Rattle.yq_row_table.specs.Slicing as slicing;
ghost use Rattle.yq_row_table.specs.Reading as spec;

use crate::fault::block_fault;
use crate::gap::is_hash;
use crate::marks::RowMark;
use crate::naming::{no_content, no_further_line, no_tail};
use crate::words::{begins_word, read_front};
use yq_core::fault_place::fault;
use yq_core::lines::split_line;
use yq_core::text::{ends_line, split_white};
use yq_core::{FaultKind, Place, ReadError, first_is, further_spaces, is_quoted, strip};
use yq_inline::measuring::{Measured, MeasuredKind};
use yq_inline::pieces::{begins_scalar, name_len};
use yq_inline::{Keys, measure_head};
use yq_scalar::read_block;

/// What comes after a mark, by its pieces.
#[derive(Clone, Copy)]
pub struct Filling<'t> {
    pub space: &'t str,
    pub anchor: &'t str,
    /// The white space after the anchor.
    pub apart: &'t str,
    pub head: &'t str,
    pub tail: &'t str,
    /// The raw lines of a block scalar.
    pub raw: &'t str,
    /// Whether it is a plain scalar.
    pub plain: bool,
    /// Whether it may be on a line of its own.
    pub alone: bool,
    /// How many collections are nested at most in the head, where this is a flow collection that the text
    /// lends; else 0.
    pub depth: usize,
    /// What follows it.
    pub rest: &'t str,
}

/// The tail in front, and what follows.
#[tactic(auto, unfolding(yq_row_table::specs::Reading::read_tail))]
pub(crate) fn find_tail(text: &str) -> Option<(&str, &str)>
    ensures { option_map (λ x. (x.0.now, x.1.now)) result ≡ spec.read_tail text.now }
{
    if first_is(b'\n', text.as_bytes()) {
        return Some(text.split_at(1));
    }
    let (white, rest) = split_white(text);
    let next = rest.as_bytes();
    if ends_line(next) || (!white.is_empty() && is_hash(next)) {
        Some(split_line(text))
    } else {
        None
    }
}

/// The text cut after the anchor in front.
fn split_anchor(text: &str) -> (&str, &str)
    ensures { (result.0.now, result.1.now) ≡ slicing.cut_anchor text.now }
{
    match strip(b'&', text) {
        Some(after) => text.split_at(name_len(after.as_bytes()) + 1),
        None => ("", text),
    }
}

/// The anchor in front, the white space after it, and what follows.
fn split_apart(text: &str) -> (&str, &str, &str)
    ensures { (result.0.now, result.1.now, result.2.now) ≡ slicing.cut_apart text.now }
{
    if !first_is(b'&', text.as_bytes()) {
        return ("", "", text);
    }
    let (anchor, rest) = split_anchor(text);
    let (apart, rest) = split_white(rest);
    (anchor, apart, rest)
}

/// Whether the mark of a block scalar is in front.
fn is_block_mark(text: &[u8]) -> bool
    ensures { result ≡ front (λ b. b == 124 || b == 62) text.now }
{
    matches!(text, [b'|' | b'>', ..])
}

/// Whether a block scalar begins here, perhaps after an anchor.
#[tactic(auto, using(yq_row_table::proofs::BlockSlicing::block_begins))]
pub(crate) fn begins_block(text: &str) -> bool
    ensures { result ≡ spec.begins_block text.now }
{
    is_block_mark(split_apart(text).2.as_bytes())
}

/// Whether an anchor, an alias or a flow collection begins here.
pub(crate) fn begins_other(text: &[u8]) -> bool
    ensures { result ≡ slicing.begins_other text.now }
{
    matches!(text, [b'&' | b'*' | b'[' | b'{', ..])
}

/// A block scalar after white space.
fn read_block_content<'t>(
    whole: &str,
    parent: i64,
    space: &'t str,
    text: &'t str,
) -> Result<Filling<'t>, ReadError>
    ensures read { Gives filling_view result (slicing.block_sliced parent space.now text.now) }
    ensures known { KnowsContent result }
{
    let (anchor, apart, rest) = split_apart(text);
    if anchor.len() == 1 {
        return Err(ReadError::Fault(fault(FaultKind::BadScalar, whole, text)));
    }
    let piece = match read_block(rest, 0, parent) {
        Ok(piece) => piece,
        Err(kind) => return Err(ReadError::Fault(block_fault(kind, whole, rest))),
    };
    let (head, rest) = rest.split_at(piece.head_end);
    let (tail, rest) = rest.split_at(piece.raw_start - piece.head_end);
    let (raw, rest) = rest.split_at(piece.end - piece.raw_start);
    Ok(Filling {
        space,
        anchor,
        apart,
        head,
        tail,
        raw,
        plain: false,
        alone: false,
        depth: 0,
        rest,
    })
}

/// Whether the node is a plain scalar, perhaps after an anchor.
fn is_plain(node: Measured<'_>) -> bool
    ensures { result ≡ is_plain_kind node.entry.kind }
{
    matches!(node.kind, MeasuredKind::Plain)
}

/// Whether the node is nothing, perhaps after an anchor.
fn is_nothing(node: Measured<'_>) -> bool
    ensures { result ≡ measured.is_nothing node.entry.kind }
{
    matches!(node.kind, MeasuredKind::Nothing)
}

/// The white space between an anchor and its node, and what follows it; before nothing is none.
fn split_lead(nothing: bool, text: &str) -> (&str, &str)
    ensures { (result.0.now, result.1.now) ≡ slicing.cut_lead nothing text.now }
{
    if nothing {
        ("", text)
    } else {
        split_white(text)
    }
}

/// Whether a node after this white space may be on a line of its own.
pub(crate) fn may_be_alone(space: &str, nothing: bool) -> bool
    ensures { result ≡ (is_empty space.now && not nothing) }
{
    space.is_empty() && !nothing
}

/// A node that an anchor, an alias or a flow collection begins, after white space, and its tail.
fn read_inline_content<'t>(
    keys: &mut Keys<'t>,
    whole: &str,
    mark: RowMark<'t>,
    parent: i64,
    space: &'t str,
    text: &'t str,
) -> Result<Filling<'t>, ReadError>
    ensures read { Gives filling_view result (slicing.inline_sliced parent space.now text.now) }
    ensures known { KnowsContent result }
{
    let spaces = further_spaces(Place::Block, parent);
    let found = match measure_head(keys, spaces, whole, text) {
        Ok(found) => found,
        Err(e) => return Err(ReadError::Fault(e)),
    };
    let node = found.node;
    let after = node.rest;
    let (anchor, rest) = split_anchor(text);
    let nothing = is_nothing(node);
    let (apart, rest) = split_lead(nothing, rest);
    let head = rest.split_at(rest.len() - after.len()).0;
    match find_tail(after) {
        Some((tail, rest)) => Ok(Filling {
            space,
            anchor,
            apart,
            head,
            tail,
            raw: "",
            plain: is_plain(node),
            alone: may_be_alone(space, nothing),
            depth: found.depth,
            rest,
        }),
        None => Err(ReadError::Fault(match no_further_line(mark, spaces, head, after) {
            Some(kind) => fault(kind, whole, after),
            None => fault(no_tail(mark, space, anchor, head, after), whole, text),
        })),
    }
}

/// A scalar without an anchor after white space, and its tail. Only its end is found.
#[inline(always)]
fn read_scalar_content<'t>(
    whole: &str,
    mark: RowMark<'t>,
    parent: i64,
    space: &'t str,
    text: &'t str,
) -> Result<Filling<'t>, ReadError>
    requires { (slicing.begins_other text.now ≡ false) ×
        (scalars.begins_scalar false text.now ≡ true) }
    ensures read { Gives filling_view result (slicing.inline_sliced parent space.now text.now) }
    ensures known { KnowsContent result }
{
    let spaces = further_spaces(Place::Block, parent);
    let (head, after) = match read_front(spaces, whole, text) {
        Ok(found) => found,
        Err(e) => return Err(ReadError::Fault(e)),
    };
    match find_tail(after) {
        Some((tail, rest)) => Ok(Filling {
            space,
            anchor: "",
            apart: "",
            head,
            tail,
            raw: "",
            plain: !is_quoted(head.as_bytes()),
            alone: may_be_alone(space, false),
            depth: 0,
            rest,
        }),
        None => Err(ReadError::Fault(match no_further_line(mark, spaces, head, after) {
            Some(kind) => fault(kind, whole, after),
            None => fault(no_tail(mark, space, "", head, after), whole, text),
        })),
    }
}

/// What comes after a mark, below a parent of this indentation.
pub(crate) fn read_content<'t>(
    keys: &mut Keys<'t>,
    whole: &str,
    mark: RowMark<'t>,
    parent: i64,
    text: &'t str,
) -> Result<Filling<'t>, ReadError>
    ensures read { Gives filling_view result (filled_at parent text.now) }
    ensures known { KnowsContent result }
{
    let (space, rest) = split_white(text);
    if begins_word(rest.as_bytes()) {
        return read_scalar_content(whole, mark, parent, space, rest);
    }
    if begins_block(rest) {
        return read_block_content(whole, parent, space, rest);
    }
    if begins_other(rest.as_bytes()) {
        return read_inline_content(keys, whole, mark, parent, space, rest);
    }
    if begins_scalar(false, rest.as_bytes()) {
        return read_scalar_content(whole, mark, parent, space, rest);
    }
    match find_tail(text) {
        Some((tail, rest)) => Ok(Filling {
            space: "",
            anchor: "",
            apart: "",
            head: "",
            tail,
            raw: "",
            plain: false,
            alone: false,
            depth: 0,
            rest,
        }),
        None => Err(ReadError::Fault(fault(no_content(mark, parent, space, rest), whole, rest))),
    }
}
