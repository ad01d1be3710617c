//! What the lines of rows spell, borrowed or made.
ghost use Rattle.std.specs.Prelude.{◌≡◌, ◌<◌, length, option_map, true};
ghost use Rattle.yq_core.{specs.Scalars.is_quoted, specs.Quoted.IsQuotedText};
ghost use Rattle.yq_outline.{specs.Bodies.borrowed, specs.Outline.{key_of, label}, specs.View.head_view};
ghost use Rattle.yq_nodes.{specs.Bodies.body_node, specs.Nodes.written_label};
ghost use Rattle.yq_documents.{specs.Reading.documents_of, specs.Stretches.{IsLineIn, OfLineIn}};
ghost use Rattle.yq_outline.specs.Comments as comments;
ghost use Rattle.yq_documents.specs.Decoded as spec;

use crate::nodes::body::Body;
use crate::nodes::node::WrittenLabel;
use yq_core::{Kind, between_quotes, is_quoted};
use yq_documents::{DecodedHead, Documents, anchor_name, decoded_key};
use yq_inline::plain_kind;
use yq_outline::{Head, Position};
use yq_row_walk::{has_head, lines_before_mark, rank_at};

/// What a head spells that is borrowed as it is written.
fn borrowed_head<'d, 't>(head: &'d str) -> Option<Body<'d, 't>>
    requires { is_quoted head.now ≡ true → IsQuotedText head.now }
    ensures { option_map body_node result ≡ spec.borrowed_head head.now }
{
    if head.is_empty() {
        return None;
    }
    if is_quoted(head.as_bytes()) {
        return Some(Body::Scalar(Kind::Text, between_quotes(head)));
    }
    let (kind, text) = plain_kind(head);
    Some(Body::Scalar(kind, text))
}

/// What a head spells, if it has one.
fn head_body<'d, 't>(head: &'d Head<'t>) -> Option<Body<'d, 't>>
    ensures { option_map body_node result ≡ head_view head.now }
{
    match head {
        Head::Nothing => None,
        Head::Scalar(kind, content) => Some(Body::Scalar(*kind, content.text())),
        Head::Inline(node) => Some(Body::Inline(node)),
    }
}

/// What a head spells that is decoded, if it is anything.
fn decoded_body<'d, 't>(head: DecodedHead<'d, 't>) -> Option<Body<'d, 't>>
    ensures { option_map body_node result ≡ spec.decoded_view head.entry }
{
    match head {
        DecodedHead::Owned(head) => head_body(head),
        DecodedHead::Borrowed(node) => Some(Body::Borrowed(node)),
        DecodedHead::Alias(name, _) => Some(Body::Alias(name)),
    }
}

/// What the head of a line spells, if it has one.
pub(crate) fn line_head<'d, 't>(
    text: &'d Documents<'t>,
    document: usize,
    at: Position,
) -> Option<Body<'d, 't>>
    requires there { document < length (documents_of text.now) }
    requires line { IsLineIn text.now document at }
    ensures { OfLineIn text.now document at (λ l. option_map body_node result ≡ l.head) }
{
    let (rows, stretch) = text.document_rows(document);
    if !has_head(rows, stretch, at) {
        return None;
    }
    match text.known_head(at.row) {
        Some(head) => decoded_body(head),
        None => borrowed_head(rows.head(at.row)),
    }
}

/// The anchor in a line.
pub(crate) fn line_anchor<'t>(
    text: &Documents<'t>,
    document: usize,
    at: Position,
) -> Option<&'t str>
    requires there { document < length (documents_of text.now) }
    requires line { IsLineIn text.now document at }
    ensures { OfLineIn text.now document at (λ l. borrowed result ≡ l.anchor) }
{
    let (rows, _stretch) = text.document_rows(document);
    if at.line < lines_before_mark(rows, at.row) {
        return None;
    }
    anchor_name(rows.anchor(at.row))
}

/// The key of a line's entry; an item has none.
fn line_key<'d>(text: &'d Documents<'_>, document: usize, at: Position) -> Option<&'d str>
    requires there { document < length (documents_of text.now) }
    requires line { IsLineIn text.now document at }
    ensures { OfLineIn text.now document at (λ l. borrowed result ≡ key_of l.mark) }
{
    let (rows, _stretch) = text.document_rows(document);
    if rank_at(rows, at) != 2 {
        return None;
    }
    Some(decoded_key(text.decoded(at.row), rows.key(at.row)))
}

/// The gap before a line's row, where the line begins it.
fn line_gap<'t>(text: &Documents<'t>, document: usize, at: Position) -> &'t str
    requires there { document < length (documents_of text.now) }
    requires line { IsLineIn text.now document at }
    ensures { OfLineIn text.now document at (λ l. comments.head_comment result.now ≡
        l.head_comment) }
{
    let (rows, _stretch) = text.document_rows(document);
    if at.line > 0 {
        return "";
    }
    rows.gap(at.row)
}

/// The tail of a line, where it ends its row's first line.
fn line_tail<'t>(text: &Documents<'t>, document: usize, at: Position) -> &'t str
    requires there { document < length (documents_of text.now) }
    requires line { IsLineIn text.now document at }
    ensures { OfLineIn text.now document at (λ l. comments.line_comment result.now ≡
        l.line_comment) }
{
    let (rows, _stretch) = text.document_rows(document);
    if at.line < lines_before_mark(rows, at.row) {
        return "";
    }
    rows.tail(at.row)
}

/// What is written about the entry or item of a line.
pub(crate) fn line_written<'d, 't>(
    text: &'d Documents<'t>,
    document: usize,
    at: Position,
) -> WrittenLabel<'d, 't>
    requires there { document < length (documents_of text.now) }
    requires line { IsLineIn text.now document at }
    ensures { OfLineIn text.now document at (λ l. written_label result ≡ label l) }
{
    WrittenLabel {
        key: line_key(text, document, at),
        gap: line_gap(text, document, at),
        tail: line_tail(text, document, at),
    }
}
