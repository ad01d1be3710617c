//! The heads of rows.
ghost use Rattle.std.specs.Prelude.{◌≡◌, IfErr, IfOk, None, length, true};
ghost use Rattle.yq_core.{specs.Answers.{Gives, IsOfText}, specs.Quoted.IsQuotedText};
ghost use Rattle.yq_core.{specs.Scalars.{is_quoted, scalar_content as content_text}, specs.View.inline_view as node_view};
ghost use Rattle.yq_row_table.specs.View.{row_view};
ghost use Rattle.yq_documents.specs.KeyReading.{EndsIn};
ghost use Rattle.yq_outline.{specs.Lines.head_of, specs.View.{head_view, head_flow}};
ghost use Rattle.yq_documents.specs.FlowReading as flow;
ghost use Rattle.yq_documents.specs.RowReading as spec;

use crate::content::{content_of, plain_head};
use crate::flow_keys::keys_fault;
use std::alloc::{AllocError, Global};
use yq_core::fault_place::fault;
use yq_core::{Form, Inline, Kind, Place, ReadError, first_is, is_quoted};
use yq_documents::is_block_head;
use yq_inline::read_inline;
use yq_outline::{Head, ScalarContent};
use yq_row_table::Row;
use yq_scalar::{content, read_block};
use yq_scalar_reader::plain::holds_break;

/// The head that a quoted scalar is: one on one line without escapes is borrowed.
fn quoted_head(alloc: Global, head: &str) -> Result<Head<'_>, AllocError>
    requires { is_quoted head.now ≡ true → IsQuotedText head.now }
    ensures view { IfOk result (λ h. head_view h ≡ spec.string_head (content_text head.now)) }
    ensures flow { IfOk result (λ h. head_flow h ≡ None) }
{
    let text = content_of(alloc, head)?;
    Ok(Head::Scalar(Kind::Text, text))
}

/// Whether a head is a plain scalar on one line.
pub fn is_short_plain(head: &str) -> bool
    ensures { result ≡ spec.is_short_plain head.now }
{
    let bytes = head.as_bytes();
    let other = is_quoted(bytes)
        || (first_is(b'*', bytes) || (first_is(b'[', bytes) || first_is(b'{', bytes)));
    !other && !holds_break(head)
}

/// The head that a node without an anchor is.
fn node_head<'t>(alloc: Global, node: Inline<'t>) -> Result<Head<'t>, AllocError>
    ensures view { IfOk result (λ h. head_view h ≡ spec.placed_head (node_view node.entry)) }
    ensures flow { IfOk result (λ h. head_flow h ≡
        flow.alias_or_collection (node_view node.entry)) }
{
    match node.form {
        Form::Empty => Ok(Head::Nothing),
        Form::Scalar(scalar, _) => {
            let kind = scalar.kind();
            let text = scalar.into_text(alloc)?;
            Ok(Head::Scalar(kind, ScalarContent::Own(text)))
        }
        _ => Ok(Head::Inline(Box::new(alloc, node)?)),
    }
}

/// The inline node in front, as a head, where its keys are fit.
fn read_node_head<'t>(
    alloc: Global,
    whole: &'t str,
    parent: i64,
    text: &str,
) -> Result<Head<'t>, ReadError>
    requires { EndsIn whole.now text.now }
    ensures view { Gives head_view result (spec.node_head_at whole.now parent text.now) }
    ensures flow { IfOk result (λ h. head_flow h ≡ flow.node_flow_at whole.now parent text.now) }
    ensures fault { IfErr result IsOfText }
{
    let at = whole.len() - text.len();
    let node = match read_inline(alloc, whole, at, Place::Block, parent, 0) {
        Ok(node) => node,
        Err(e) => return Err(e),
    };
    match keys_fault(whole, &node) {
        None => Ok(node_head(alloc, node)?),
        Some(fault) => Err(ReadError::Fault(fault)),
    }
}

/// The block scalar in front, as a head.
fn read_block_head<'t>(
    alloc: Global,
    whole: &str,
    parent: i64,
    text: &str,
) -> Result<Head<'t>, ReadError>
    ensures view { Gives head_view result (spec.block_head_at parent text.now) }
    ensures flow { IfOk result (λ h. head_flow h ≡ None) }
    ensures fault { IfErr result IsOfText }
{
    let piece = match read_block(text, 0, parent) {
        Ok(piece) => piece,
        Err(kind) => return Err(ReadError::Fault(fault(kind, whole, text))),
    };
    let text = content(alloc, text, &piece)?;
    Ok(Head::Scalar(Kind::Text, ScalarContent::Own(text)))
}

/// The head of a row below a parent of this indentation, that is written so and with which the text
/// begins, where its keys are fit. A plain scalar on one line is borrowed, and a quoted one without escapes.
/// The text ends where the whole one does.
#[tactic(auto, unfolding(yq_documents::specs::RowReading::read_head, yq_documents::specs::FlowReading::head_flow_at))]
pub fn read_head<'t>(
    alloc: Global,
    whole: &'t str,
    parent: i64,
    head: &'t str,
    text: &'t str,
) -> Result<Head<'t>, ReadError>
    requires quoted { is_quoted head.now ≡ true → IsQuotedText head.now }
    requires ends { EndsIn whole.now text.now }
    ensures view { Gives head_view result (spec.read_head whole.now parent head.now text.now) }
    ensures flow { IfOk result (λ h. head_flow h ≡ flow.head_flow_at whole.now parent head.now
        text.now) }
    ensures fault { IfErr result IsOfText }
{
    if head.is_empty() {
        return Ok(Head::Nothing);
    }
    if is_block_head(head.as_bytes()) {
        return read_block_head(alloc, whole, parent, text);
    }
    if is_quoted(head.as_bytes()) {
        return Ok(quoted_head(alloc, head)?);
    }
    if is_short_plain(head) {
        return Ok(plain_head(head));
    }
    read_node_head(alloc, whole, parent, text)
}

/// The head of a row whose keys are fit, read again: the text from there on ends where the whole one
/// does.
pub fn row_head<'t>(
    alloc: Global,
    whole: &'t str,
    row: &Row<'t>,
    text: &'t str,
) -> Result<Head<'t>, AllocError>
    requires ends { EndsIn whole.now text.now }
    requires row { spec.HasHead (row_view row.now) text.now }
    ensures view { (h : spec.HasHead (row_view row.now) text.now) →
        IfOk result (λ x. head_view x ≡ head_of h.row.content) }
    ensures flow { (h : spec.HasHead (row_view row.now) text.now) →
        IfOk result (λ x. head_flow x ≡ flow.row_flow (length whole.now) h.row h.rest) }
{
    match read_head(alloc, whole, row.parent_indent(), row.head(), text) {
        Ok(head) => Ok(head),
        Err(ReadError::Memory) => Err(AllocError),
        // The row has this head, and its keys are fit.
        Err(ReadError::Fault(_)) => unreachable!(),
    }
}
