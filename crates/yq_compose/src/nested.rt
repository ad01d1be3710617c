//! What is asked of a head: how deep collections are nested in it, and the keys of each.
ghost use Rattle.std.specs.Prelude.{◌≡◌, length, option_and_then, option_map, slice_get, IfErr, Some};
ghost use Rattle.yq_core.specs.Answers.{IsOfText};
ghost use Rattle.yq_outline.specs.RowWalk.{IsLine};
ghost use Rattle.yq_row_table.{specs.Exchange.after_row, specs.Rows.Row, specs.View.rows_of};
ghost use Rattle.yq_documents.{specs.Decoded.decoded_head_flow, specs.FlowReading.row_flow as flow_in_row};
ghost use Rattle.yq_compose.{specs.Ahead.IsAhead, specs.Checking.{IsChecked, IsReached, OfCheckedLine}, specs.Deciding.Decides};
ghost use Rattle.yq_compose.specs.Flows.{flow_view};
ghost use Rattle.yq_outline.specs.Sound as spec;

use crate::ahead::decoded_here;
use crate::checked::Checked;
use crate::inline_fault::{borrowed_fault, is_shallow, node_fault};
use crate::reached::Reached;
use std::alloc::Global;
use yq_core::{BorrowedNode, Inline, ReadError};
use yq_documents::{BORROWED_DEPTH, Decoded, DecodedHead, known_head};
use yq_outline::Head;
use yq_row_walk::has_head;

/// The alias or flow collection in a row's head.
#[derive(Clone, Copy)]
pub(crate) enum Flow<'a, 't> {
    /// It is read.
    Owned(&'a Inline<'t>),
    /// The text lends each key and scalar of it.
    Borrowed(BorrowedNode<'t>),
    /// It is an alias, by its name and the byte where it begins.
    Alias(&'t str, usize),
}

/// The alias or flow collection that a head is, if it is one.
fn flow_of<'a, 't>(head: Option<DecodedHead<'a, 't>>) -> Option<Flow<'a, 't>>
    ensures { option_map flow_view result ≡ option_and_then decoded_head_flow head.entry }
{
    match head {
        Some(DecodedHead::Borrowed(node)) => Some(Flow::Borrowed(node)),
        Some(DecodedHead::Alias(name, start)) => Some(Flow::Alias(name, start)),
        Some(DecodedHead::Owned(Head::Inline(node))) => Some(Flow::Owned(node)),
        Some(DecodedHead::Owned(Head::Scalar(..))) => None,
        Some(DecodedHead::Owned(Head::Nothing)) => None,
        None => None,
    }
}

/// The alias or flow collection in the head of row `i`, if one is there, by what is made from it on.
pub(crate) fn row_flow<'a, 't>(
    x: Checked<'a, 't>,
    i: usize,
    decoded: &'a [Decoded<'t>],
) -> Option<Flow<'a, 't>>
    requires ready { IsChecked x }
    requires decoded { IsAhead x.decoded.now i decoded.now }
    ensures { (k : IsChecked x.entry) (r : Row) → slice_get (rows_of k.cut) i ≡ Some r →
        option_map flow_view result ≡ flow_in_row (length x.entry.text.now) r (after_row i k.cut) }
{
    flow_of(known_head(x.text, x.rows, i, decoded_here(decoded, i)))
}

/// The alias or flow collection in the head of a line, in which at most so many collections may be nested.
fn flow_fault<'a, 't>(
    alloc: Global,
    x: Checked<'a, 't>,
    at: Reached<'a, 't>,
    depth: usize,
) -> Result<(), ReadError>
    requires ready { IsChecked x }
    requires at { IsReached x.decoded.now x.rows.now x.document at }
    requires line { IsLine x.rows.now x.document at.position }
    ensures sound { OfCheckedLine x.entry at.entry.position (λ ls n l. Decides result
        (spec.head_is_sound depth l.head)) }
    ensures fault { IfErr result IsOfText }
{
    let node = match row_flow(x, at.position.row, at.decoded) {
        Some(node) => node,
        None => return Ok(()),
    };
    if is_shallow(node, depth) {
        return Ok(());
    }
    if !has_head(x.rows, x.document, at.position) {
        return Ok(());
    }
    match node {
        Flow::Owned(node) => node_fault(alloc, x.text, node, depth),
        Flow::Borrowed(node) => borrowed_fault(alloc, x.text, node, depth),
        Flow::Alias(..) => Ok(()),
    }
}

/// The head of a line, in which at most so many collections may be nested. In one that the text lends are few.
#[inline(always)]
pub(crate) fn head_fault<'a, 't>(
    alloc: Global,
    x: Checked<'a, 't>,
    at: Reached<'a, 't>,
    depth: usize,
) -> Result<(), ReadError>
    requires ready { IsChecked x }
    requires at { IsReached x.decoded.now x.rows.now x.document at }
    requires line { IsLine x.rows.now x.document at.position }
    ensures sound { OfCheckedLine x.entry at.entry.position (λ ls n l. Decides result
        (spec.head_is_sound depth l.head)) }
    ensures fault { IfErr result IsOfText }
{
    if BORROWED_DEPTH <= depth && decoded_here(at.decoded, at.position.row).is_none() {
        return Ok(());
    }
    flow_fault(alloc, x, at, depth)
}
