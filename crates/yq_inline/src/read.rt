//! The inline node at an offset of a text.
ghost use Rattle.std.{specs.Prelude.{◌≡◌, ◌⊎◌, IfErr, IfOk}, specs.Str.IsCharBoundary};
ghost use Rattle.yq_core.{specs.Answers.{Gives, IsOfText}, specs.declared.style.Place.TheVariants.{Block, Flow}};
ghost use Rattle.yq_core.{specs.Spans.{HasSpans, IsNested}, specs.View.inline_view, specs.Inline.IsInlineAt};
ghost use Rattle.yq_inline.specs.InlineAnswers.{GivesEach};
ghost use Rattle.yq_core.specs.Inline as spec;

use crate::pieces::no_node;
use crate::reading::{is_bare, read_node};
use std::alloc::Global;
use yq_core::fault_place::fault;
use yq_core::{DEPTH_LIMIT, FaultKind, Inline, Place, ReadError, further_spaces};
use yq_scalar_reader::in_flow;

fn inline_at<'t>(
    alloc: Global,
    text: &'t str,
    at: usize,
    place: Place,
    indent: i64,
    depth: usize,
) -> Result<Inline<'t>, ReadError>
    requires { IsCharBoundary text.now at }
    ensures read { Gives inline_view result (spec.inline_at place indent depth at text.now) }
    ensures fault { IfErr result IsOfText }
{
    let rest = text.split_at(at).1;
    let room = DEPTH_LIMIT.saturating_sub(depth);
    let (node, _) = read_node(
        alloc,
        in_flow(place),
        further_spaces(place, indent),
        text,
        room,
        rest,
    )?;
    if is_bare(&node) {
        let kind = no_node(rest.as_bytes(), FaultKind::BadScalar);
        return Err(ReadError::from(fault(kind, text, rest)));
    }
    Ok(node)
}

/// The inline node that begins at an offset of a text, in bytes (YAML 1.2.2, sections 6.9.2, 7.1, 7.3
/// and 7.4). `indent` is the indentation of its parent, in columns, or -1 if it has none; `depth` is
/// how many collections are around the node.
///
/// The node is not empty: it has at least an anchor. Outside flow collections the node of an anchor is
/// on the anchor's line. A node is refused before it is read if more than 64 collections would be
/// nested.
#[tactic(auto, using(yq_core::proofs::InlineLaws::inline_laws, yq_core::proofs::SpanLaws::spans_by, yq_core::proofs::NestedLaws::nested_by))]
pub fn read_inline<'t>(
    alloc: Global,
    text: &'t str,
    at: usize,
    place: Place,
    indent: i64,
    depth: usize,
) -> Result<Inline<'t>, ReadError>
    requires { IsCharBoundary text.now at × ((place ≡ Block) ⊎ (place ≡ Flow)) }
    // The node is what reading from left to right gives.
    ensures exact { Gives inline_view result (spec.inline_at place indent depth at text.now) }
    // What is read is an inline node that begins there, with the places of its parts.
    ensures found { IfOk result (λ node. IsInlineAt place indent depth at text.now (inline_view node)) }
    // Where one begins it is given, unless memory runs out.
    ensures only { GivesEach result (IsInlineAt place indent depth at text.now) }
    // Its places lie in order, each at a character of the text or at its end.
    ensures spans { IfOk result (λ node. HasSpans text.now (inline_view node)) }
    // Its parts lie inside it, one after the other, each key before its value.
    ensures nested { IfOk result (λ node. IsNested (inline_view node)) }
    // A fault is never that the bytes are not UTF-8.
    ensures fault { IfErr result IsOfText }
{
    inline_at(alloc, text, at, place, indent, depth)
}
