//! The ends of inline nodes, found without their trees.
ghost use Rattle.std.specs.Prelude.{◌≡◌, ◌≢◌, ◌<◌, ◌≤◌, IfErr, IfOk, IfSome, MatchOption, Some, false, length, true};
ghost use Rattle.yq_core.{specs.Answers.ReadsAs, specs.Nodes.begins_with, specs.declared.fault.FaultKind.TheVariants.NotUtf8};
ghost use Rattle.yq_core.{specs.Scalars.scalar_style as style_at, specs.PlacedReading.{placed_node, placed_content, placed_coll}};
ghost use Rattle.yq_inline.{specs.InlineAnswers.{MeasuresNode, PassesNode}, specs.Measured.{closing_byte, measured_view}};
ghost use Rattle.yq_inline.specs.Measured as spec;

use crate::fault::flow_fault;
use crate::lead::read_open;
use crate::parts::closing_bracket;
use crate::pieces::{
    begins_content, no_node, read_key, read_lead, read_name, read_scalar, read_sep,
};
use crate::short::short_scalar;
use yq_core::fault_place::fault;
use yq_core::{FaultKind, ReadFault, strip};

/// What a node is, after its anchor.
#[derive(Clone, Copy)]
pub enum MeasuredKind {
    /// Nothing.
    Nothing,
    /// An alias.
    Alias,
    /// A plain scalar.
    Plain,
    /// A scalar in quotes.
    Quoted,
    /// A flow collection.
    Collection,
}

/// A node in front of a text, without its parts.
#[derive(Clone, Copy)]
pub struct Measured<'t> {
    /// Whether it has an anchor.
    pub anchored: bool,
    pub kind: MeasuredKind,
    /// What follows it.
    pub rest: &'t str,
}

/// The kind of a scalar as it is written.
fn kind_of(piece: &str) -> MeasuredKind
    ensures { result ≡ spec.kind_of_style (style_at piece.now) }
{
    match piece.as_bytes() {
        [b'\'' | b'"', ..] => MeasuredKind::Quoted,
        _ => MeasuredKind::Plain,
    }
}

/// Whether the node is nothing, not even an anchor.
fn is_bare(node: Measured<'_>) -> bool
    ensures { result ≡ spec.is_no_node (node.entry.anchored, node.entry.kind) }
{
    !node.anchored && matches!(node.kind, MeasuredKind::Nothing)
}

/// Whether the node may come after an anchor and this gap.
fn may_follow(gap: &str, node: Measured<'_>) -> bool
    ensures { result ≡ spec.node_may_follow gap.now (node.entry.anchored, node.entry.kind) }
{
    (is_bare(node) || !gap.is_empty())
        && !node.anchored
        && !matches!(node.kind, MeasuredKind::Alias)
}

/// A node without an anchor.
fn unanchored(kind: MeasuredKind, rest: &str) -> Measured<'_>
    ensures { measured_view result ≡ ((false, kind), rest.now) }
{
    Measured {
        anchored: false,
        kind,
        rest,
    }
}

/// The node in front of an item or of a value, where it is a scalar as most often written.
#[inline(always)]
fn measure_scalar(text: &str) -> Option<Measured<'_>>
    ensures read { IfSome result (spec.MeasuresScalar text.now) }
    ensures shorter { IfSome result (λ m. length m.rest.now ≤ length text.now) }
{
    let (piece, rest) = short_scalar(text)?;
    Some(unanchored(kind_of(piece), rest))
}

/// The node in front, with at most `depth` collections nested.
#[cycle(ends)]
pub fn measure_node<'t>(
    flow: bool,
    spaces: Option<usize>,
    whole: &str,
    depth: usize,
    text: &'t str,
) -> Result<Measured<'t>, ReadFault>
    ensures shorter { IfOk result (λ m. length m.rest.now ≤ length text.now) }
    ensures read { MeasuresNode result (placed_node flow spaces 0 depth text.now) }
    ensures fault { IfErr result (λ f. f.kind ≢ NotUtf8) }
{
    let Some(after) = strip(b'&', text) else {
        return measure_content(flow, spaces, whole, depth, text);
    };
    let (_, rest) = read_name(whole, after)?;
    let (gap, rest) = read_lead(flow, whole, rest)?;
    let node = measure_content(flow, spaces, whole, depth, rest)?;
    if !may_follow(gap, node) {
        return Err(fault(FaultKind::BadScalar, whole, text));
    }
    Ok(Measured {
        anchored: true,
        kind: node.kind,
        rest: node.rest,
    })
}

/// The node in front, where it has no anchor and is no collection.
#[inline(always)]
fn measure_leaf<'t>(
    flow: bool,
    spaces: Option<usize>,
    whole: &str,
    text: &'t str,
) -> Result<Measured<'t>, ReadFault>
    requires sequence { begins_with 91 text.now ≡ false }
    requires mapping { begins_with 123 text.now ≡ false }
    ensures shorter { IfOk result (λ m. length m.rest.now ≤ length text.now) }
    ensures read { MeasuresNode result (placed_content flow spaces 0 0 text.now) }
    ensures fault { IfErr result (λ f. f.kind ≢ NotUtf8) }
{
    if let Some(after) = strip(b'*', text) {
        let (_, rest) = read_name(whole, after)?;
        return Ok(unanchored(MeasuredKind::Alias, rest));
    }
    if begins_content(flow, text.as_bytes()) {
        let (piece, rest) = read_scalar(flow, spaces, whole, text)?;
        return Ok(unanchored(kind_of(piece), rest));
    }
    Ok(unanchored(MeasuredKind::Nothing, text))
}

/// Whether a mapping, or else a sequence, is in front, and what follows its bracket.
#[inline(always)]
pub(crate) fn split_opening(text: &str) -> Option<(bool, &str)>
    ensures { MatchOption result (spec.HasNoBracket text.now) (λ x. spec.HasBracket text.now x.0 x.1.now) }
{
    if let Some(rest) = strip(b'[', text) {
        return Some((false, rest));
    }
    let rest = strip(b'{', text)?;
    Some((true, rest))
}

/// The node in front, which has no anchor.
#[inline(always)]
#[cycle(ends)]
fn measure_content<'t>(
    flow: bool,
    spaces: Option<usize>,
    whole: &str,
    depth: usize,
    text: &'t str,
) -> Result<Measured<'t>, ReadFault>
    ensures shorter { IfOk result (λ m. length m.rest.now ≤ length text.now) }
    ensures read { MeasuresNode result (placed_content flow spaces 0 depth text.now) }
    ensures fault { IfErr result (λ f. f.kind ≢ NotUtf8) }
{
    let Some((keyed, inside)) = split_opening(text) else {
        return measure_leaf(flow, spaces, whole, text);
    };
    let rest = measure_parts(whole, depth, keyed, inside)?;
    Ok(unanchored(MeasuredKind::Collection, rest))
}

/// The node in front of an item or of a value.
#[inline(always)]
#[cycle(ends)]
pub(crate) fn measure_value<'t>(
    whole: &str,
    depth: usize,
    text: &'t str,
) -> Result<Measured<'t>, ReadFault>
    ensures shorter { IfOk result (λ m. length m.rest.now ≤ length text.now) }
    ensures read { MeasuresNode result (placed_node true (Some 0) 0 depth text.now) }
    ensures fault { IfErr result (λ f. f.kind ≢ NotUtf8) }
{
    match measure_scalar(text) {
        Some(node) => Ok(node),
        None => measure_node(true, Some(0), whole, depth, text),
    }
}

/// The node of the entry, or item, in front, and what follows it; after the `{` or `[` was `open`.
#[inline(always)]
fn find_value<'t>(whole: &str, keyed: bool, open: &str, text: &'t str) -> Result<&'t str, ReadFault>
    ensures shorter { IfOk result (λ r. length r.now ≤ length text.now) }
    ensures after_key { IfOk result (λ r. keyed ≡ true → length r.now < length text.now) }
    ensures read { ReadsAs (λ r. r.now) result (spec.from_value keyed text.now) }
    ensures fault { IfErr result (λ f. f.kind ≢ NotUtf8) }
{
    if !keyed {
        return Ok(text);
    }
    let (_, rest) = read_key(whole, open, text)?;
    Ok(rest)
}

/// What follows the entry, or item, in front of `text` and the `,` after it, by its node; after the `{` or
/// `[` was `open`.
#[inline(always)]
fn past_value<'t>(
    whole: &str,
    keyed: bool,
    open: &str,
    text: &str,
    node: Measured<'t>,
) -> Result<&'t str, ReadFault>
    ensures shorter { IfOk result (λ r. length r.now ≤ length node.entry.rest.now) }
    ensures read { ReadsAs (λ r. r.now) result (spec.past_value keyed (measured_view node.entry)) }
    ensures fault { IfErr result (λ f. f.kind ≢ NotUtf8) }
{
    if keyed {
        return read_sep(b'}', whole, open, node.rest);
    }
    if is_bare(node) {
        let kind = no_node(text.as_bytes(), FaultKind::BadFlow);
        return Err(flow_fault(kind, whole, open, text));
    }
    read_sep(b']', whole, open, node.rest)
}

/// What follows a mapping, or else a sequence, of which the `{` or `[` came before the text.
#[cycle(ends)]
fn measure_parts<'t>(
    whole: &str,
    depth: usize,
    keyed: bool,
    text: &'t str,
) -> Result<&'t str, ReadFault>
    ensures shorter { IfOk result (λ r. length r.now ≤ length text.now) }
    ensures read { PassesNode result (placed_coll 0 depth (closing_byte keyed) text.now) }
    ensures fault { IfErr result (λ f. f.kind ≢ NotUtf8) }
{
    let closing = closing_bracket(keyed);
    let first = read_open(whole, depth, text)?;
    let mut rest = first;
    'each: loop {
        if let Some(after) = strip(closing, rest) {
            return Ok(after);
        }
        let value = find_value(whole, keyed, text, rest)?;
        let node = measure_value(whole, depth - 1, value)?;
        rest = past_value(whole, keyed, text, rest, node)?;
    }
}
