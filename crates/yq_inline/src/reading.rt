//! Inline nodes, read from left to right.
ghost use Rattle.std.specs.Prelude.{◌≡◌, ◌<◌, ◌≤◌, IfErr, IfOk, length};
ghost use Rattle.yq_core.{specs.Answers.IsOfText, specs.View.inline_view};
ghost use Rattle.yq_core.specs.PlacedReading.{placed_node, placed_content, placed_coll, placed_item, placed_items, placed_entry};
ghost use Rattle.yq_inline.specs.Forms.{placed_form};
ghost use Rattle.yq_inline.specs.InlineAnswers.{GivesNode, GivesCore, GivesNodes, GivesEntry, GivesEntries, IsBetween, GivesAnchored};
ghost use Rattle.yq_core.specs.Places as spec;
ghost use Rattle.yq_core.specs.PlacedReading as reading;

use crate::item::read_following;
use crate::lead::read_open;
use crate::pieces::{begins_content, read_lead, read_name, read_sep};
use crate::scalar::{read_entry_key, read_text};
use std::alloc::Global;
use yq_core::fault_place::fault;
use yq_core::{FaultKind, Form, Inline, Piece, ReadError, strip};

/// A node without an anchor between two rests of the whole text.
#[inline(always)]
fn placed_between<'t>(whole: &str, text: &str, rest: &str, form: Form<'t>) -> Inline<'t>
    requires { (length text.now ≤ length whole.now) × (length rest.now ≤ length whole.now) }
    ensures { IsBetween whole.now text.now rest.now form.entry result }
{
    let start = whole.len() - text.len();
    Inline {
        anchor: None,
        start,
        content: start,
        end: whole.len() - rest.len(),
        form,
    }
}

/// Whether the node is nothing, not even an anchor.
pub(crate) fn is_bare(node: &Inline<'_>) -> bool
    ensures { result ≡ spec.bare_placed (inline_view node.now) }
{
    node.anchor.is_none() && matches!(node.form, Form::Empty)
}

/// Whether an anchor may come before the node.
fn takes_anchor(node: &Inline<'_>) -> bool
    ensures { result ≡ reading.takes_placed (inline_view node.now) }
{
    node.anchor.is_none() && !matches!(node.form, Form::Alias(_))
}

/// Whether the node may come after an anchor and this gap.
fn may_follow_anchor(gap: &str, node: &Inline<'_>) -> bool
    ensures { result ≡ reading.may_follow_anchor gap.now (inline_view node.now) }
{
    (is_bare(node) || !gap.is_empty()) && takes_anchor(node)
}

/// The node with its anchor, that begins with the text.
fn put_anchor<'t>(
    whole: &str,
    text: &'t str,
    name: &'t str,
    gap: &'t str,
    node: Inline<'t>,
    rest: &'t str,
) -> Result<(Inline<'t>, &'t str), ReadError>
    requires { length text.now ≤ length whole.now }
    ensures shorter { IfOk result (λ x. x.1.now ≡ rest.now) }
    ensures read { GivesAnchored whole.now text.now name.now gap.now node.entry rest.now result }
    ensures fault { IfErr result IsOfText }
{
    if !may_follow_anchor(gap, &node) {
        return Err(ReadError::from(fault(FaultKind::BadScalar, whole, text)));
    }
    Ok((
        Inline {
            anchor: Some(name),
            start: whole.len() - text.len(),
            content: node.content,
            end: node.end,
            form: node.form,
        },
        rest,
    ))
}

/// The node in front, with at most `depth` collections nested, and what follows it.
#[cycle(nodes)]
pub fn read_node<'t>(
    alloc: Global,
    flow: bool,
    spaces: Option<usize>,
    whole: &'t str,
    depth: usize,
    text: &'t str,
) -> Result<(Inline<'t>, &'t str), ReadError>
    requires { length text.now ≤ length whole.now }
    ensures shorter { IfOk result (λ x. length x.1.now ≤ length text.now) }
    ensures read { GivesNode result (placed_node flow spaces (length whole.now) depth text.now) }
    ensures fault { IfErr result IsOfText }
{
    let Some(after) = strip(b'&', text) else {
        return read_content(alloc, flow, spaces, whole, depth, text);
    };
    let (name, rest) = read_name(whole, after)?;
    let (gap, rest) = read_lead(flow, whole, rest)?;
    match read_content(alloc, flow, spaces, whole, depth, rest) {
        Ok((node, rest)) => put_anchor(whole, text, name, gap, node, rest),
        Err(e) => Err(e),
    }
}

/// The node in front, which has no anchor, and what follows it.
#[cycle(nodes)]
fn read_content<'t>(
    alloc: Global,
    flow: bool,
    spaces: Option<usize>,
    whole: &'t str,
    depth: usize,
    text: &'t str,
) -> Result<(Inline<'t>, &'t str), ReadError>
    requires { length text.now ≤ length whole.now }
    ensures shorter { IfOk result (λ x. length x.1.now ≤ length text.now) }
    ensures read { GivesNode result (placed_content flow spaces (length whole.now) depth text.now) }
    ensures fault { IfErr result IsOfText }
{
    match read_form(alloc, flow, spaces, whole, depth, text) {
        Ok((form, rest)) => Ok((placed_between(whole, text, rest, form), rest)),
        Err(e) => Err(e),
    }
}

/// What the node in front is, which has no anchor, and what follows it.
#[inline(always)]
#[cycle(nodes)]
fn read_form<'t>(
    alloc: Global,
    flow: bool,
    spaces: Option<usize>,
    whole: &'t str,
    depth: usize,
    text: &'t str,
) -> Result<(Form<'t>, &'t str), ReadError>
    requires { length text.now ≤ length whole.now }
    ensures shorter { IfOk result (λ x. length x.1.now ≤ length text.now) }
    ensures read { GivesCore result (placed_form flow spaces (length whole.now) depth text.now) }
    ensures fault { IfErr result IsOfText }
{
    if let Some(after) = strip(b'*', text) {
        let (name, rest) = read_name(whole, after)?;
        return Ok((Form::Alias(name), rest));
    }
    if let Some(after) = strip(b'[', text) {
        return read_sequence(alloc, whole, depth, after);
    }
    if let Some(after) = strip(b'{', text) {
        return read_mapping(alloc, whole, depth, after);
    }
    if begins_content(flow, text.as_bytes()) {
        return read_text(alloc, flow, spaces, whole, text);
    }
    Ok((Form::Empty, text))
}

/// A sequence after its `[`, and what follows it.
#[cycle(nodes)]
fn read_sequence<'t>(
    alloc: Global,
    whole: &'t str,
    depth: usize,
    text: &'t str,
) -> Result<(Form<'t>, &'t str), ReadError>
    requires { length text.now ≤ length whole.now }
    ensures shorter { IfOk result (λ x. length x.1.now ≤ length text.now) }
    ensures read { GivesCore result (placed_coll (length whole.now) depth 93 text.now) }
    ensures fault { IfErr result IsOfText }
{
    let rest = read_open(whole, depth, text)?;
    match read_items(alloc, whole, depth - 1, text, rest) {
        Ok((items, rest)) => Ok((Form::List(items), rest)),
        Err(e) => Err(e),
    }
}

/// A mapping after its `{`, and what follows it.
#[cycle(nodes)]
fn read_mapping<'t>(
    alloc: Global,
    whole: &'t str,
    depth: usize,
    text: &'t str,
) -> Result<(Form<'t>, &'t str), ReadError>
    requires { length text.now ≤ length whole.now }
    ensures shorter { IfOk result (λ x. length x.1.now ≤ length text.now) }
    ensures read { GivesCore result (placed_coll (length whole.now) depth 125 text.now) }
    ensures fault { IfErr result IsOfText }
{
    let rest = read_open(whole, depth, text)?;
    match read_entries(alloc, whole, depth - 1, text, rest) {
        Ok((entries, rest)) => Ok((Form::Map(entries), rest)),
        Err(e) => Err(e),
    }
}

/// The item in front up to after its `,`, and what follows; after the `[` was `open`.
#[cycle(nodes)]
fn read_item<'t>(
    alloc: Global,
    whole: &'t str,
    depth: usize,
    open: &str,
    text: &'t str,
) -> Result<(Inline<'t>, &'t str), ReadError>
    requires { length text.now ≤ length whole.now }
    ensures shorter { IfOk result (λ x. length x.1.now < length text.now) }
    ensures read { GivesNode result (placed_item (length whole.now) depth text.now) }
    ensures fault { IfErr result IsOfText }
{
    match read_node(alloc, true, Some(0), whole, depth, text) {
        Ok((item, rest)) => {
            let after = read_following(whole, open, text, &item, rest)?;
            Ok((item, after))
        }
        Err(e) => Err(e),
    }
}

/// The items in front, and what follows their `]`; after their `[` was `open`.
#[cycle(nodes)]
#[tactic(auto, using(yq_core::proofs::Steps::items_more, yq_core::proofs::Steps::items_end))]
fn read_items<'t>(
    alloc: Global,
    whole: &'t str,
    depth: usize,
    open: &str,
    text: &'t str,
) -> Result<(Vec<Inline<'t>>, &'t str), ReadError>
    requires { length text.now ≤ length whole.now }
    ensures shorter { IfOk result (λ x. length x.1.now ≤ length text.now) }
    ensures read { GivesNodes result (placed_items (length whole.now) depth 93 text.now) }
    ensures fault { IfErr result IsOfText }
{
    let mut items = Vec::new(alloc);
    let mut rest = text;
    'each: loop {
        if let Some(following) = strip(b']', rest) {
            items.shrink_to_fit();
            return Ok((items, following));
        }
        let (item, after) = read_item(alloc, whole, depth, open, rest)?;
        items.push(item)?;
        rest = after;
    }
}

/// The entry in front up to after its `,`, and what follows; after the `{` was `open`.
#[cycle(nodes)]
fn read_entry<'t>(
    alloc: Global,
    whole: &'t str,
    depth: usize,
    open: &str,
    text: &'t str,
) -> Result<((String, Piece, Inline<'t>), &'t str), ReadError>
    requires { length text.now ≤ length whole.now }
    ensures shorter { IfOk result (λ x. length x.1.now < length text.now) }
    ensures read { GivesEntry result (placed_entry (length whole.now) depth text.now) }
    ensures fault { IfErr result IsOfText }
{
    let (key, piece, rest) = read_entry_key(alloc, whole, open, text)?;
    let (value, rest) = read_node(alloc, true, Some(0), whole, depth, rest)?;
    let rest = read_sep(b'}', whole, open, rest)?;
    Ok(((key, piece, value), rest))
}

/// The entries in front, and what follows their `}`; after their `{` was `open`.
#[cycle(nodes)]
#[tactic(auto, using(yq_core::proofs::Steps::entries_more, yq_core::proofs::Steps::items_end))]
fn read_entries<'t>(
    alloc: Global,
    whole: &'t str,
    depth: usize,
    open: &str,
    text: &'t str,
) -> Result<(Vec<(String, Piece, Inline<'t>)>, &'t str), ReadError>
    requires { length text.now ≤ length whole.now }
    ensures shorter { IfOk result (λ x. length x.1.now ≤ length text.now) }
    ensures read { GivesEntries result (placed_items (length whole.now) depth 125 text.now) }
    ensures fault { IfErr result IsOfText }
{
    let mut entries = Vec::new(alloc);
    let mut rest = text;
    'each: loop {
        if let Some(following) = strip(b'}', rest) {
            entries.shrink_to_fit();
            return Ok((entries, following));
        }
        let (entry, after) = read_entry(alloc, whole, depth, open, rest)?;
        entries.push(entry)?;
        rest = after;
    }
}
