//! Items and entries of collections in front of a text, passed one after the other without their trees.
ghost use Rattle.std.{specs.Prelude.{◌≡◌, None, false, option_map, true}, specs.Str.bytes_eq};
ghost use Rattle.yq_core.{specs.Entries.tree_step, specs.Nodes.begins_with, specs.Quoted.IsQuotedText};
ghost use Rattle.yq_core.{specs.Scalars.{is_quoted as is_in_quotes, scalar_content}, specs.Tree.key_label};
ghost use Rattle.yq_inline.specs.Measured.{closing_byte};
ghost use Rattle.yq_core.specs.Paths as paths;
ghost use Rattle.yq_inline.specs.Neighbours as spec;

use crate::before_offset::LeadingParts;
use crate::measuring::measure_value;
use crate::parts::closing_bracket;
use crate::pieces::{read_key, read_sep};
use yq_core::{Step, first_is, is_quoted};
use yq_scalar_reader::same_content::{is_plain_content, is_quoted_content};

/// An item or entry that was passed.
#[derive(Clone, Copy)]
pub struct PassedPart<'t> {
    /// The text from it on.
    pub text: &'t str,
    /// What follows its node.
    pub rest: &'t str,
}

/// The place among items or entries to which a step leads.
#[derive(Clone, Copy)]
pub(crate) struct FoundPart<'t> {
    /// The item or entry before it.
    pub(crate) before: Option<PassedPart<'t>>,
    /// Those from it on.
    pub(crate) parts: LeadingParts<'t>,
    /// The text from its node on.
    pub(crate) node: &'t str,
}

/// Whether no item or entry is in front.
fn are_none(parts: LeadingParts<'_>) -> bool
    ensures { result ≡ begins_with (closing_byte parts.entry.keyed) parts.entry.text.now }
{
    first_is(closing_bracket(parts.keyed), parts.text.as_bytes())
}

/// The key in front as it is written, if entries have one, and the text from the node on.
fn leading_key<'t>(parts: LeadingParts<'t>) -> (Option<&'t str>, &'t str)
    requires { begins_with (closing_byte parts.keyed) parts.text.now ≡ false }
    ensures { spec.IsLeadingKey parts.entry result }
{
    if !parts.keyed {
        return (None, parts.text);
    }
    match read_key(parts.text, parts.text, parts.text) {
        Ok((piece, node)) => (Some(piece), node),
        // An entry is in front.
        Err(_) => unreachable!(),
    }
}

/// The first item or entry, whose node begins this text, and the others after it.
pub(crate) fn pass<'t>(parts: LeadingParts<'t>, node: &'t str) -> (PassedPart<'t>, LeadingParts<'t>)
    requires { spec.IsLeadingPart parts node.now }
    ensures { (f : spec.IsLeadingPart parts.entry node.now) → spec.IsPassed parts.entry node.now f result }
{
    let value = match measure_value(node, parts.depth, node) {
        Ok(value) => value,
        // A node is in front.
        Err(_) => unreachable!(),
    };
    let text = match read_sep(closing_bracket(parts.keyed), node, node, value.rest) {
        Ok(text) => text,
        // It is followed by a comma, or by the closing bracket.
        Err(_) => unreachable!(),
    };
    let passed = PassedPart {
        text: parts.text,
        rest: value.rest,
    };
    let others = LeadingParts {
        depth: parts.depth,
        keyed: parts.keyed,
        text,
    };
    (passed, others)
}

/// The last item or entry in front, if there is one.
pub(crate) fn last_part<'t>(parts: LeadingParts<'t>) -> Option<PassedPart<'t>>
    ensures { option_map spec.passed_view result ≡ spec.last_read None parts.entry }
{
    let mut rest = parts;
    let mut last = None;
    'each: while !are_none(rest) {
        let (_, node) = leading_key(rest);
        let (passed, others) = pass(rest, node);
        last = Some(passed);
        rest = others;
    }
    last
}

/// The text from the first item or entry on, if there is one.
pub(crate) fn first_text<'t>(parts: LeadingParts<'t>) -> Option<&'t str>
    ensures { option_map (λ t. t.now) result ≡ spec.first_read parts.entry }
{
    if are_none(parts) {
        return None;
    }
    Some(parts.text)
}

/// Whether a key, as it is written, means this.
#[tactic(auto, unfolding(yq_core::specs::Scalars::scalar_content))]
fn means(piece: &str, key: &str) -> bool
    requires { is_in_quotes piece.now ≡ true → IsQuotedText piece.now }
    ensures { result ≡ bytes_eq (scalar_content piece.now) key.now }
{
    if is_quoted(piece.as_bytes()) {
        is_quoted_content(piece, key)
    } else {
        is_plain_content(piece, key)
    }
}

/// The index to which a step leads; 0 for a key.
fn index_of(step: &Step) -> usize
    ensures { spec.with_index result (tree_step step.now) ≡ tree_step step.now }
{
    match step {
        Step::Key(_) => 0,
        Step::Index(index) => *index,
    }
}

/// Whether a step, with the index that is left of it, leads to the first item or entry, which has this key if it has one.
fn is_here(step: &Step, left: usize, key: Option<&str>) -> bool
    requires { spec.IsWrittenKey key }
    ensures { result ≡ paths.is_here (spec.with_index left (tree_step step.now))
        (key_label (spec.key_means key.entry)) }
{
    match (step, key) {
        (Step::Key(own), Some(piece)) => means(piece, own.as_str()),
        (Step::Index(_), None) => left == 0,
        (Step::Key(_), None) | (Step::Index(_), Some(_)) => false,
    }
}

/// Where a step leads among items or entries.
pub(crate) fn find_part<'t>(parts: LeadingParts<'t>, step: &Step) -> Option<FoundPart<'t>>
    ensures { spec.FindsStep (tree_step step.now) parts.entry result }
{
    let mut rest = parts;
    let mut left = index_of(step);
    let mut before = None;
    'each: while !are_none(rest) {
        let (key, node) = leading_key(rest);
        if is_here(step, left, key) {
            return Some(FoundPart {
                before,
                parts: rest,
                node,
            });
        }
        let (passed, others) = pass(rest, node);
        left = left.saturating_sub(1);
        before = Some(passed);
        rest = others;
    }
    None
}
