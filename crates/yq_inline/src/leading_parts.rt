//! The collection in front of a text.
ghost use Rattle.std.specs.Prelude.{◌≡◌, [], option_map};
ghost use Rattle.yq_inline.specs.Along as spec;
ghost use Rattle.yq_inline.specs.Neighbours as collections;

use crate::before_offset::{LeadingNode, LeadingParts};
use crate::lead::read_gap;
use crate::measuring::split_opening;
use crate::pieces::{read_lead, read_name};
use yq_core::strip;

/// What follows the anchor of the node in front and the gap after it; the text, if there is none.
fn after_anchor(flow: bool, text: &str) -> Option<&str>
    ensures { option_map (λ r. r.now) result ≡ spec.after_anchor flow text.now }
{
    let Some(after) = strip(b'&', text) else {
        return Some(text);
    };
    let Ok((_, rest)) = read_name(text, after) else {
        return None;
    };
    let Ok((_, rest)) = read_lead(flow, text, rest) else {
        return None;
    };
    Some(rest)
}

/// What follows the bracket of the collection in front, after its anchor if it has one, and its items or entries.
pub(crate) fn leading_parts<'t>(node: LeadingNode<'t>) -> Option<(&'t str, LeadingParts<'t>)>
    ensures { collections.FindsCollection (collections.coll_read [] (spec.front_read node.entry)) result }
{
    let Some(content) = after_anchor(node.flow, node.text) else {
        return None;
    };
    let Some((keyed, inside)) = split_opening(content) else {
        return None;
    };
    let Ok((_, text)) = read_gap(inside, inside) else {
        return None;
    };
    if node.depth == 0 {
        return None;
    }
    let parts = LeadingParts {
        depth: node.depth - 1,
        keyed,
        text,
    };
    Some((inside, parts))
}
