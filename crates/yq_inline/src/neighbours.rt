//! The ends of collections in front of a text, and the items and entries next to one of these, found without trees.
ghost use Rattle.std.specs.Prelude.{◌≡◌, map};
ghost use Rattle.yq_core.specs.Entries.{tree_step};
ghost use Rattle.yq_inline.specs.Along.{front_read};
ghost use Rattle.yq_inline.specs.Neighbours as spec;

use crate::along::front_along;
use crate::before_offset::{LeadingNode, LeadingParts};
use crate::leading_parts::leading_parts;
use crate::passing::{PassedPart, find_part, first_text, last_part, pass};
use yq_core::Step;

/// An item or entry, the one before it, and the text from the one after it on, if there are such.
#[derive(Clone, Copy)]
pub struct Neighbours<'t> {
    pub before: Option<PassedPart<'t>>,
    pub here: PassedPart<'t>,
    pub next: Option<&'t str>,
}

/// Where a collection ends.
#[derive(Clone, Copy)]
pub struct CollectionEnd<'t> {
    /// Whether it is a mapping.
    pub keyed: bool,
    /// Whether it has items or entries.
    pub some: bool,
    /// What follows the last one, or the opening bracket if there is none.
    pub rest: &'t str,
}

/// What follows the bracket of the collection to which steps lead, and its items or entries, if there is one.
fn collection_along<'t>(
    node: LeadingNode<'t>,
    steps: &[Step],
) -> Option<(&'t str, LeadingParts<'t>)>
    ensures { spec.FindsCollection (spec.coll_read (map tree_step steps.now)
        (front_read node.entry)) result }
{
    let Some(found) = front_along(node, steps) else {
        return None;
    };
    leading_parts(found)
}

/// What follows the last item or entry, or this text, if there is none.
fn past_last<'t>(last: Option<PassedPart<'t>>, inside: &'t str) -> &'t str
    ensures { result.now ≡ spec.past_passed last.entry inside.now }
{
    match last {
        Some(part) => part.rest,
        None => inside,
    }
}

/// Where the collection to which steps lead ends, if there is one.
pub fn collection_end<'t>(node: LeadingNode<'t>, steps: &[Step]) -> Option<CollectionEnd<'t>>
    ensures { spec.FindsEnd (map tree_step steps.now) node.entry result }
{
    let Some((inside, parts)) = collection_along(node, steps) else {
        return None;
    };
    let last = last_part(parts);
    Some(CollectionEnd {
        keyed: parts.keyed,
        some: last.is_some(),
        rest: past_last(last, inside),
    })
}

/// The item or entry to which a step leads in the collection to which steps lead, if there is one.
pub fn part_neighbours<'t>(
    node: LeadingNode<'t>,
    steps: &[Step],
    last: &Step,
) -> Option<Neighbours<'t>>
    ensures { spec.FindsAround (map tree_step steps.now) (tree_step last.now) node.entry result }
{
    let Some((_, parts)) = collection_along(node, steps) else {
        return None;
    };
    let Some(found) = find_part(parts, last) else {
        return None;
    };
    let (here, others) = pass(found.parts, found.node);
    let next = first_text(others);
    Some(Neighbours {
        before: found.before,
        here,
        next,
    })
}
