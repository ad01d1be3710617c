//! Items and entries removed from flow collections.
ghost use Rattle.std.specs.Prelude.{◌≡◌, ◌-◌, IfOk, IfSome, IsTrue, List, None, Some, length, option_map};
ghost use Rattle.yq_core.specs.Entries.{tree_step};
ghost use Rattle.yq_flow_edits.specs.FlowPlaces.{edit_view};
ghost use Rattle.yq_lookup.specs.RowFronts.{found_summary, summary_along};
ghost use Rattle.yq_places.specs.NodesAt.{node_view};
ghost use Rattle.yq_inline.specs.declared.before_offset.LeadingNode.{LeadingNode};
ghost use Rattle.yq_core.specs.Paths as path;
ghost use Rattle.yq_inline.specs.Neighbours as inline;
ghost use Rattle.yq_edit_laws.specs.FlowRemovals as removals;
ghost use Rattle.yq_edit_laws.specs.EditPlaces as spec;

use crate::edit::{edit_at, last_step, place_in};
use std::alloc::{AllocError, Global};
use yq_core::Step;
use yq_documents::Path;
use yq_flow_edits::{EditPlace, remove_between};
use yq_inline::{Neighbours, PassedPart, part_neighbours};
use yq_lookup::{CutText, FoundNode};
use yq_places::NodeAt;
use yq_text::Segments;

/// Where an item or entry begins and ends in a text so long, if there is one.
fn ends_in(total: usize, part: Option<PassedPart<'_>>) -> Option<(usize, usize)>
    ensures { result ≡ option_map (spec.placed_ends total) (option_map inline.passed_view part.entry) }
{
    match part {
        Some(part) => Some((place_in(total, part.text), place_in(total, part.rest))),
        None => None,
    }
}

/// Where the next one begins in a text so long, if there is one.
fn next_in(total: usize, next: Option<&str>) -> Option<usize>
    ensures { result ≡ option_map (λ l. total - length l) (option_map (λ t. t.now) next.entry) }
{
    match next {
        Some(text) => Some(place_in(total, text)),
        None => None,
    }
}

/// What goes with an item or entry in a piece of a text, by those next to it.
fn place_between(piece: &str, part: Neighbours<'_>) -> Option<EditPlace>
    ensures { option_map edit_view result ≡
        spec.remove_around piece.now (inline.around_view part.entry) }
{
    let total = piece.len();
    let before = ends_in(total, part.before);
    let start = place_in(total, part.here.text);
    let end = place_in(total, part.here.rest);
    remove_between(piece, before, start, end, next_in(total, part.next))
}

/// Whether nothing is next to an item or entry.
fn is_alone(part: Neighbours<'_>) -> bool
    ensures before { IsTrue result → part.entry.before ≡ None }
    ensures next { IsTrue result → part.entry.next ≡ None }
{
    part.before.is_none() && part.next.is_none()
}

/// What is known of a flow collection in which the only item or entry is at this step.
fn sole_kind<'t>(step: &Step) -> NodeAt<'t>
    ensures { node_view result ≡ removals.sole_kind (tree_step step.now) }
{
    match step {
        Step::Key(_) => NodeAt::Map(false),
        Step::Index(_) => NodeAt::List(false),
    }
}

/// What is known of the flow collection to which steps lead in the node in front of a text, if the only item or entry in
/// it is this one, to which one more step leads.
fn sole_in_flow<'t>(last: &Step, part: Neighbours<'_>) -> Option<NodeAt<'t>>
    ensures { (ss : List path.Step) (n : LeadingNode) →
        inline.FindsAround ss (tree_step last.now) n (Some part.entry) →
        IfSome result (λ node. Some (node_view node) ≡ summary_along ss n) }
{
    if !is_alone(part) {
        return None;
    }
    Some(sole_kind(last))
}

/// An item or entry removed from a flow collection, by what is found above it, with the white space and comma that go
/// with it; `None` where the path leads to no part of a flow collection, or to a sole one. Of the collection of a sole
/// one it comes with what is known.
fn removed_or_sole<'d>(
    alloc: Global,
    cut: &CutText<'_, 'd>,
    path: &Path,
    above: &FoundNode<'_, 'd>,
) -> Result<(Option<Segments<'d>>, Option<NodeAt<'d>>), AllocError>
    requires { spec.IsFoundAbove cut.now path.now above.now }
    ensures removed { IfOk result (λ x. removals.removed_at cut.now path.now ≡ x.0) }
    ensures sole { IfOk result (λ x. IfSome x.1 (λ node.
        Some (node_view node) ≡ found_summary above.now)) }
{
    let Some((_, last)) = last_step(&path.steps) else {
        return Ok((None, None));
    };
    let FoundNode::InFlow(front, before, left) = above else {
        return Ok((None, None));
    };
    let Some(part) = part_neighbours(*front, left, last) else {
        return Ok((None, None));
    };
    let text = cut.text();
    let Some(place) = place_between(front.text, part) else {
        return Ok((None, sole_in_flow(last, part)));
    };
    let nothing = String::new(alloc);
    let segments = edit_at(alloc, text, *before, place, nothing)?;
    Ok((segments, None))
}

/// An item or entry removed from a flow collection, by what is found above it; or else what the node there is, if there
/// is one. A flow collection is not read where nothing is next to the item or entry at the path.
///
/// # Errors
/// [`AllocError`] where memory is refused.
pub fn remove_or_read<'d>(
    alloc: Global,
    cut: &CutText<'_, 'd>,
    path: &Path,
    above: FoundNode<'_, 'd>,
) -> Result<(Option<Segments<'d>>, Option<NodeAt<'d>>), AllocError>
    requires { spec.IsFoundAbove cut.now path.now above }
    ensures removed { IfOk result (λ x. removals.removed_at cut.now path.now ≡ x.0) }
    ensures above { IfOk result (λ x. x.0 ≡ None → option_map node_view x.1 ≡ found_summary above.entry) }
{
    let (segments, sole) = removed_or_sole(alloc, cut, path, &above)?;
    if segments.is_some() || sole.is_some() {
        return Ok((segments, sole));
    }
    let node = above.read(alloc)?;
    Ok((None, node))
}
