//! Where steps lead one by one from a place, without the places on the way.
ghost use Rattle.std.specs.Prelude.{◌≡◌, map};
ghost use Rattle.yq_semantics.{specs.Conditions.value_of, specs.View.program_step};
ghost use Rattle.yq_eval.{specs.PlaceView.place_of, specs.ValuesAlong.{KnowsValueAfter, KnowsValueAlong, found_or_null}};

use crate::matching::place::FoundPlace;
use crate::matching::step::{index_step, key_step};
use yq_nodes::Node;
use yq_semantics::PathStep;

/// The value to which a step leads from another one, both null where there is no node. Nothing, where it leads to all
/// items or values, or refuses.
fn value_after<'a, 't>(
    value: &Option<Node<'a, 't>>,
    step: &'a PathStep,
) -> Option<Option<Node<'a, 't>>>
    ensures { KnowsValueAfter result (program_step step.now) (found_or_null value.now) }
{
    let Some(node) = value else {
        return match step {
            PathStep::Key(_) | PathStep::Index(_) => Some(None),
            PathStep::Each => None,
        };
    };
    let child = match step {
        PathStep::Key(key) => key_step(node, key.as_str()),
        PathStep::Index(index) => index_step(node, *index),
        PathStep::Each => return None,
    };
    match child {
        Ok(Some((_, child))) => Some(Some(child)),
        Ok(None) => Some(None),
        Err(_refused) => None,
    }
}

/// The node at a place, or none where a step is missing.
fn node_there<'a, 't>(place: &FoundPlace<'a, 't>) -> Option<Node<'a, 't>>
    ensures { found_or_null result ≡ value_of (place_of place.now) }
{
    match place.found() {
        Some(node) => Some(*node),
        None => None,
    }
}

/// The value to which steps lead from a place, null where there is no node. Nothing, where one leads to all items or
/// values, or refuses.
pub(crate) fn value_along<'a, 't>(
    steps: &'a [PathStep],
    place: &FoundPlace<'a, 't>,
) -> Option<Option<Node<'a, 't>>>
    ensures { KnowsValueAlong result (map program_step steps.now) (value_of (place_of place.now)) }
{
    let mut value = node_there(place);
    'steps: for step in steps {
        let Some(next) = value_after(&value, step) else {
            return None;
        };
        value = next;
    }
    Some(value)
}
