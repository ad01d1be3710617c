//! Values put in flow collections.
ghost use Rattle.std.specs.Prelude.{◌≡◌, IfOk, Some};
ghost use Rattle.yq_core.{specs.Trees.placed_tree, specs.Values.value_node, specs.View.inline_view};
ghost use Rattle.yq_documents.{specs.Located.steps_of, specs.Reading.cut_of};
ghost use Rattle.yq_places.specs.NodesAt.{scalar_in};
ghost use Rattle.yq_edit_rules.{specs.Answers.GivesSegments, specs.Replacing.{are_same, keeps_scalar}};
ghost use Rattle.yq_edit_laws.specs.PartPuts as spec;

use crate::edit::{bytes_at, edit_at, last_step, unchanged};
use std::alloc::{AllocError, Global};
use yq_core::{Form, Inline, Kind, Place, Value};
use yq_documents::Path;
use yq_edit_rules::value_text;
use yq_flow_edits::replace_place;
use yq_lookup::CutText;
use yq_text::Segments;

/// Whether a value is a scalar of that kind and that text.
fn is_scalar(kind: Kind, text: &str, value: &Value) -> bool
    ensures { result ≡ are_same (Some (record { kind = kind; text = text.now }))
        (scalar_in (value_node value.now)) }
{
    let Value::Scalar(scalar) = value else {
        return false;
    };
    let other = scalar.text();
    kind == scalar.kind() && text == other
}

/// Whether a value is a scalar equal to a node.
fn is_same_node(node: &Inline<'_>, value: &Value) -> bool
    ensures { result ≡ keeps_scalar (Some (placed_tree (inline_view node.now)))
        (value_node value.now) }
{
    match &node.form {
        Form::Empty => is_scalar(Kind::Null, "null", value),
        Form::Scalar(scalar, _) => is_scalar(scalar.kind(), scalar.text(), value),
        Form::Alias(_) | Form::List(_) | Form::Map(_) => false,
    }
}

/// What is written of a value in the place of the content of a node, after its anchor; nothing, where it is the
/// scalar that is there, so that all bytes stay. The text begins with the node in the head in which that is.
///
/// # Errors
/// [`AllocError`] where memory is refused.
pub fn put_in_node(
    alloc: Global,
    text: &str,
    node: &Inline<'_>,
    value: &Value,
) -> Result<Option<String>, AllocError>
    ensures { IfOk result (spec.IsWrittenIn text.now (inline_view node.now) (value_node value.now)) }
{
    if is_same_node(node, value) {
        return Ok(None);
    }
    let place = replace_place(node);
    let written = value_text(alloc, Place::Flow, bytes_at(text, place), value)?;
    Ok(Some(written))
}

/// A value put in the place of the content of an item or entry of a flow collection, after its
/// anchor; an equal scalar leaves the bytes alone. `None` where the path leads to no part of a flow
/// collection.
///
/// # Errors
/// [`AllocError`] where memory is refused.
pub fn put_in_flow<'d>(
    alloc: Global,
    cut: &CutText<'_, 'd>,
    path: &Path,
    value: &Value,
) -> Result<Option<Segments<'d>>, AllocError>
    ensures { GivesSegments result (spec.part_replaced path.now.doc (steps_of path.now)
        (value_node value.now) (cut_of cut.now)) }
{
    let Some((above, last)) = last_step(&path.steps) else {
        return Ok(None);
    };
    let found = cut.flow_part(alloc, path.doc, above, last)?;
    let Some((part, before)) = found else {
        return Ok(None);
    };
    let text = cut.text();
    let put = put_in_node(alloc, part.text, &part.node, value)?;
    let place = replace_place(&part.node);
    match put {
        Some(written) => edit_at(alloc, text, before, place, written),
        None => Ok(Some(unchanged(alloc, cut)?)),
    }
}
