//! Items and entries put into flow collections.
ghost use Rattle.std.specs.Prelude.{◌≡◌, ◌-◌, IfOk, length, string_bytes};
ghost use Rattle.yq_core.{specs.Nodes.key_text, specs.Values.value_node, specs.View.inline_view, specs.NodesWritten.{flow_key, flow_text}};
ghost use Rattle.yq_flow_edits.specs.FlowPlaces.{edit_view};
ghost use Rattle.yq_outline.specs.Bodies.{borrowed};
ghost use Rattle.yq_documents.{specs.Located.steps_of, specs.Reading.cut_of};
ghost use Rattle.yq_edit_rules.specs.Answers.{GivesSegments};
ghost use Rattle.yq_edit_laws.specs.EditPlaces as spec;
ghost use Rattle.yq_edit_laws.specs.PartPuts as puts;

use crate::edit::{edit_at, place_in};
use std::alloc::{AllocError, Global};
use yq_core::{Form, Inline, Value};
use yq_documents::Path;
use yq_flow_edits::{EditPlace, append_place, write_entry, write_inline};
use yq_inline::{CollectionEnd, collection_end};
use yq_lookup::{CutText, FoundNode};
use yq_text::Segments;

/// Whether a node takes an entry of a key, or an item.
fn takes(node: &Inline<'_>, key: Option<&str>) -> bool
    ensures { result ≡ spec.placed_takes (inline_view node.now) (borrowed key.entry) }
{
    match &node.form {
        Form::List(_) => key.is_none(),
        Form::Map(_) => key.is_some(),
        Form::Empty | Form::Alias(_) | Form::Scalar(..) => false,
    }
}

/// An item or entry as it is written in flow.
fn entry_text(alloc: Global, key: Option<&str>, value: &Value) -> Result<String, AllocError>
    ensures { IfOk result (λ s. string_bytes s ≡
        key_text (flow_key (borrowed key.entry)) (flow_text (value_node value.now))) }
{
    match key {
        Some(key) => write_entry(alloc, key, value),
        None => write_inline(alloc, value),
    }
}

/// Where an item or entry is put after the last one of a flow collection, or right after its bracket, in the
/// text that begins with the node in the head, and what is written there, after what leads to it; `None` where a
/// node is none, or takes no key, or no item.
///
/// # Errors
/// [`AllocError`] where memory is refused.
pub fn more_in_node(
    alloc: Global,
    node: &Inline<'_>,
    key: Option<&str>,
    value: &Value,
) -> Result<Option<(EditPlace, String)>, AllocError>
    ensures { IfOk result (puts.PutsMoreIn (inline_view node.now) (borrowed key.entry)
        (value_node value.now)) }
{
    if !takes(node, key) {
        return Ok(None);
    }
    let Some(place) = append_place(node) else {
        return Ok(None);
    };
    let written = entry_text(alloc, key, value)?;
    Ok(Some((place, written)))
}

/// Whether a mapping, or else a sequence, takes an entry of a key, or an item.
fn takes_in(keyed: bool, key: Option<&str>) -> bool
    ensures { result ≡ spec.keyed_takes keyed (borrowed key.entry) }
{
    if keyed { key.is_some() } else { key.is_none() }
}

/// Where one more item or entry of a flow collection in a piece of a text is written.
fn more_place(piece: &str, end: CollectionEnd<'_>) -> EditPlace
    ensures { edit_view result ≡
        spec.end_place end.entry.some (length piece.now - length end.entry.rest.now) }
{
    let at = place_in(piece.len(), end.rest);
    EditPlace {
        start: at,
        end: at,
        lead: if end.some { ", " } else { "" },
    }
}

/// An item or entry put after the last one of a flow collection, or right after its bracket;
/// `None` where the path leads to no flow collection, or to one that takes no key, or no item.
///
/// # Errors
/// [`AllocError`] where memory is refused.
pub fn append_in_flow<'d>(
    alloc: Global,
    cut: &CutText<'_, 'd>,
    path: &Path,
    key: Option<&str>,
    value: &Value,
) -> Result<Option<Segments<'d>>, AllocError>
    ensures { GivesSegments result (spec.appended_in_flow path.now.doc (steps_of path.now)
        (borrowed key.entry) (value_node value.now) (cut_of cut.now)) }
{
    let found = cut.node_found(alloc, path.doc, &path.steps)?;
    let FoundNode::InFlow(front, before, left) = found else {
        return Ok(None);
    };
    let Some(end) = collection_end(front, left) else {
        return Ok(None);
    };
    if !takes_in(end.keyed, key) {
        return Ok(None);
    }
    let text = cut.text();
    let written = entry_text(alloc, key, value)?;
    edit_at(alloc, text, before, more_place(front.text, end), written)
}
