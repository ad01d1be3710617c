//! Where the bytes of an edit of a flow collection are.
ghost use Rattle.std.specs.Prelude.{◌≡◌, option_map};
ghost use Rattle.yq_core.specs.View.{inline_view};
ghost use Rattle.yq_core.specs.Entries as places;
ghost use Rattle.yq_core.specs.View as views;
ghost use Rattle.yq_flow_edits.specs.FlowPlaces as spec;

use yq_core::{Form, Inline, Piece};

/// Where an edit changes a text, in bytes: what is from `start` to `end` is replaced by `lead` and,
/// after that, to what is written.
#[derive(Clone, Copy)]
pub struct EditPlace {
    pub start: usize,
    pub end: usize,
    pub lead: &'static str,
}

/// Where the node ends.
pub(crate) fn end_of(node: &Inline<'_>) -> usize
    ensures { result ≡ places.end_of (inline_view node.now) }
{
    node.end
}

/// Where the last item ends.
fn items_end(items: &[Inline<'_>]) -> Option<usize>
    ensures { result ≡ spec.last_end (views.items_end items.now) }
{
    match items {
        [] => None,
        [.., last] => Some(end_of(last)),
    }
}

/// Where the last entry ends.
fn entries_end(entries: &[(String, Piece, Inline<'_>)]) -> Option<usize>
    ensures { result ≡ spec.last_end (views.entries_end entries.now) }
{
    match entries {
        [] => None,
        [.., last] => Some(end_of(&last.2)),
    }
}

/// The same of the entries of a mapping.
fn map_end(entries: &Vec<(String, Piece, Inline<'_>)>) -> Option<usize>
    ensures { result ≡ spec.last_end (views.entries_end entries.now.items) }
{
    entries_end(entries.as_slice())
}

/// Where one more is written: after the last one, or at a place if there is none.
fn append_at(at: usize, last: Option<usize>) -> EditPlace
    ensures { spec.edit_view result ≡ spec.append_at at last }
{
    match last {
        Some(end) => EditPlace {
            start: end,
            end,
            lead: ", ",
        },
        None => EditPlace {
            start: at,
            end: at,
            lead: "",
        },
    }
}

/// Where another content of the node is written: in the place of its content, or after the node
/// and a space where nothing but perhaps an anchor is written.
pub fn replace_place(node: &Inline<'_>) -> EditPlace
    ensures { spec.edit_view result ≡ spec.replace_place (inline_view node.now) }
{
    match node.content_place() {
        Some((start, end)) => EditPlace {
            start,
            end,
            lead: "",
        },
        None => EditPlace {
            start: node.end,
            end: node.end,
            lead: " ",
        },
    }
}

/// Where one more item or entry is written: after the last one, or right after the opening
/// bracket. Nothing where the node is no collection.
pub fn append_place(node: &Inline<'_>) -> Option<EditPlace>
    ensures { option_map spec.edit_view result ≡ spec.append_place (inline_view node.now) }
{
    let inner = node.content.saturating_add(1).min(node.end);
    match &node.form {
        Form::List(items) => Some(append_at(inner, items_end(items.as_slice()))),
        Form::Map(entries) => Some(append_at(inner, map_end(entries))),
        Form::Empty | Form::Alias(_) | Form::Scalar(..) => None,
    }
}
