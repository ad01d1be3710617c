//! Where items and entries are in flow collections, and their contents.
ghost use Rattle.std.specs.Prelude.{◌≡◌, ◌<◌, length, map, option_and_then, option_map};
ghost use Rattle.yq_core.specs.Entries.{content_place, entry_place, tree_step};
ghost use Rattle.yq_outline.specs.View.{head_flow};
ghost use Rattle.yq_documents.{specs.Decoded.decoded_head_flow as flow, specs.Pieces.span, specs.Reading.cut_of};
ghost use Rattle.yq_tree.specs.FlowPlaces.{flow_entry_view as view};
ghost use Rattle.yq_places.specs.EntryReading as spec;

use yq_core::{Entry, Step};
use yq_documents::{DecodedHead, Documents, Path, Span};
use yq_inline::{BorrowedEntry, entry_in};
use yq_lookup::CutText;
use yq_outline::Head;
use yq_row_walk::reach;

/// An item or entry of a flow collection.
#[derive(Clone, Copy)]
pub(crate) enum FlowEntry<'d, 't> {
    /// In a tree that was made.
    Owned(Entry<'d, 't>),
    /// In a text that lends it.
    Borrowed(BorrowedEntry<'t>),
}

/// The item or entry to which steps lead in a head.
fn head_entry<'d, 't>(head: &'d Head<'t>, steps: &[Step]) -> Option<FlowEntry<'d, 't>>
    ensures { option_map view result ≡
        spec.entry_within (map tree_step steps.now) (head_flow head.now) }
{
    match head {
        Head::Nothing => None,
        Head::Scalar(..) => None,
        Head::Inline(node) => Some(FlowEntry::Owned(node.entry(steps)?)),
    }
}

/// The item or entry to which steps lead in a head that is decoded.
fn decoded_head_entry<'d, 't>(
    head: DecodedHead<'d, 't>,
    steps: &[Step],
) -> Option<FlowEntry<'d, 't>>
    requires some { 0 < length steps.now }
    ensures { option_map view result ≡
        spec.entry_within (map tree_step steps.now) (flow head.entry) }
{
    match head {
        DecodedHead::Owned(head) => head_entry(head, steps),
        DecodedHead::Borrowed(node) => Some(FlowEntry::Borrowed(entry_in(node, steps)?)),
        DecodedHead::Alias(..) => None,
    }
}

/// The place of an item or entry in a flow collection.
pub(crate) fn entry_span(entry: &FlowEntry<'_, '_>) -> Span
    ensures { span result ≡ entry_place (view entry.now) }
{
    let (start, end) = match entry {
        FlowEntry::Owned(entry) => entry.place(),
        FlowEntry::Borrowed(entry) => entry.place(),
    };
    Span { start, end }
}

/// The place of the content of an item or entry in a flow collection.
pub(crate) fn content_span(entry: &FlowEntry<'_, '_>) -> Option<Span>
    ensures { option_map span result ≡ content_place (view entry.now).1 }
{
    let (start, end) = match entry {
        FlowEntry::Owned(entry) => entry.node.content_place()?,
        FlowEntry::Borrowed(entry) => entry.content_place()?,
    };
    Some(Span { start, end })
}

/// The item or entry to which steps lead in a head that may be decoded.
fn decoded_entry<'d, 't>(
    head: Option<DecodedHead<'d, 't>>,
    steps: &[Step],
) -> Option<FlowEntry<'d, 't>>
    requires some { 0 < length steps.now }
    ensures { option_map view result ≡
        spec.entry_within (map tree_step steps.now) (option_and_then flow head.entry) }
{
    match head {
        Some(head) => decoded_head_entry(head, steps),
        None => None,
    }
}

/// The item or entry of a flow collection at a path, if it leads to one.
pub(crate) fn flow_entry<'d, 't>(
    documents: &'d Documents<'t>,
    path: &Path,
) -> Option<FlowEntry<'d, 't>>
    ensures { option_map view result ≡
        spec.flow_entry_at path.now (cut_of documents.now) }
{
    let cut = CutText::of(documents);
    let walk = cut.walk(path.doc)?;
    let (at, left) = reach(&walk, &path.steps)?;
    if left.is_empty() {
        return None;
    }
    decoded_entry(documents.known_head(at.row), left)
}
