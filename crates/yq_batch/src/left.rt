//! Which bytes go with an item or entry of a flow collection of which only the first ones are left.
ghost use Rattle.std.specs.Prelude.{◌≡◌, IfSome};
ghost use Rattle.yq_core.{specs.Entries.parts_of, specs.View.{entries_end, inline_view, items_end}};
ghost use Rattle.yq_batch.specs.LeftPlaces.{IsLeftPlace};
ghost use Rattle.yq_core.specs.Entries as entries;
ghost use Rattle.yq_flow_edits.specs.FlowPlaces as places;
ghost use Rattle.yq_batch.specs.LeftItems as spec;
ghost use Rattle.yq_batch.specs.RemovalRuns as runs;

use yq_core::text::begins_marker;
use yq_core::{Form, Inline, Piece, first_is};
use yq_flow_edits::bytes_after;

/// The place of what goes, and what is after it then.
#[derive(Clone, Copy)]
pub(crate) struct LeftPlace {
    pub(crate) start: usize,
    pub(crate) end: usize,
    /// Whether others that are left come after it, and perhaps begin with a document marker.
    pub(crate) after: Option<bool>,
}

/// Where a node begins, with its anchor.
fn start_of(node: &Inline<'_>) -> usize
    ensures { result ≡ entries.start_of (inline_view node.now) }
{
    node.start
}

/// Where a node ends.
pub(crate) fn end_of(node: &Inline<'_>) -> usize
    ensures { result ≡ entries.end_of (inline_view node.now) }
{
    node.end
}

/// Where what comes after the anchor of a node begins.
pub(crate) fn content_of(node: &Inline<'_>) -> usize
    ensures { result ≡ runs.content_of (inline_view node.now) }
{
    node.content
}

/// Where the item of an index begins and ends.
fn item_place(items: &Vec<Inline<'_>>, index: usize) -> Option<(usize, usize)>
    ensures { result ≡ spec.place_of_part index (items_end items.now.items) }
{
    match items.get(index) {
        Some(item) => Some((start_of(item), end_of(item))),
        None => None,
    }
}

/// Where the entry of an index begins and ends.
fn entry_place(entries: &Vec<(String, Piece, Inline<'_>)>, index: usize) -> Option<(usize, usize)>
    ensures { result ≡ spec.place_of_part index (entries_end entries.now.items) }
{
    match entries.get(index) {
        Some(entry) => Some((entry.1.start, end_of(&entry.2))),
        None => None,
    }
}

/// Where the item or entry of an index begins and ends.
fn part_place(node: &Inline<'_>, index: usize) -> Option<(usize, usize)>
    ensures { result ≡ spec.place_of_part index (parts_of (inline_view node.now)) }
{
    match &node.form {
        Form::List(items) => item_place(items, index),
        Form::Map(entries) => entry_place(entries, index),
        Form::Empty | Form::Alias(_) | Form::Scalar(..) => None,
    }
}

/// How many items there are.
fn count_items(items: &Vec<Inline<'_>>) -> usize
    ensures { result ≡ spec.count_parts (items_end items.now.items) }
{
    items.len()
}

/// How many entries there are.
fn count_entries(entries: &Vec<(String, Piece, Inline<'_>)>) -> usize
    ensures { result ≡ spec.count_parts (entries_end entries.now.items) }
{
    entries.len()
}

/// How many items or entries there are.
pub(crate) fn count_of(node: &Inline<'_>) -> usize
    ensures { result ≡ spec.count_parts (parts_of (inline_view node.now)) }
{
    match &node.form {
        Form::List(items) => count_items(items),
        Form::Map(entries) => count_entries(entries),
        Form::Empty | Form::Alias(_) | Form::Scalar(..) => 0,
    }
}

/// Whether an LF comes before a place.
fn past_feed(text: &[u8], at: usize) -> bool
    ensures { result ≡ places.past_feed text.now at }
{
    at > 0 && first_is(b'\n', bytes_after(text, at - 1))
}

/// Whether `---` or `...` in column 0 ends at a place, and doesn't begin before another one.
fn marks_before(text: &[u8], from: usize, at: usize) -> bool
    ensures { result ≡ places.marks_before text.now from at }
{
    at.saturating_sub(from) >= 3
        && past_feed(text, at - 3)
        && begins_marker(bytes_after(text, at - 3))
}

/// What goes up to another one that is left.
fn before_other(text: &[u8], start: usize, end: usize, marked: bool) -> Option<LeftPlace>
    ensures { IfSome result (λ x. spec.GoesUpTo text.now start end marked x.start x.end x.after) }
{
    if past_feed(text, start) && marked {
        return None;
    }
    Some(LeftPlace {
        start,
        end,
        after: Some(marked),
    })
}

/// What goes with the item or entry of an index of which so many are left, and others after them or
/// none; nothing, where a space or a comma has to stay so that no document marker comes about.
pub(crate) fn left_place(
    text: &[u8],
    node: &Inline<'_>,
    index: usize,
    count: usize,
    after: Option<bool>,
) -> Option<LeftPlace>
    ensures { IfSome result (IsLeftPlace text.now (parts_of (inline_view node.now)) index count
        after) }
{
    if index >= count {
        return None;
    }
    let Some((start, end)) = part_place(node, index) else {
        return None;
    };
    if index + 1 < count {
        let Some((next, _)) = part_place(node, index + 1) else {
            return None;
        };
        return before_other(text, start, next, begins_marker(bytes_after(text, next)));
    }
    if let Some(marked) = after {
        let Some((next, _)) = part_place(node, index + 1) else {
            return None;
        };
        return before_other(text, start, next, marked);
    }
    if index == 0 {
        return None;
    }
    let Some((from, before)) = part_place(node, index - 1) else {
        return None;
    };
    if marks_before(text, from, before) {
        return None;
    }
    Some(LeftPlace {
        start: before,
        end,
        after: None,
    })
}
