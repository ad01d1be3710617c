//! Where the bytes of an item or entry of a flow collection are that is taken out.
ghost use Rattle.std.specs.Prelude.{◌≡◌, drop, option_map};
ghost use Rattle.yq_flow_edits.specs.FlowPlaces as spec;

use crate::flow_place::EditPlace;
use yq_core::text::begins_marker;
use yq_core::{first_is, gap_len};

/// What comes after so many bytes.
pub fn bytes_after(text: &[u8], at: usize) -> &[u8]
    ensures { result.now ≡ drop at text.now }
{
    if at <= text.len() {
        text.split_at(at).1
    } else {
        &[]
    }
}

/// Whether an LF comes before a place.
fn past_feed(text: &[u8], at: usize) -> bool
    ensures { result ≡ spec.past_feed text.now at }
{
    at > 0 && first_is(b'\n', bytes_after(text, at - 1))
}

/// Whether `---` or `...` in column 0 ends at a place, and doesn't begin before another one.
fn marks_before(text: &[u8], from: usize, at: usize) -> bool
    ensures { result ≡ spec.marks_before text.now from at }
{
    at.saturating_sub(from) >= 3
        && past_feed(text, at - 3)
        && begins_marker(bytes_after(text, at - 3))
}

/// Where the gap that begins at a place ends.
fn past_gap(text: &[u8], at: usize) -> usize
    ensures { result ≡ spec.past_gap text.now at }
{
    at + gap_len(bytes_after(text, at)).0
}

/// What goes with the last of several.
fn remove_end(text: &[u8], from: usize, before: usize, end: usize) -> EditPlace
    ensures { spec.edit_view result ≡ spec.remove_end text.now from before end }
{
    let start = before;
    if !marks_before(text, from, before) {
        return EditPlace {
            start,
            end,
            lead: "",
        };
    }
    let comma = past_gap(text, end);
    if first_is(b',', bytes_after(text, comma)) {
        EditPlace {
            start,
            end: comma,
            lead: "",
        }
    } else {
        EditPlace {
            start,
            end,
            lead: ",",
        }
    }
}

/// What goes with one that begins at a place, up to the next one if there is one.
fn remove_before(text: &[u8], start: usize, next: Option<usize>) -> Option<EditPlace>
    ensures { option_map spec.edit_view result ≡
        option_map (spec.remove_before text.now start) next }
{
    match next {
        Some(mark) if past_feed(text, start) && begins_marker(bytes_after(text, mark)) => {
            Some(EditPlace {
                start,
                end: mark,
                lead: " ",
            })
        }
        Some(end) => Some(EditPlace {
            start,
            end,
            lead: "",
        }),
        None => None,
    }
}

/// What goes with an item or entry from one place to another, and what takes its place, by where the one before it
/// begins and ends and where the one after it begins. Nothing where there is no other one.
pub fn remove_between(
    text: &str,
    before: Option<(usize, usize)>,
    start: usize,
    end: usize,
    next: Option<usize>,
) -> Option<EditPlace>
    ensures { option_map spec.edit_view result ≡
        spec.remove_between text.now before start end next }
{
    if next.is_some() {
        return remove_before(text.as_bytes(), start, next);
    }
    let Some((from, at)) = before else {
        return None;
    };
    Some(remove_end(text.as_bytes(), from, at, end))
}
