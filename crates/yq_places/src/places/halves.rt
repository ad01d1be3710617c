//! What begins and ends a text in two halves.
ghost use Rattle.std.{specs.List.prefix_len, specs.Prelude.{◌≡◌, ◌==◌, ◌≤◌, length, slice_index}, specs.Str.IsUtf8};
ghost use Rattle.yq_text.specs.Halves.{whole};
ghost use Rattle.yq_row_table.specs.Reading as reading;
ghost use Rattle.yq_core.specs.Text as scan;
ghost use Rattle.yq_places.specs.FirstPlaces as spaces;
ghost use Rattle.yq_places.specs.PrintedLines as lines;

use yq_core::lines::{is_line, line_len};
use yq_core::text::{is_break, spaces_len, whites_len};
use yq_text::Halves;

/// Two halves are whole characters, and so is the text.
pub fn is_text(text: Halves<'_>)
    ensures { IsUtf8 (whole text.entry) }
{}

/// The byte at a place; 0 after the text.
#[tactic(auto, using(crate::proofs::HalvesLaws::byte_front, crate::proofs::HalvesLaws::byte_back))]
fn byte_at(text: Halves<'_>, at: usize) -> u8
    ensures { result ≡ slice_index (whole text.entry) at }
{
    let front = text.front.as_bytes();
    let back = text.back.as_bytes();
    if at < front.len() {
        return front[at];
    }
    let at = at - front.len();
    if at < back.len() { back[at] } else { 0 }
}

/// How many spaces are in front.
#[tactic(auto, using(crate::proofs::HalvesLaws::prefix_stays, crate::proofs::HalvesLaws::prefix_goes))]
fn front_spaces(text: Halves<'_>) -> usize
    ensures { result ≡ prefix_len (λ b. b == 32) (whole text.entry) }
{
    let count = spaces_len(text.front.as_bytes());
    if count < text.front.len() {
        count
    } else {
        count + spaces_len(text.back.as_bytes())
    }
}

/// How many spaces and tabs are in front.
#[tactic(auto, using(crate::proofs::HalvesLaws::prefix_stays, crate::proofs::HalvesLaws::prefix_goes))]
fn front_whites(text: Halves<'_>) -> usize
    ensures value { result ≡ prefix_len scan.is_white (whole text.entry) }
    ensures within { result ≤ length (whole text.entry) }
{
    let count = whites_len(text.front.as_bytes());
    if count < text.front.len() {
        count
    } else {
        count + whites_len(text.back.as_bytes())
    }
}

/// The text cut after the spaces in front.
pub fn split_spaces<'t>(text: Halves<'t>) -> (Halves<'t>, Halves<'t>)
    ensures { (whole result.0, whole result.1) ≡ scan.cut scan.no_space (whole text.entry) }
{
    text.split_at(front_spaces(text))
}

/// Whether a blank line or a comment line is in front (YAML 1.2.2, sections 6.4 and 6.6).
#[tactic(auto, using(crate::proofs::HalvesLaws::gap_white, crate::proofs::HalvesLaws::gap_break, crate::proofs::HalvesLaws::gap_hash))]
pub fn begins_gap(text: Halves<'_>) -> bool
    ensures { result ≡ reading.begins_gap (whole text.entry) }
{
    if text.is_empty() {
        return false;
    }
    let at = front_whites(text);
    if at >= text.len() {
        return true;
    }
    let next = [byte_at(text, at), byte_at(text, at + 1)];
    is_break(&next) || next[0] == b'#'
}

/// How long the line in front is with its break, in bytes.
#[tactic(auto, using(crate::proofs::HalvesLaws::line_stays, crate::proofs::HalvesLaws::line_ends, crate::proofs::HalvesLaws::line_goes))]
fn front_line(text: Halves<'_>) -> usize
    ensures { result ≡ scan.line_len (whole text.entry) }
{
    let front = text.front.as_bytes();
    let len = line_len(front);
    if len < front.len() || is_line(front) {
        len
    } else {
        len + line_len(text.back.as_bytes())
    }
}

/// The text cut after the line in front and its break.
pub fn split_line<'t>(text: Halves<'t>) -> (Halves<'t>, Halves<'t>)
    ensures { (whole result.0, whole result.1) ≡ scan.cut_line (whole text.entry) }
{
    text.split_at(front_line(text))
}

/// How long a text is less the break that ends it, in bytes.
#[tactic(auto, using(crate::proofs::HalvesLaws::no_break, crate::proofs::HalvesLaws::break_feed, crate::proofs::HalvesLaws::break_return))]
pub fn less_break_len(text: Halves<'_>) -> usize
    ensures value { result ≡ length (lines.less_break (whole text.entry)) }
    ensures within { result ≤ length (whole text.entry) }
{
    let len = text.len();
    if len == 0 || byte_at(text, len - 1) != b'\n' {
        return len;
    }
    if len > 1 && byte_at(text, len - 2) == b'\r' {
        len - 2
    } else {
        len - 1
    }
}

/// A text cut before the break that ends it, if one does.
pub fn split_break<'t>(text: Halves<'t>) -> (Halves<'t>, Halves<'t>)
    ensures line { whole result.0 ≡ lines.less_break (whole text.entry) }
    ensures rest { whole result.1 ≡ lines.last_break (whole text.entry) }
{
    text.split_at(less_break_len(text))
}

/// How long a text is less the spaces that end it, in bytes.
fn less_spaces_len(text: Halves<'_>) -> usize
    ensures value { result ≡ length (spaces.less_spaces (whole text.entry)) }
    ensures within { result ≤ length (whole text.entry) }
{
    let mut end = text.len();
    'spaces: while end > 0 && byte_at(text, end - 1) == b' ' {
        end -= 1;
    }
    end
}

/// A text cut before the spaces that end it.
pub fn split_end_spaces<'t>(text: Halves<'t>) -> (Halves<'t>, Halves<'t>)
    ensures front { whole result.0 ≡ spaces.less_spaces (whole text.entry) }
    ensures spaces { whole result.1 ≡ spaces.end_spaces (whole text.entry) }
{
    text.split_at(less_spaces_len(text))
}
