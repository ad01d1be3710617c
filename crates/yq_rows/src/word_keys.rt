//! What most rows begin with: a key, most often a word, or one dash before a word.
ghost use Rattle.std.{specs.List.prefix_len, specs.Prelude.{◌≡◌, ◌≤◌, length, true, IfSome, IsTrue, None, Some}};
ghost use Rattle.yq_core.{specs.Nodes.begins_with, specs.Runs.{is_word_byte, run_goes_on}, specs.Text.front};
ghost use Rattle.yq_core.specs.declared.runs.Run.TheVariants.{Plain};
ghost use Rattle.yq_row_table.{specs.Grammar.is_entry, specs.Reading.{read_marks, read_row_key}, specs.Slicing.begun};
ghost use Rattle.yq_rows.specs.ReadPieces.{begin_view, mark_view};

use crate::marks::{Begin, RowMark, find_key, has_key_room, is_colon, is_dash};
use crate::words::begins_word;
use yq_core::text::split_spaces;
use yq_core::{Run, first_is, run_len};
use yq_inline::short::short_scalar;

/// The word of so many bytes in front as a key, if its `:` follows it at once; that `:`, and what follows.
#[inline(always)]
fn word_key(text: &str, n: usize) -> Option<(&str, &str, &str)>
    requires word { front is_word_byte text.now ≡ true }
    requires run { n ≡ prefix_len (run_goes_on Plain) text.now }
    requires within { n ≤ length text.now }
    ensures { IfSome result (λ x. read_row_key text.now ≡ Some (x.0.now, x.1.now, x.2.now)) }
{
    if !is_colon(text.as_bytes().split_at(n).1) {
        return None;
    }
    let (key, rest) = text.split_at(n);
    let (colon, after) = rest.split_at(1);
    if !has_key_room(key, colon) {
        return None;
    }
    Some((key, colon, after))
}

/// The key in double quotes in front, on one line and without escapes, if its `:` follows it at once; that `:`, and
/// what follows.
#[inline(always)]
fn quoted_key(text: &str) -> Option<(&str, &str, &str)>
    requires { begins_with 34 text.now ≡ true }
    ensures { IfSome result (λ x. read_row_key text.now ≡ Some (x.0.now, x.1.now, x.2.now)) }
{
    let (key, rest) = short_scalar(text)?;
    if !is_colon(rest.as_bytes()) {
        return None;
    }
    let (colon, after) = rest.split_at(1);
    if !has_key_room(key, colon) {
        return None;
    }
    Some((key, colon, after))
}

/// Whether the word of so many bytes in front ends its line.
#[inline(always)]
fn ends_in_word(text: &[u8], n: usize) -> bool
    requires run { n ≡ prefix_len (run_goes_on Plain) text.now }
    requires within { n ≤ length text.now }
    ensures { IsTrue result → read_row_key text.now ≡ None }
{
    first_is(b'\n', text.split_at(n).1)
}

/// The dash in front, and the key after it or none, where a word follows it that is a key or ends its line.
#[inline(always)]
fn begin_after(text: &str) -> Option<Begin<'_>>
    ensures read { IfSome result (λ b. begin_view b ≡ begun (read_marks text.now)) }
    ensures entry { IfSome result (λ b. is_entry (mark_view b.mark) ≡ true) }
    ensures within { IfSome result (λ b. b.columns ≤ length text.now) }
{
    if !is_dash(text.as_bytes()) {
        return None;
    }
    let (dash, after) = text.split_at(1);
    let (spaces, next) = split_spaces(after);
    if spaces.is_empty() {
        return None;
    }
    if !begins_word(next.as_bytes()) {
        return None;
    }
    let n = run_len(Run::Plain, next.as_bytes());
    if ends_in_word(next.as_bytes(), n) {
        return Some(Begin {
            dashes: dash,
            columns: 0,
            mark: RowMark::Dash,
            rest: after,
        });
    }
    let (key, colon, rest) = word_key(next, n)?;
    let columns = text.len() - next.len();
    Some(Begin {
        dashes: text.split_at(columns).0,
        columns,
        mark: RowMark::Key(key, colon),
        rest,
    })
}

/// The key in front, what comes after it up to its `:`, and what follows: most often a word, or in quotes.
#[inline(always)]
fn any_key(text: &str) -> Option<(&str, &str, &str)>
    ensures { IfSome result (λ x. read_row_key text.now ≡ Some (x.0.now, x.1.now, x.2.now)) }
{
    if begins_word(text.as_bytes()) {
        let n = run_len(Run::Plain, text.as_bytes());
        if let Some(found) = word_key(text, n) {
            return Some(found);
        }
    }
    if first_is(b'"', text.as_bytes()) {
        if let Some(found) = quoted_key(text) {
            return Some(found);
        }
    }
    find_key(text)
}

/// The key in front as the mark, or what begins after a dash.
#[inline(always)]
pub(crate) fn find_begin(text: &str) -> Option<Begin<'_>>
    ensures read { IfSome result (λ b. begin_view b ≡ begun (read_marks text.now)) }
    ensures entry { IfSome result (λ b. is_entry (mark_view b.mark) ≡ true) }
    ensures within { IfSome result (λ b. b.columns ≤ length text.now) }
{
    if is_dash(text.as_bytes()) {
        return begin_after(text);
    }
    let (key, colon, rest) = any_key(text)?;
    Some(Begin {
        dashes: "",
        columns: 0,
        mark: RowMark::Key(key, colon),
        rest,
    })
}
