//! Dashes and keys.
ghost use Rattle.std.{specs.List.prefix_len, specs.Option.option_map, specs.Prelude.{◌≡◌, ◌≤◌, ◌==◌, ◌&&◌, ◌+◌, length, nat_le, not}};
ghost use Rattle.std.specs.Str.{chars};
ghost use Rattle.yq_core.{specs.Text.is_empty, specs.FitKeys.key_limit};
ghost use Rattle.yq_row_table.specs.Slicing.{begun};
ghost use Rattle.yq_rows.{specs.ReadPieces.{begin_view, mark_view}, specs.RowAnswers.{key_after, FindsSlices}};
ghost use Rattle.yq_row_table.specs.Grammar as grammar;
ghost use Rattle.yq_row_table.specs.Reading as spec;
ghost use Rattle.yq_row_table.specs.Rows as rows;
ghost use Rattle.yq_row_table.specs.View as view;

use crate::words::read_front;
use yq_core::characters::char_count;
use yq_core::text::{separates, split_spaces, split_white};
use yq_core::{KEY_LIMIT, first_is};
use yq_row_table::before_column;

/// What a row begins with after the dashes before it.
#[derive(Clone, Copy)]
pub enum RowMark<'t> {
    /// Neither a dash nor a key.
    Bare,
    /// A dash.
    Dash,
    /// A key, and what comes after it up to its `:`.
    Key(&'t str, &'t str),
}

/// How a row begins after its indentation.
#[derive(Clone, Copy)]
pub struct Begin<'t> {
    /// The dashes, also one that is the mark.
    pub dashes: &'t str,
    /// How many columns come before the mark.
    pub columns: usize,
    pub mark: RowMark<'t>,
    /// What follows the mark.
    pub rest: &'t str,
}

/// Whether the mark is a dash or a key.
pub(crate) fn is_entry(mark: RowMark<'_>) -> bool
    ensures { result ≡ grammar.is_entry (mark_view mark.entry) }
{
    matches!(mark, RowMark::Dash | RowMark::Key(..))
}

/// The key of a mark, and what comes after it up to its `:`; nothing where it has none.
#[inline]
pub(crate) fn key_of<'t>(mark: RowMark<'t>) -> (&'t str, &'t str)
    ensures key { result.0.now ≡ view.key_of_mark (mark_view mark.entry) }
    ensures colon { result.1.now ≡ view.colon_of (mark_view mark.entry) }
{
    match mark {
        RowMark::Bare | RowMark::Dash => ("", ""),
        RowMark::Key(key, colon) => (key, colon),
    }
}

/// The parent indentation of what comes after a mark in a column: that column, or, without a key
/// or dash, one less.
pub(crate) fn parent_of(mark: RowMark<'_>, column: usize) -> i64
    requires { column ≤ 4294967295 }
    ensures { result ≡ rows.parent_of (mark_view mark.entry) column }
{
    match mark {
        RowMark::Bare => before_column(column),
        RowMark::Dash | RowMark::Key(..) => column as i64,
    }
}

/// Whether the `:` of a key is in front.
pub(crate) fn is_colon(text: &[u8]) -> bool
    ensures { result ≡ spec.is_colon text.now }
{
    match text {
        [b':', rest @ ..] => separates(rest),
        _ => false,
    }
}

/// White space and the `:` of a key in front, and what follows.
#[tactic(auto, unfolding(yq_row_table::specs::Reading::read_colon))]
fn find_colon(text: &str) -> Option<(&str, &str)>
    ensures { option_map (λ x. (x.0.now, x.1.now)) result ≡ spec.read_colon text.now }
{
    let (white, rest) = split_white(text);
    if !is_colon(rest.as_bytes()) {
        return None;
    }
    Some(text.split_at(white.len() + 1))
}

/// Whether a key, and what comes after it up to its `:`, are as short as they have to be. Characters
/// are counted where there are more bytes than that.
#[tactic(auto, using(yq_row_table::proofs::KeyRoom::room_by_bytes))]
pub(crate) fn has_key_room(key: &str, colon: &str) -> bool
    ensures { result ≡ nat_le (length (chars key.now) + length (chars colon.now)) (key_limit + 1) }
{
    if key.len().saturating_add(colon.len()) <= KEY_LIMIT + 1 {
        return true;
    }
    let key_chars = char_count(key);
    key_chars <= KEY_LIMIT + 1 && char_count(colon) <= KEY_LIMIT + 1 - key_chars
}

/// The key in front, what comes after it up to its `:`, and what follows.
#[tactic(auto, unfolding(yq_row_table::specs::Reading::read_row_key))]
#[inline(always)]
pub(crate) fn find_key(text: &str) -> Option<(&str, &str, &str)>
    ensures { option_map (λ x. (x.0.now, x.1.now, x.2.now)) result ≡ spec.read_row_key text.now }
{
    let Ok((key, rest)) = read_front(None, text, text) else {
        return None;
    };
    let (colon, rest) = find_colon(rest)?;
    if has_key_room(key, colon) {
        Some((key, colon, rest))
    } else {
        None
    }
}

/// Whether a dash is in front.
pub(crate) fn is_dash(text: &[u8]) -> bool
    ensures { result ≡ spec.is_dash text.now }
{
    match text {
        [b'-', rest @ ..] => separates(rest),
        _ => false,
    }
}

/// Whether a dash or a key is in front.
pub(crate) fn begins_entry(text: &str) -> bool
    ensures { result ≡ spec.begins_entry text.now }
{
    is_dash(text.as_bytes()) || find_key(text).is_some()
}

/// Whether after a dash and these spaces a further dash is.
fn goes_on(spaces: &str, next: &str) -> bool
    ensures { result ≡ (not (is_empty spaces.now) && spec.is_dash next.now) }
{
    !spaces.is_empty() && is_dash(next.as_bytes())
}

/// How many bytes are in front of the first `:` or LF.
fn colon_len(text: &[u8]) -> usize
    ensures value { result ≡ prefix_len (λ b. not (b == 58) && not (b == 10)) text.now }
    ensures within { result ≤ length text.now }
{
    text.iter()
        .take_while(|b| **b != b':' && **b != b'\n')
        .count()
}

/// Whether a `:` is in front of the end of the line.
fn holds_colon(text: &[u8]) -> bool
    ensures { result ≡ spec.holds_colon text.now }
{
    first_is(b':', text.split_at(colon_len(text)).1)
}

/// The key after a dash and these spaces, what comes after it up to its `:`, and what follows. No
/// scalar is read where the line has no `:`.
#[tactic(auto, using(yq_row_table::proofs::KeyLines::no_key_line))]
fn following_key<'t>(spaces: &str, next: &'t str) -> Option<(&'t str, &'t str, &'t str)>
    ensures { FindsSlices result (key_after spaces.now next.now) }
{
    if spaces.is_empty() || !holds_colon(next.as_bytes()) {
        None
    } else {
        find_key(next)
    }
}

/// The mark in front that is no dash, and what follows.
fn read_mark(text: &str) -> (RowMark<'_>, &str)
    ensures { (mark_view result.0, result.1.now) ≡ spec.mark_at text.now }
{
    match find_key(text) {
        Some((key, colon, rest)) => (RowMark::Key(key, colon), rest),
        None => (RowMark::Bare, text),
    }
}

/// The dashes in front, the mark after them, and what follows.
pub(crate) fn read_begin(text: &str) -> Begin<'_>
    ensures read { begin_view result ≡ begun (spec.read_marks text.now) }
    ensures within { result.columns ≤ length text.now }
    ensures shorter { length result.rest.now ≤ length text.now }
{
    let mut rest = text;
    'dashes: while is_dash(rest.as_bytes()) {
        let following = rest.split_at(1).1;
        let (spaces, next) = split_spaces(following);
        if !goes_on(spaces, next) {
            return match following_key(spaces, next) {
                Some((key, colon, after)) => Begin {
                    dashes: text.split_at(text.len() - next.len()).0,
                    columns: text.len() - next.len(),
                    mark: RowMark::Key(key, colon),
                    rest: after,
                },
                None => Begin {
                    dashes: text.split_at(text.len() - following.len()).0,
                    columns: text.len() - rest.len(),
                    mark: RowMark::Dash,
                    rest: following,
                },
            };
        }
        rest = next;
    }
    let columns = text.len() - rest.len();
    let (mark, following) = read_mark(rest);
    Begin {
        dashes: text.split_at(columns).0,
        columns,
        mark,
        rest: following,
    }
}
