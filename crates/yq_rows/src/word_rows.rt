//! Most rows: a key, or one dash before a word, and a scalar without an anchor or nothing.
ghost use Rattle.std.specs.Prelude.{◌≡◌, ◌<◌, ◌≤◌, ◌++◌, ◌^◌, length, false, true, IfSome, IsTrue, Some};
ghost use Rattle.yq_core.{specs.Plain.{ends_plain, holds_break}, specs.Text.{cut, upto}};
ghost use Rattle.yq_row_table.{specs.Offsets.{Ends, IsCutIn}, specs.Slicing.filled_at, specs.WordRows.is_word_head};
ghost use Rattle.yq_rows.specs.ReadPieces.{filling_view, mark_view};
ghost use Rattle.yq_rows.specs.RowAnswers.{BeginsAtFront, FindsRow, FindsScalar, IsFrontScalar, KnowsRowHead, MayBeWordRow, is_word_mark};
ghost use Rattle.yq_rows.specs.RowAnswers.{row_at_front};

use crate::content::{Filling, begins_block, begins_other, find_tail, may_be_alone};
use crate::lengths::offsets_of;
use crate::limit::Limit;
use crate::marks::{RowMark, parent_of};
use crate::reading::{RowFront, may_be_here};
use crate::word_keys::find_begin;
use crate::words::{begins_word, borrows_quoted};
use yq_core::text::{is_space, spaces_len, split_spaces, split_white};
use yq_core::{Place, first_is, further_spaces, is_quoted};
use yq_inline::pieces::{begins_scalar, read_scalar};
use yq_inline::short::short_scalar;
use yq_row_table::Offsets;
use yq_scalar_reader::plain::{plain_len, words_len};

/// Whether an LF is in front before which a plain scalar ends: the next line isn't as deep as a further line of it.
#[inline(always)]
fn ends_scalar(spaces: Option<usize>, text: &[u8]) -> bool
    ensures { IsTrue result → upto (ends_plain false spaces) text.now ≡ 0 }
{
    let Some(least) = spaces else {
        return false;
    };
    if !first_is(b'\n', text) {
        return false;
    }
    let after = text.split_at(1).1;
    let indent = spaces_len(after);
    indent < least && !is_space(after.split_at(indent).1)
}

/// How far a plain scalar goes on, in bytes: most often it ends at once, before another row.
#[inline(always)]
fn further_len(spaces: Option<usize>, text: &[u8]) -> usize
    ensures { result ≡ upto (ends_plain false spaces) text.now }
{
    if ends_scalar(spaces, text) {
        return 0;
    }
    plain_len(false, spaces, text)
}

/// The text cut where a plain scalar in front has to end, as `split_plain` cuts it, and whether the scalar is on one
/// line for sure: most often words end the line.
#[inline(always)]
fn split_words(spaces: Option<usize>, text: &str) -> (&str, &str, bool)
    ensures cut { (result.0.now, result.1.now) ≡ cut (ends_plain false spaces) text.now }
    ensures line { IsTrue result.2 → holds_break result.0.now ≡ false }
{
    let n = words_len(text.as_bytes());
    let more = further_len(spaces, text.as_bytes().split_at(n).1);
    let (head, after) = text.split_at(n + more);
    (head, after, more == 0)
}

/// The scalar in front and what follows it, where it begins with a word, or is in double quotes on one line without
/// escapes; and whether it is a word head for sure.
#[inline(always)]
fn find_front(spaces: Option<usize>, text: &str) -> Option<(&str, &str, bool)>
    ensures { IfSome result (λ x. IsFrontScalar spaces text.now x.0.now x.1.now x.2) }
{
    if begins_word(text.as_bytes()) {
        return Some(split_words(spaces, text));
    }
    if !first_is(b'"', text.as_bytes()) {
        return None;
    }
    let (head, after) = short_scalar(text)?;
    Some((head, after, is_quoted(head.as_bytes())))
}

/// A scalar after white space and the tail after it, if one is there.
#[inline(always)]
fn find_line<'t>(space: &'t str, head: &'t str, after: &'t str) -> Option<Filling<'t>>
    ensures scalar { FindsScalar space.now head.now after.now result }
    ensures head { IfSome result (λ f. f.head.now ≡ head.now) }
{
    let (tail, rest) = find_tail(after)?;
    Some(Filling {
        space,
        anchor: "",
        apart: "",
        head,
        tail,
        raw: "",
        plain: !is_quoted(head.as_bytes()),
        alone: may_be_alone(space, false),
        depth: 0,
        rest,
    })
}

/// A break, or a scalar and its tail, after a mark and white space; and whether it is a word head for sure.
#[inline(always)]
fn find_content(parent: i64, text: &str) -> Option<(Filling<'_>, bool)>
    ensures read { IfSome result (λ f. filled_at parent text.now ≡ Some (filling_view f.0)) }
    ensures word { IfSome result (λ f. IsTrue f.1 → is_word_head f.0.head.now ≡ true) }
{
    if first_is(b'\n', text.as_bytes()) {
        let (tail, rest) = text.split_at(1);
        let content = Filling {
            space: "",
            anchor: "",
            apart: "",
            head: "",
            tail,
            raw: "",
            plain: false,
            alone: false,
            depth: 0,
            rest,
        };
        return Some((content, true));
    }
    let (space, rest) = split_white(text);
    let spaces = further_spaces(Place::Block, parent);
    if let Some((head, after, is_word)) = find_front(spaces, rest) {
        let content = find_line(space, head, after)?;
        return Some((content, is_word));
    }
    if begins_block(rest) {
        return None;
    }
    if begins_other(rest.as_bytes()) {
        return None;
    }
    if !begins_scalar(false, rest.as_bytes()) {
        return None;
    }
    match read_scalar(false, spaces, rest, rest) {
        Ok((head, after)) => {
            let content = find_line(space, head, after)?;
            Some((content, borrows_quoted(head)))
        }
        Err(_) => None,
    }
}

/// Whether a row with this mark is a word row for sure, by whether its head is a word head.
#[inline(always)]
fn is_word_row(mark: RowMark<'_>, is_head: bool) -> bool
    ensures head { IsTrue result → IsTrue is_head }
    ensures key { IsTrue result → is_word_mark (mark_view mark.entry) ≡ true }
{
    match mark {
        RowMark::Bare | RowMark::Dash => is_head,
        RowMark::Key(key, _) => is_head && (begins_word(key.as_bytes()) || borrows_quoted(key)),
    }
}

/// Where the row in front is, as `read_row` answers it, if it is one of those; and whether it is a word row for sure.
#[inline(always)]
pub(crate) fn find_row<'t>(
    whole: &'t str,
    limit: Limit,
    front: RowFront<'t>,
) -> Option<(Offsets, Limit, &'t str, bool, usize)>
    requires ends { Ends front.at.now whole.now }
    requires cut { front.at.now ≡ front.gap.now ++ front.text.now }
    requires short { length front.text.now ≤ length whole.now }
    requires small { length whole.now < 2 ^ 32 }
    ensures read { FindsRow whole.now result (row_at_front limit front.entry) }
    ensures is_located { IfSome result (λ x. IsCutIn whole.now x.0) }
    ensures place { IfSome result (BeginsAtFront whole.now front.entry) }
    ensures word { IfSome result (MayBeWordRow whole.now) }
    ensures known { IfSome result (KnowsRowHead whole.now) }
{
    let (indent, rest) = split_spaces(front.text);
    let column = indent.len();
    if !may_be_here(limit, column, rest.as_bytes()) {
        return None;
    }
    let begin = find_begin(rest)?;
    let parent = parent_of(begin.mark, column + begin.columns);
    let (content, is_head) = find_content(parent, begin.rest)?;
    let place = offsets_of(whole, front, column, &begin, &content);
    let limit = Limit::after(parent, content.plain);
    let is_word = is_word_row(begin.mark, is_head);
    Some((place, limit, content.rest, is_word, 0))
}
