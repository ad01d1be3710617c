//! Where what rows spell is in their text.
ghost use Rattle.std.specs.Prelude.{◌≡◌, ◌<◌, ◌≤◌, ◌-◌, length, slice_get, Some};
ghost use Rattle.yq_text.specs.Limit.{text_limit};
ghost use Rattle.yq_row_table.{specs.Offsets.row_length, specs.Rows.{Cut, Row as RowOf}, specs.View.{rows_of, rows_view, row_view, Slices}};
ghost use Rattle.yq_outline.specs.Extents as spec;

use yq_row_table::{Row, Rows};

/// How long a row is, with its gap.
pub fn row_len(row: &Row<'_>) -> usize
    requires { row_length (row_view row.now) ≤ text_limit }
    ensures { result ≡ row_length (row_view row.now) }
{
    row.gap().len()
        + row.column()
        + row.dashes().len()
        + row.key().len()
        + row.colon().len()
        + row.space().len()
        + row.anchor().len()
        + row.apart().len()
        + row.head().len()
        + row.tail().len()
        + row.raw().len()
}

/// Where row `i` begins, with its gap.
pub fn row_start(rows: &Rows<'_>, i: usize) -> usize
    requires within { i < length rows.now.rows }
    requires rows_view { spec.IsRowsView rows.now }
    ensures { result ≡ spec.row_start i rows.now }
{
    rows.start(i)
}

/// Where the head of row `i` begins and ends, in bytes, or where it would begin.
pub fn head_place(rows: &Rows<'_>, i: usize) -> (usize, usize)
    requires within { i < length rows.now.rows }
    requires rows_view { spec.IsRowsView rows.now }
    ensures { (c : Cut) → rows.now ≡ rows_view c → (r : RowOf) → slice_get (rows_of c) i ≡ Some r →
        (result.0, result.1) ≡ spec.head_place i c r }
{
    let start = rows.start(i) + rows.before_head(i);
    (start, start + rows.head(i).len())
}

/// How many dashes are in a text.
fn dash_count(text: &str) -> usize
    ensures { result ≡ spec.dash_count text.now }
{
    text.as_bytes().iter().filter(|b| **b == b'-').count()
}

/// How many dashes are in front of the last one.
fn before_last(dashes: &str) -> usize
    ensures { result ≡ spec.dash_count dashes.now - 1 }
{
    if dashes.len() <= 1 {
        return 0;
    }
    dash_count(dashes).saturating_sub(1)
}

/// How many lines of row `i` come before its last one.
pub fn lines_before_mark(rows: &Rows<'_>, i: usize) -> usize
    requires { i < length rows.now.rows }
    ensures { (x : Slices) → slice_get rows.now.rows i ≡ Some x →
        result ≡ spec.lines_before_mark x }
{
    if !rows.has_dashes(i) {
        return 0;
    }
    let dashes = rows.dashes(i);
    if rows.has_colon(i) {
        dash_count(dashes)
    } else {
        before_last(dashes)
    }
}

/// How far it is to the dash before which so many others are, or to the end, in bytes.
#[tactic(auto, unfolding(yq_outline::specs::Extents::dash_at))]
pub fn dash_at(dashes: &[u8], count: usize) -> usize
    ensures value { result ≡ spec.dash_at count dashes.now }
    ensures within { result ≤ length dashes.now }
{
    let mut at = 0;
    let mut left = count;
    let mut rest = dashes;
    'each: while let [first, after @ ..] = rest {
        if *first == b'-' {
            if left == 0 {
                return at;
            }
            left -= 1;
        }
        at += 1;
        rest = after;
    }
    at
}
