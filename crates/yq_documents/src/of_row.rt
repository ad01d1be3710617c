//! What is made of a row, and what its head spells.
ghost use Rattle.std.specs.Prelude.{◌≡◌, length, option_map, slice_get, Some};
ghost use Rattle.yq_row_table.{specs.Rows.Row as RowOf, specs.View.rows_of};
ghost use Rattle.yq_documents.specs.Decoded as spec;

use crate::decoded::{BORROWED_DEPTH, Decoded, DecodedHead};
use yq_core::{BorrowedNode, strip};
use yq_outline::Head;
use yq_row_table::Rows;
use yq_row_walk::head_place;

/// What is made of a row, if anything is.
pub fn decoded_at<'d, 't>(decoded: &'d [Decoded<'t>], row: usize) -> Option<&'d Decoded<'t>>
    requires { spec.Rise 0 decoded.now }
    ensures { option_map (λ m. m.now) result ≡ spec.decoded_at row decoded.now }
{
    let at = decoded.partition_point(|m| m.row < row);
    if at >= decoded.len() {
        return None;
    }
    let found = &decoded[at];
    if found.row != row {
        return None;
    }
    Some(found)
}

/// The head that is made of a row, if one is.
fn owned_head<'d, 't>(decoded: Option<&'d Decoded<'t>>) -> Option<&'d Head<'t>>
    ensures { option_map (λ h. h.now) result ≡
        spec.owned_head (option_map (λ m. m.now) decoded.entry) }
{
    match &decoded?.head {
        Some(head) => Some(head),
        None => None,
    }
}

/// Whether an alias or a flow collection begins so.
fn begins_flow(head: &[u8]) -> bool
    ensures { result ≡ spec.begins_flow head.now }
{
    matches!(head, [b'*' | b'[' | b'{', ..])
}

/// The head of row `i`, which its text lends, where it is an alias or a flow collection.
fn borrowed_flow<'d, 't>(text: &'t str, rows: &Rows<'t>, i: usize) -> Option<DecodedHead<'d, 't>>
    requires { spec.IsBorrowedRow text.now rows.now i }
    ensures { (k : spec.IsBorrowedRow text.now rows.now i) (r : RowOf) →
        slice_get (rows_of k.cut) i ≡ Some r → spec.IsHeadDecoded (length text.now) k.cut result i r }
{
    if i >= rows.len() {
        return None;
    }
    let head = rows.head(i);
    if !begins_flow(head.as_bytes()) {
        return None;
    }
    let (start, _) = head_place(rows, i);
    if let Some(name) = strip(b'*', head) {
        return Some(DecodedHead::Alias(name, start));
    }
    Some(DecodedHead::Borrowed(BorrowedNode {
        total: text.len(),
        depth: BORROWED_DEPTH,
        text: text.split_at(start).1,
    }))
}

/// What the head of row `i` spells, by what is made of the row, where it is made, an alias or a flow collection.
pub fn known_head<'d, 't>(
    text: &'t str,
    rows: &Rows<'t>,
    i: usize,
    decoded: Option<&'d Decoded<'t>>,
) -> Option<DecodedHead<'d, 't>>
    requires { spec.IsKnownRow text.now rows.now (option_map (λ m. m.now) decoded) i }
    ensures { (k : spec.IsKnownRow text.now rows.now (option_map (λ m. m.now) decoded.entry) i)
        (r : RowOf) → slice_get (rows_of k.cut) i ≡ Some r →
        spec.IsHeadDecoded (length text.now) k.cut result i r }
{
    match owned_head(decoded) {
        Some(head) => Some(DecodedHead::Owned(head)),
        None => borrowed_flow(text, rows, i),
    }
}
