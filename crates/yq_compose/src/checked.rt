//! A document whose rows are checked.
ghost use Rattle.std.specs.Prelude.{◌≡◌, ◌≢◌, ◌<◌, Some, length, slice_get};
ghost use Rattle.yq_core.{specs.declared.fault.FaultKind.TheVariants.NotUtf8, specs.Scalars.scalar_content};
ghost use Rattle.yq_outline.{specs.Bodies.borrowed, specs.RowWalk.{IsLine, OfLine}};
ghost use Rattle.yq_row_table.specs.View.{Slices};
ghost use Rattle.yq_compose.{specs.Ahead.IsAhead, specs.Checking.IsChecked};
ghost use Rattle.yq_outline.specs.Outline as outline;

use crate::ahead::{ahead_from, decoded_here};
use yq_core::fault_place::fault_at;
use yq_core::{FaultKind, ReadFault, is_quoted};
use yq_documents::{Decoded, decoded_key};
use yq_outline::{Position, Stretch};
use yq_row_table::Rows;
use yq_row_walk::rank_at;

/// A document of a text whose rows are cut, with what is made of these.
#[derive(Clone, Copy)]
pub(crate) struct Checked<'a, 't> {
    pub(crate) text: &'t str,
    pub(crate) rows: &'a Rows<'t>,
    pub(crate) decoded: &'a [Decoded<'t>],
    pub(crate) document: Stretch,
}

/// A fault of the row of a line: it is reported on the line of the text after the row's gap.
pub(crate) fn row_fault(x: Checked<'_, '_>, at: Position, kind: FaultKind) -> ReadFault
    requires kind { kind ≢ NotUtf8 }
    ensures { result.kind ≢ NotUtf8 }
{
    let place = if at.row < x.rows.len() {
        x.rows
            .start(at.row)
            .saturating_add(x.rows.gap(at.row).len())
    } else {
        x.text.len()
    };
    fault_at(kind, x.text.as_bytes(), place)
}

/// What the key of a row means, by what is made from the row on.
#[inline(always)]
pub(crate) fn row_key<'a, 't>(x: Checked<'a, 't>, row: usize, decoded: &'a [Decoded<'t>]) -> &'a str
    requires ready { IsChecked x }
    requires within { row < length x.rows.now.rows }
    requires decoded { IsAhead x.decoded.now row decoded.now }
    ensures { (s : Slices) → slice_get x.entry.rows.now.rows row ≡ Some s →
        result.now ≡ scalar_content s.key }
{
    let piece = x.rows.key(row);
    if is_quoted(piece.as_bytes()) {
        return decoded_key(decoded_here(decoded, row), piece);
    }
    piece
}

/// The key of a line, if it has one.
pub(crate) fn line_key<'a>(x: Checked<'a, '_>, at: Position) -> Option<&'a str>
    requires ready { IsChecked x }
    requires line { IsLine x.rows.now x.document at }
    ensures { OfLine x.entry.rows.now x.entry.document at (λ l.
        borrowed result ≡ outline.key_of l.mark) }
{
    if rank_at(x.rows, at) != 2 {
        return None;
    }
    Some(row_key(x, at.row, ahead_from(x.decoded, at.row)))
}
