//! Anchors of neighbouring lines: no node has two, and no alias has one.
ghost use Rattle.std.specs.Prelude.{◌≡◌, ◌≤◌, ◌-◌, ◌&&◌, ℕ, List, drop, is_none, not, Some};
ghost use Rattle.yq_core.specs.Text.{is_empty};
ghost use Rattle.yq_outline.{specs.Lines.lines_of_rows, specs.RowWalk.{HasRows, IsLine, OfLine, OfLines}};
ghost use Rattle.yq_compose.specs.Checking.{IsChecked};
ghost use Rattle.yq_core.specs.Nodes as nodes;
ghost use Rattle.yq_outline.specs.LinesReading as spec;

use crate::checked::Checked;
use yq_core::first_is;
use yq_outline::Position;
use yq_row_walk::is_bare;

/// Whether a node itself, written so, has no anchor and is no alias.
fn is_unnamed(anchor: &str, head: &str) -> bool
    ensures { result ≡ (is_empty anchor.now && not (nodes.begins_with 42 head.now)) }
{
    anchor.is_empty() && !first_is(b'*', head.as_bytes())
}

/// Whether the node that begins with the first line of a row may take an anchor that comes before it.
fn may_take(x: Checked<'_, '_>, at: Position) -> bool
    requires ready { IsChecked x }
    requires line { IsLine x.rows.now x.document at }
    requires first { at.line ≡ 0 }
    ensures { OfLine x.entry.rows.now x.entry.document at (λ l.
        result ≡ spec.may_take l.mark l.anchor l.head) }
{
    if !is_bare(x.rows, x.document, at) {
        return true;
    }
    is_unnamed(x.rows.anchor(at.row), x.rows.head(at.row))
}

/// Whether an anchor before a row of a document, or before its end, is the only one of its node.
#[inline(never)]
fn is_free(x: Checked<'_, '_>, row: usize) -> bool
    requires ready { IsChecked x }
    requires order { x.document.first ≤ row }
    ensures { (h : HasRows x.entry.rows.now x.entry.document) → (a : List ℕ) → result ≡
        spec.is_free (Some a) (lines_of_rows (drop (row - x.entry.document.first) h.rows)) }
{
    row >= x.document.end || may_take(x, Position { row, line: 0 })
}

/// The first line whose node has an anchor already, or is an alias, after a row with an anchor.
pub(crate) fn second_anchor(x: Checked<'_, '_>) -> Option<Position>
    requires ready { IsChecked x }
    ensures { OfLines x.entry.rows.now x.entry.document (λ ls n.
        is_none result ≡ spec.have_one_anchor_each ls) }
{
    'rows: for row in x.document.first..x.document.end {
        if x.rows.has_anchor(row) && !is_free(x, row + 1) {
            return Some(Position {
                row: row + 1,
                line: 0,
            });
        }
    }
    None
}
