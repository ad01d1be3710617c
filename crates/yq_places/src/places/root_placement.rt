//! What is at roots.
ghost use Rattle.std.specs.Prelude.{◌≡◌, ◌<◌, ◌∷◌};
ghost use Rattle.yq_text.specs.Halves.{whole};
ghost use Rattle.yq_places.specs.PlacementReading.{IsRootOf};
ghost use Rattle.yq_places.specs.Placements as spec;
ghost use Rattle.yq_places.specs.PlacementViews as row_agrees;

use crate::places::entry_placement::{is_alone, lone_in};
use crate::places::halves::is_text;
use crate::places::lines_cut::lines_from;
use crate::places::placement::Placement;
use crate::places::row_place::line_start;
use yq_outline::{Position, Stretch};
use yq_row_table::Rows;
use yq_text::Halves;

/// The root of a document as a block collection: from its first key or dash to its last line.
fn block_root_in<'t>(rows: &Rows<'t>, text: Halves<'t>, document: Stretch) -> Placement<'t>
    requires { IsRootOf (whole text) rows.now document }
    ensures { (h : IsRootOf (whole text.entry) rows.now document) →
        row_agrees.placement_view result ≡
        spec.root h.row.column (spec.root_lines h.part h.row h.under) }
{
    is_text(text);
    let position = Position {
        row: document.first,
        line: 0,
    };
    let column = rows.row(document.first).column();
    let start = line_start(rows, position);
    Placement::Root(column, lines_from(rows, text, start, document.end))
}

/// What is at the root of a document with rows.
pub fn rows_placement<'t>(rows: &Rows<'t>, text: Halves<'t>, document: Stretch) -> Placement<'t>
    requires { IsRootOf (whole text) rows.now document }
    ensures { (h : IsRootOf (whole text.entry) rows.now document) →
        row_agrees.placement_view result ≡ spec.root_placement h.part (h.row ∷ h.under) }
{
    if is_alone(&rows.row(document.first)) {
        Placement::Alone(lone_in(rows, text, document.first))
    } else {
        block_root_in(rows, text, document)
    }
}
