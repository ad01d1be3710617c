//! Where entries and items are in block collections.
ghost use Rattle.std.specs.Prelude.{◌≡◌, ◌<◌, ◌-◌, map, option_map, Some};
ghost use Rattle.yq_core.specs.Entries.{tree_step};
ghost use Rattle.yq_outline.specs.RowWalk.{AreLinesTo};
ghost use Rattle.yq_row_walk.specs.Walk.{IsWalk};
ghost use Rattle.yq_places.specs.RowWalk.{InEach};
ghost use Rattle.yq_documents.specs.Pieces.{span};
ghost use Rattle.yq_places.specs.EntryReading as spec;

use crate::places::row_place::{line_start, row_end};
use yq_core::Step;
use yq_documents::Span;
use yq_outline::Position;
use yq_row_walk::{Walk, line_at, position_after};

/// The place from the beginning of a line of a document to the end of the last row before another one.
pub fn lines_place(walk: &Walk<'_, '_>, from: Position, to: Position) -> Span
    requires walk { IsWalk walk.now }
    requires lines { AreLinesTo walk.now.rows.now walk.now.document from to }
    requires some { from.row < to.row }
    ensures { InEach walk.now (λ first c rs n. Some (span result) ≡
        spec.lines_place first c rs (n from) (n to - 1)) }
{
    Span {
        start: line_start(walk.rows, from),
        end: row_end(walk.rows, to.row - 1),
    }
}

/// The place of the entry or item of the line to which steps lead.
pub fn entry_of(walk: &Walk<'_, '_>, steps: &[Step]) -> Option<Span>
    requires { IsWalk walk.now }
    ensures { InEach walk.now (λ first c rs n. option_map span result ≡
        spec.line_entry_of first c rs (map tree_step steps.now)) }
{
    let at = line_at(walk, steps)?;
    let to = position_after(walk.rows, walk.document, at);
    Some(lines_place(walk, at, to))
}
