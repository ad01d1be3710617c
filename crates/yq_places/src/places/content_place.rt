//! Where the contents of nodes are outside flow collections.
ghost use Rattle.std.specs.Prelude.{◌≡◌, map, option_map};
ghost use Rattle.yq_core.specs.Entries.{tree_step};
ghost use Rattle.yq_outline.{specs.Lines.lines_of_rows, specs.RowWalk.lines_stop};
ghost use Rattle.yq_row_walk.specs.Walk.{IsWalk, IsWalkPosition};
ghost use Rattle.yq_places.specs.RowWalk.{InEach};
ghost use Rattle.yq_documents.specs.Pieces.{span};
ghost use Rattle.yq_places.specs.EntryReading as spec;

use crate::places::entry_place::lines_place;
use crate::places::known_end::after_all;
use crate::places::node_place::{NodePlace, node_place};
use crate::places::row_place::head_extent;
use yq_core::Step;
use yq_documents::Span;
use yq_outline::Position;
use yq_row_walk::{Walk, is_bare, is_deeper};

/// The place of the node that the lines mean, from one on, that are deeper than a level.
fn lines_content(walk: &Walk<'_, '_>, from: Position, floor: usize) -> Option<Span>
    requires walk { IsWalk walk.now }
    requires from { IsWalkPosition walk.now from }
    ensures { InEach walk.now (λ first c rs n. option_map span result ≡
        spec.lines_content first c rs (n from) (lines_stop (n from) floor (lines_of_rows rs))) }
{
    if !is_deeper(walk.rows, walk.document, from, floor) {
        return None;
    }
    if is_bare(walk.rows, walk.document, from) {
        return Some(head_extent(walk.rows, from.row));
    }
    let to = after_all(walk, from, floor);
    Some(lines_place(walk, from, to))
}

/// The place of the node to which steps lead, unless they go on in a head.
pub fn content_of(walk: &Walk<'_, '_>, steps: &[Step]) -> Option<Span>
    requires { IsWalk walk.now }
    ensures { InEach walk.now (λ first c rs n. option_map span result ≡
        spec.line_content_of first c rs (map tree_step steps.now)) }
{
    let (place, left) = node_place(walk, steps)?;
    if !left.is_empty() {
        return None;
    }
    match place {
        NodePlace::Head(at) => Some(head_extent(walk.rows, at.row)),
        NodePlace::Lines(from, floor) => lines_content(walk, from, floor),
    }
}
