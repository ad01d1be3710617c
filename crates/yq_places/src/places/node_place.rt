//! Where the nodes at paths are written among the lines of a document, row by row.
ghost use Rattle.std.specs.Prelude.{◌≡◌, map, option_map, slice_get, IfSome, Some};
ghost use Rattle.yq_core.specs.Entries.{tree_step};
ghost use Rattle.yq_outline.{specs.Outline.Line, specs.Lines.lines_of_rows};
ghost use Rattle.yq_row_walk.specs.Walk.{IsWalk, IsWalkLine, OfWalkLines, OfWalkRows};
ghost use Rattle.yq_places.specs.NodeReading as spec;

use yq_core::Step;
use yq_outline::Position;
use yq_row_walk::{Walk, begins_with_node, has_head, level_at, next, reach};

/// Where a node is written.
#[derive(Clone, Copy)]
pub enum NodePlace {
    /// In the head of a line.
    Head(Position),
    /// On the lines from one on that are deeper than a level.
    Lines(Position, usize),
}

/// Where the node of a line is written: in its head, if it has one or steps go on there, else on the
/// lines under it.
#[inline(always)]
fn line_place(walk: &Walk<'_, '_>, at: Position, left: &[Step]) -> NodePlace
    requires walk { IsWalk walk.now }
    requires at { IsWalkLine walk.now at }
    ensures within { spec.IsPlace walk.now.rows.now walk.now.document result }
    ensures agrees { OfWalkLines walk.now (λ ls n. (l : Line) →
        slice_get ls (n at) ≡ Some l →
        spec.place_by n result ≡ spec.line_place (n at) (map tree_step left.now) l) }
{
    if !left.is_empty() {
        return NodePlace::Head(at);
    }
    if has_head(walk.rows, walk.document, at) {
        return NodePlace::Head(at);
    }
    NodePlace::Lines(next(walk.rows, walk.document, at), level_at(walk.rows, at))
}

/// Where the node at a path is written, and the steps that go on there.
#[inline(always)]
pub fn node_place<'s>(walk: &Walk<'_, '_>, steps: &'s [Step]) -> Option<(NodePlace, &'s [Step])>
    requires { IsWalk walk.now }
    ensures within { IfSome result (λ x. spec.IsPlace walk.now.rows.now walk.now.document x.0) }
    ensures found { OfWalkRows walk.now (λ d rs. option_map (spec.node_place_view d rs) result ≡
        spec.node_place (map tree_step steps.now) (lines_of_rows rs)) }
{
    if steps.is_empty() {
        let first = Position {
            row: walk.document.first,
            line: 0,
        };
        return Some((NodePlace::Lines(first, 0), steps));
    }
    let (at, left) = reach(walk, steps)?;
    Some((line_place(walk, at, left), left))
}

/// The line in whose head a node is written, if it is in one.
#[inline(always)]
pub fn place_line(walk: &Walk<'_, '_>, place: NodePlace) -> Option<Position>
    requires walk { IsWalk walk.now }
    requires place { spec.IsPlace walk.now.rows.now walk.now.document place }
    ensures within { IfSome result (IsWalkLine walk.now) }
    ensures found { OfWalkLines walk.now (λ ls n.
        option_map n result ≡ spec.place_line ls (spec.place_by n place)) }
{
    match place {
        NodePlace::Head(at) => Some(at),
        NodePlace::Lines(under, floor) => {
            if begins_with_node(walk.rows, walk.document, under, floor) {
                Some(under)
            } else {
                None
            }
        }
    }
}
