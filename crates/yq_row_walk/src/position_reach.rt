//! The line of a document to which steps lead, and the steps that go on in its head, row by row.
ghost use Rattle.std.specs.Prelude.{◌≡◌, ◌∷◌, map, option_map, IfSome, IsTrue, Some};
ghost use Rattle.yq_core.specs.Entries.{tree_step};
ghost use Rattle.yq_outline.{specs.Ends.{line_at_steps, part, reached}, specs.Lines.lines_of_rows, specs.Extents.IsRowsView};
ghost use Rattle.yq_outline.specs.RowWalk.{HasRows, IsLine, IsPosition, LeadsTo, line_number};
ghost use Rattle.yq_row_walk.specs.Walk.{HaveWalkKeys, IsWalk, IsWalkLine, IsWalkPosition, OfWalkRows, WalkLeads};
ghost use Rattle.yq_outline.specs.Positions as positions;
ghost use Rattle.yq_outline.specs.RowWalk as spec;

use crate::extent::lines_before_mark;
use crate::known_line::{if_along, walk_start};
use crate::position::{is_level_deeper, level_at, level_or_end, next_by};
use crate::position_find::find_step;
use crate::position_marks::{has_head_by, is_bare_at};
use crate::walk::Walk;
use yq_core::Step;
use yq_outline::{Next, Position, Stretch};
use yq_row_table::Rows;

/// Whether the first of the lines from one on that are deeper than a level is a node itself.
#[inline(always)]
pub fn begins_with_node(rows: &Rows<'_>, document: Stretch, under: Position, floor: usize) -> bool
    requires rows_view { IsRowsView rows.now }
    requires document { HasRows rows.now document }
    requires under { IsPosition rows.now document under }
    ensures some { IsTrue result → IsLine rows.now document under }
    ensures test { (h : HasRows rows.now document) → result ≡
        positions.begins_with_node
        (part (lines_of_rows h.rows) (line_number document h.rows under) floor) }
{
    let level = level_or_end(rows, document, under);
    if !is_level_deeper(rows, document, under, level, floor) {
        return false;
    }
    is_bare_at(level)
}

/// Where a step leads among the lines from one on that are deeper than a level.
#[inline(always)]
fn next_in(walk: &Walk<'_, '_>, under: Position, floor: usize, step: &Step) -> Option<Next>
    requires walk { IsWalk walk.now }
    requires under { IsWalkPosition walk.now under }
    requires keys { HaveWalkKeys walk.now under floor }
    ensures within { IfSome result (λ x. IsWalkLine walk.now (spec.next_position x)) }
    ensures found { LeadsTo walk.now.rows.now walk.now.document
        (λ ls n ss. positions.reach_in ls (n under) floor (tree_step step.now) ss)
        (tree_step step.now) result }
{
    if begins_with_node(walk.rows, walk.document, under, floor) {
        return Some(Next::Head(under));
    }
    let at = find_step(walk, under, floor, step)?;
    Some(Next::Line(at))
}

/// Where a step leads from a line.
#[inline(always)]
fn next_from(walk: &Walk<'_, '_>, at: Position, step: &Step) -> Option<Next>
    requires walk { IsWalk walk.now }
    requires at { IsWalkLine walk.now at }
    ensures within { IfSome result (λ x. IsWalkLine walk.now (spec.next_position x)) }
    ensures found { WalkLeads walk.now (Some at) step.now result }
{
    let marks = lines_before_mark(walk.rows, at.row);
    if has_head_by(walk.rows, walk.document, at, marks) {
        return Some(Next::Head(at));
    }
    let under = next_by(walk.rows, walk.document, at, marks);
    next_in(walk, under, level_at(walk.rows, at), step)
}

/// Where a step leads from a line, or from the root.
#[inline(always)]
pub fn next_at(walk: &Walk<'_, '_>, from: Option<Position>, step: &Step) -> Option<Next>
    requires walk { IsWalk walk.now }
    requires from { IfSome from (IsWalkLine walk.now) }
    ensures within { IfSome result (λ x. IsWalkLine walk.now (spec.next_position x)) }
    ensures found { WalkLeads walk.now from step.now result }
{
    match from {
        Some(at) => next_from(walk, at, step),
        None => {
            let first = Position {
                row: walk.document.first,
                line: 0,
            };
            next_in(walk, first, 0, step)
        }
    }
}

/// The line of a document to which steps lead, and the steps that go on in its head, from where a walk along them
/// begins.
#[inline(always)]
fn reach_by_steps<'s>(walk: &Walk<'_, '_>, steps: &'s [Step]) -> Option<(Position, &'s [Step])>
    requires { IsWalk walk.now }
    ensures within { IfSome result (λ x. IsWalkLine walk.now x.0) }
    ensures found { OfWalkRows walk.now (λ d rs. option_map (spec.reached_view d rs) result ≡
        reached (map tree_step steps.now) (lines_of_rows rs)) }
{
    let (mut found, mut left) = walk_start(walk, steps);
    'steps: while let [step, others @ ..] = left {
        match next_at(walk, found, step)? {
            Next::Line(at) => found = Some(at),
            Next::Head(at) => return Some((at, left)),
        }
        left = others;
    }
    let at = found?;
    Some((at, left))
}

/// The line of a document to which steps lead, and the steps that go on in its head.
#[inline(always)]
pub fn reach<'s>(walk: &Walk<'_, '_>, steps: &'s [Step]) -> Option<(Position, &'s [Step])>
    requires { IsWalk walk.now }
    ensures within { IfSome result (λ x. IsWalkLine walk.now x.0) }
    ensures found { OfWalkRows walk.now (λ d rs. option_map (spec.reached_view d rs) result ≡
        reached (map tree_step steps.now) (lines_of_rows rs)) }
{
    match if_along(walk, steps) {
        Some(at) => Some((at, &steps[steps.len()..])),
        None => reach_by_steps(walk, steps),
    }
}

/// The line of a document to which steps lead, where none go on in its head.
#[inline(always)]
pub fn line_at(walk: &Walk<'_, '_>, steps: &[Step]) -> Option<Position>
    requires { IsWalk walk.now }
    ensures within { IfSome result (IsWalkLine walk.now) }
    ensures found { OfWalkRows walk.now (λ d rs. option_map (line_number d rs) result ≡
        line_at_steps (map tree_step steps.now) (lines_of_rows rs)) }
{
    let (at, left) = reach(walk, steps)?;
    if left.is_empty() { Some(at) } else { None }
}
