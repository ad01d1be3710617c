//! Where a step of a path leads among the lines of a document, row by row.
ghost use Rattle.std.specs.Prelude.{IfSome};
ghost use Rattle.yq_core.specs.Entries.{tree_step};
ghost use Rattle.yq_row_walk.specs.Walk.{HaveWalkKeys, IsWalk, IsWalkLine, IsWalkPosition, WalkFinds};
ghost use Rattle.yq_core.specs.Paths as steps;

use crate::known_item::walk_begin;
use crate::known_key::key_near;
use crate::position::{after_level, is_level_deeper, level_or_end};
use crate::position_marks::{is_item, is_key};
use crate::walk::Walk;
use yq_core::Step;
use yq_outline::Position;

/// The line of a key's entry among the lines of a document from one on that are deeper than a level.
pub fn find_key(walk: &Walk<'_, '_>, under: Position, floor: usize, key: &str) -> Option<Position>
    requires walk { IsWalk walk.now }
    requires under { IsWalkPosition walk.now under }
    ensures within { IfSome result (IsWalkLine walk.now) }
    ensures found { WalkFinds walk.now under floor (steps.To key.now) result }
{
    let mut at = under;
    let mut level = level_or_end(walk.rows, walk.document, at);
    'lines: while is_level_deeper(walk.rows, walk.document, at, level, floor) {
        if is_key(walk.rows, walk.document, at, level, key) {
            return Some(at);
        }
        (at, level) = after_level(walk.rows, walk.document, at, level);
    }
    None
}

/// The same, where the entry is looked for near one that is known first.
fn find_entry(walk: &Walk<'_, '_>, under: Position, floor: usize, key: &str) -> Option<Position>
    requires walk { IsWalk walk.now }
    requires under { IsWalkPosition walk.now under }
    requires keys { HaveWalkKeys walk.now under floor }
    ensures within { IfSome result (IsWalkLine walk.now) }
    ensures found { WalkFinds walk.now under floor (steps.To key.now) result }
{
    let near = key_near(walk, under, floor, key);
    if near.is_some() {
        return near;
    }
    find_key(walk, under, floor, key)
}

/// The line of an item, by its index, among the lines of a document from one on that are deeper than a
/// level.
#[inline(always)]
pub fn find_item(
    walk: &Walk<'_, '_>,
    under: Position,
    floor: usize,
    index: usize,
) -> Option<Position>
    requires walk { IsWalk walk.now }
    requires under { IsWalkPosition walk.now under }
    ensures within { IfSome result (IsWalkLine walk.now) }
    ensures found { WalkFinds walk.now under floor (steps.Nth index) result }
{
    let begin = walk_begin(walk, under, floor, index);
    let mut at = begin.0;
    let mut left = begin.1;
    let mut level = level_or_end(walk.rows, walk.document, at);
    'lines: while is_level_deeper(walk.rows, walk.document, at, level, floor) {
        if is_item(level, left) {
            return Some(at);
        }
        left = left.saturating_sub(1);
        (at, level) = after_level(walk.rows, walk.document, at, level);
    }
    None
}

/// The line to which a step leads among the lines of a document from one on that are deeper than a level.
#[inline(always)]
pub fn find_step(
    walk: &Walk<'_, '_>,
    under: Position,
    floor: usize,
    step: &Step,
) -> Option<Position>
    requires walk { IsWalk walk.now }
    requires under { IsWalkPosition walk.now under }
    requires keys { HaveWalkKeys walk.now under floor }
    ensures within { IfSome result (IsWalkLine walk.now) }
    ensures found { WalkFinds walk.now under floor (tree_step step.now) result }
{
    match step {
        Step::Key(key) => find_entry(walk, under, floor, key.as_str()),
        Step::Index(index) => find_item(walk, under, floor, *index),
    }
}
