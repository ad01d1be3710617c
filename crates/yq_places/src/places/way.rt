//! What is on the way of a path: the items from which later walks may go on, and lines.
ghost use Rattle.std.specs.Prelude.{◌≡◌, List, map, IfSome, None, Some};
ghost use Rattle.yq_core.specs.Entries.{tree_step};
ghost use Rattle.yq_row_table.specs.View.{RowsView, Slices};
ghost use Rattle.yq_outline.specs.RowWalk.{AreKnown, IsKnown};
ghost use Rattle.yq_row_walk.specs.Walk.{ArriveAt, IsKnownLine, IsLineAbove, IsLineAt, IsWalk, IsWalkLine, IsWalkLineAt, WalkLeads};

use yq_core::Step;
use yq_outline::{KnownItem, Next, Position, Stretch};
use yq_row_walk::{KnownLine, Walk, known_to, level_at, next, next_at, walk_start};

/// Whether an item that is known is there already after so many others.
#[inline(always)]
fn is_there(known: &[KnownItem], count: usize, item: KnownItem) -> bool {
    match known.get(count) {
        Some(there) => there.row == item.row && there.floor == item.floor,
        None => false,
    }
}

/// Puts an item that is known after so many others, in the place of all that come after these, unless it
/// is there already; and gives how many come before the next one then. It isn't kept where memory runs out.
#[inline(always)]
pub fn put_item(known: &mut Vec<KnownItem>, count: usize, item: KnownItem) -> usize
    ensures { (ss : List Slices) → AreKnown ss known.old.items → IsKnown ss item →
        AreKnown ss known.new.items }
{
    if is_there(known.as_slice(), count, item) {
        return count.saturating_add(1);
    }
    known.truncate(count);
    let _ = known.push(item);
    known.len()
}

/// The item or entry of a line under another one, or of the root, as one that is known, unless it
/// begins in the row of the first one.
#[inline(always)]
fn known_by(walk: &Walk<'_, '_>, from: Option<Position>, at: Position) -> Option<KnownItem>
    requires walk { IsWalk walk.now }
    requires from { IfSome from (IsWalkLine walk.now) }
    requires at { IsWalkLine walk.now at }
    ensures known { IfSome result (IsKnown walk.now.rows.now.rows) }
{
    let (under, floor) = match from {
        Some(above) => {
            let under = next(walk.rows, walk.document, above);
            (under, level_at(walk.rows, above))
        }
        None => {
            let first = Position {
                row: walk.document.first,
                line: 0,
            };
            (first, 0)
        }
    };
    if under.row >= at.row {
        return None;
    }
    known_to(walk, under, floor, at.row)
}

/// Whether the item of a row is known already after so many others.
#[inline(always)]
fn is_row_there(known: &[KnownItem], count: usize, row: usize) -> bool {
    match known.get(count) {
        Some(there) => there.row == row,
        None => false,
    }
}

/// How many of the items that are known begin no later than a line.
#[inline(always)]
fn count_upto(known: &[KnownItem], at: Option<Position>) -> usize {
    match at {
        Some(at) => known.iter().filter(|item| item.row <= at.row).count(),
        None => 0,
    }
}

/// Where a step leads from a line, or from the root, if not on in a head. The item or entry is put after so many that
/// are known, and reported is how many come before the next one then.
#[inline(always)]
fn step_along(
    walk: &Walk<'_, '_>,
    known: &mut Vec<KnownItem>,
    count: usize,
    from: Option<Position>,
    step: &Step,
) -> Option<(usize, Position)>
    requires walk { IsWalk walk.now }
    requires from { IfSome from (IsWalkLine walk.now) }
    requires known { AreKnown walk.now.rows.now.rows known.old.items }
    ensures known { AreKnown walk.now.rows.now.rows known.new.items }
    ensures within { IfSome result (λ x. IsWalkLine walk.now x.1) }
    ensures leads { IfSome result (λ x. WalkLeads walk.now from step.now
        (Some (Next.Line x.1))) }
{
    let here = Walk {
        known: known.as_slice(),
        ..*walk
    };
    let Some(Next::Line(at)) = next_at(&here, from, step) else {
        return None;
    };
    if is_row_there(known.as_slice(), count, at.row) {
        return Some((count.saturating_add(1), at));
    }
    match known_by(&here, from, at) {
        Some(item) => Some((put_item(known, count, item), at)),
        None => Some((count, at)),
    }
}

/// Puts the items on the way of steps, one for each collection, in the place of the items that are known, as
/// far as these are others. How many they are, and the line to which the steps lead, if none goes on in the
/// head of one; or the root.
#[inline(always)]
fn known_above(
    walk: &Walk<'_, '_>,
    known: &mut Vec<KnownItem>,
    steps: &[Step],
) -> Option<(usize, Option<Position>)>
    requires walk { IsWalk walk.now }
    requires known { AreKnown walk.now.rows.now.rows known.old.items }
    ensures known { AreKnown walk.now.rows.now.rows known.new.items }
    ensures way { IfSome result (λ x. ArriveAt walk.now.rows.now walk.now.document steps.now x.1) }
{
    let (mut from, mut left) = walk_start(walk, steps);
    let mut count = count_upto(known.as_slice(), from);
    'steps: while let [step, others @ ..] = left {
        let (next, at) = step_along(walk, known, count, from, step)?;
        count = next;
        from = Some(at);
        left = others;
    }
    Some((count, from))
}

/// What is on the way of a path.
#[derive(Clone, Copy)]
pub struct Way<'s> {
    /// How many known items are.
    pub items: usize,
    /// The line to which the steps before the last one lead.
    pub above: Option<KnownLine<'s>>,
    /// That to which all lead, if none goes on in the head of one.
    pub line: Option<KnownLine<'s>>,
}

impl<'s> Way<'s> {
    /// Nothing.
    pub fn none() -> Way<'s>
        ensures above { result.above ≡ None }
        ensures line { result.line ≡ None }
    {
        Way {
            items: 0,
            above: None,
            line: None,
        }
    }
}

/// The line to which steps lead, as one that is known.
#[inline(always)]
fn line_known<'s>(
    document: Stretch,
    steps: &'s [Step],
    at: Option<Position>,
) -> Option<KnownLine<'s>>
    ensures { (s : RowsView) → ArriveAt s document steps.now at → IfSome result (IsLineAbove s) }
{
    let at = at?;
    Some(KnownLine {
        document,
        steps,
        at,
    })
}

/// Puts the items on the way of a path, one for each collection, in the place of the items that are known, as
/// far as these are others; and reports what is on its way.
#[inline(always)]
pub fn known_along<'s>(
    walk: &Walk<'_, '_>,
    known: &mut Vec<KnownItem>,
    steps: &'s [Step],
) -> Way<'s>
    requires walk { IsWalk walk.now }
    requires known { AreKnown walk.now.rows.now.rows known.old.items }
    ensures known { AreKnown walk.now.rows.now.rows known.new.items }
    ensures above { IfSome result.above (IsLineAbove walk.now.rows.now) }
    ensures line { IfSome result.line (IsKnownLine walk.now.rows.now) }
    ensures at { IfSome result.line (λ k. IsWalkLineAt walk.now steps.now k.at) }
{
    let [front @ .., last] = steps else {
        return Way::none();
    };
    let Some((count, from)) = known_above(walk, known, front) else {
        return Way::none();
    };
    let above = line_known(walk.document, front, from);
    match step_along(walk, known, count, from, last) {
        Some((items, at)) => Way {
            items,
            above,
            line: Some(KnownLine {
                document: walk.document,
                steps,
                at,
            }),
        },
        None => Way {
            items: count,
            above,
            line: None,
        },
    }
}
