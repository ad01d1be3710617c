//! What is asked of a document's lines, row by row.
ghost use Rattle.std.specs.Prelude.{◌≡◌, ◌≢◌, ◌+◌, ◌++◌, ◌&&◌, [], false, is_some, map, IfErr, IfOk, OnOk, Some};
ghost use Rattle.yq_core.{specs.Answers.IsOfText, specs.declared.fault.FaultKind.TheVariants.NotUtf8, specs.Text.with_first};
ghost use Rattle.yq_outline.{specs.Ends.{part, has_no_lines}, specs.RowWalk.{IsLine, IsPosition, OfLine, OfLines}};
ghost use Rattle.yq_compose.{specs.Checking.{IsChecked, IsReached, OfChecked, OfCheckedLine, GivesEnd, GivesStop}, specs.Deciding.Decides};
ghost use Rattle.yq_inline.specs.KeyTexts.{key_texts};
ghost use Rattle.yq_outline.specs.Outline as outline;
ghost use Rattle.yq_outline.specs.Sound as spec;

use crate::checked::{Checked, line_key, row_fault};
use crate::nested::head_fault;
use crate::reached::{Reached, is_bare, is_deeper, key_at, line_after};
use std::alloc::{AllocError, Global};
use std::collections::BTreeMap;
use yq_core::{FaultKind, ReadError};
use yq_inline::{Keys, take_distinct};
use yq_outline::Position;
use yq_row_walk::{has_head, is_deeper as is_line_deeper, position_after};

/// Why a line can't be where others of a collection at a level do: after neither key nor dash in the
/// column of the keys, where its key is missing, or in another column or collection.
fn misplaced(level: usize, n: usize) -> FaultKind
    ensures { result ≢ NotUtf8 }
{
    if level % 3 == 1 && level.saturating_add(1) == n {
        FaultKind::BadKey
    } else {
        FaultKind::BadIndent
    }
}

/// A node on a line of its own, deeper than a level: it is to be there, and to be alone. The position after
/// it.
fn check_bare<'a, 't>(
    alloc: Global,
    x: Checked<'a, 't>,
    at: Reached<'a, 't>,
    floor: usize,
    depth: usize,
) -> Result<Reached<'a, 't>, ReadError>
    requires ready { IsChecked x }
    requires at { IsReached x.decoded.now x.rows.now x.document at }
    requires line { IsLine x.rows.now x.document at.position }
    requires deep { OfLines x.rows.now x.document (λ ls n.
        has_no_lines (part ls (n at.position) floor) ≡ false) }
    ensures sound { OfCheckedLine x.entry at.entry.position (λ ls n l.
        Decides result ((is_some l.head &&
        has_no_lines (part ls (n at.entry.position + 1) floor)) &&
        spec.head_is_sound depth l.head)) }
    ensures reached { IfOk result (IsReached x.entry.decoded.now x.entry.rows.now x.entry.document) }
    ensures after { IfOk result (λ r. GivesStop x.entry.rows.now x.entry.document at.entry.position
        floor r.position) }
    ensures fault { IfErr result IsOfText }
{
    if !has_head(x.rows, x.document, at.position) {
        return Err(ReadError::Fault(row_fault(x, at.position, FaultKind::BadIndent)));
    }
    let after = line_after(x, at);
    if is_deeper(x, after, floor) {
        return Err(ReadError::Fault(row_fault(x, after.position, FaultKind::BadIndent)));
    }
    match head_fault(alloc, x, at, depth) {
        Ok(()) => Ok(after),
        Err(e) => Err(e),
    }
}

/// Adds the key of a line, if it has one.
#[inline(always)]
fn push_key<'k, 't>(
    keys: &mut Keys<'k>,
    x: Checked<'k, 't>,
    at: Reached<'k, 't>,
) -> Result<(), AllocError>
    requires ready { IsChecked x }
    requires reached { IsReached x.decoded.now x.rows.now x.document at }
    requires line { IsLine x.rows.now x.document at.position }
    ensures { OfLine x.entry.rows.now x.entry.document at.entry.position (λ l. OnOk result
        (key_texts keys.new.items ≡
        key_texts keys.old.items ++ with_first (outline.key_of l.mark) [])) }
{
    match key_at(x, at) {
        Some(key) => {
            keys.push(key)?;
            Ok(())
        }
        None => Ok(()),
    }
}

/// The first of the lines from a place on that are deeper than a level whose key an earlier one of them
/// has; the place itself where there is none.
fn repeated_line(
    alloc: Global,
    x: Checked<'_, '_>,
    start: Position,
    floor: usize,
) -> Result<Position, AllocError>
    requires ready { IsChecked x }
    requires start { IsPosition x.rows.now x.document start }
{
    let mut known = BTreeMap::new(alloc);
    let mut at = start;
    'lines: while is_line_deeper(x.rows, x.document, at, floor) {
        if let Some(key) = line_key(x, at) {
            match known.insert(key, ()) {
                Ok(None) => {}
                Ok(Some(_)) => return Ok(at),
                Err(e) => return Err(e.into()),
            }
        }
        at = position_after(x.rows, x.document, at);
    }
    Ok(start)
}

/// A line of a collection and the lines under it: it is to be at the collection's level, to have no
/// head where lines are under it, and a head that is sound. The position after them.
#[cycle(sound)]
fn check_line<'a, 't>(
    x: Checked<'a, 't>,
    keys: &mut Keys<'a>,
    at: Reached<'a, 't>,
    n: usize,
    depth: usize,
) -> Result<Reached<'a, 't>, ReadError>
    requires ready { IsChecked x }
    requires at { IsReached x.decoded.now x.rows.now x.document at }
    requires line { IsLine x.rows.now x.document at.position }
    ensures sound { OfCheckedLine x.entry at.entry.position (λ ls num l. Decides result
        (spec.are_sound_under depth n l (part ls (num at.entry.position + 1) (outline.level l)))) }
    ensures reached { IfOk result (IsReached x.entry.decoded.now x.entry.rows.now x.entry.document) }
    ensures after { IfOk result (λ r.
        GivesEnd x.entry.rows.now x.entry.document at.entry.position r.position) }
    ensures kept { OnOk result (key_texts keys.new.items ≡ key_texts keys.old.items) }
    ensures fault { IfErr result IsOfText }
{
    let level = at.level;
    if level != n {
        return Err(ReadError::Fault(row_fault(x, at.position, misplaced(level, n))));
    }
    let after = line_after(x, at);
    if !is_deeper(x, after, n) {
        return match head_fault(*keys.allocator(), x, at, depth) {
            Ok(()) => Ok(after),
            Err(e) => Err(e),
        };
    }
    if has_head(x.rows, x.document, at.position) {
        return Err(ReadError::Fault(row_fault(x, after.position, FaultKind::BadIndent)));
    }
    check_lines(x, keys, after, n, depth)
}

/// The lines from a place on that are deeper than a level: they are to be the items or entries of one
/// collection, in which at most so many are nested, or one node. The position after them.
#[cycle(sound)]
pub(crate) fn check_lines<'a, 't>(
    x: Checked<'a, 't>,
    keys: &mut Keys<'a>,
    start: Reached<'a, 't>,
    floor: usize,
    depth: usize,
) -> Result<Reached<'a, 't>, ReadError>
    requires ready { IsChecked x }
    requires start { IsReached x.decoded.now x.rows.now x.document start }
    ensures sound { OfChecked x.entry (λ ls n. Decides result
        (spec.is_sound_outline depth (part ls (n start.entry.position) floor))) }
    ensures reached { IfOk result (IsReached x.entry.decoded.now x.entry.rows.now x.entry.document) }
    ensures after { IfOk result (λ r.
        GivesStop x.entry.rows.now x.entry.document start.entry.position floor r.position) }
    ensures kept { OnOk result (key_texts keys.new.items ≡ key_texts keys.old.items) }
    ensures fault { IfErr result IsOfText }
{
    if !is_deeper(x, start, floor) {
        return Ok(start);
    }
    if is_bare(x, start) {
        return check_bare(*keys.allocator(), x, start, floor, depth);
    }
    if depth == 0 {
        return Err(ReadError::Fault(row_fault(x, start.position, FaultKind::TooDeep)));
    }
    let others = keys.len();
    let mut at = start;
    'lines: while is_deeper(x, at, floor) {
        push_key(keys, x, at)?;
        at = match check_line(x, keys, at, start.level, depth - 1) {
            Ok(after) => after,
            Err(e) => return Err(e),
        };
    }
    if !take_distinct(keys, others) {
        let line = repeated_line(*keys.allocator(), x, start.position, floor)?;
        return Err(ReadError::Fault(row_fault(x, line, FaultKind::DuplicateKey)));
    }
    Ok(at)
}
