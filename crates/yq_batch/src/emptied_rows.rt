//! The sole item or entry that is left of a block collection, taken out before those that were: an empty collection comes
//! in the place of its own.
ghost use Rattle.std.specs.Prelude.{◌≡◌, ◌+◌, [], false, length, map, IfErr, IfOk, IfSome, IsTrue, None};
ghost use Rattle.yq_core.{specs.Entries.tree_step, specs.Text.is_empty};
ghost use Rattle.yq_text.{specs.Halves.whole, specs.TextGapBuffer.buffer_text};
ghost use Rattle.yq_places.specs.PlacementViews.{held_view, lines_view};
ghost use Rattle.yq_documents.{specs.Located.steps_of, specs.Reading.cut_of};
ghost use Rattle.yq_edit_laws.specs.Theorems.{IsFitting};
ghost use Rattle.yq_batch.specs.EmptiedRows as empty;
ghost use Rattle.yq_batch.specs.RowRemovals as spec;

use crate::changed_rows::ChangedRows;
use crate::removals::{RemovalRun, exchange};
use std::alloc::Global;
use yq_core::Step;
use yq_documents::{Path, Span};
use yq_edit_laws::last_step;
use yq_lookup::{CutText, Held, LinesIn};
use yq_semantics::ExprError;
use yq_text::Halves;

/// An empty collection of the kind of the one in which a step leads to an item or entry, after a space.
fn emptied_text(step: &Step) -> &'static str
    ensures { result.now ≡ empty.emptied_text (tree_step step.now) }
{
    match step {
        Step::Key(_) => " {}",
        Step::Index(_) => " []",
    }
}

/// Whether nothing comes after a key or dash on its line, under which others are.
fn is_bare(held: &Held<'_>) -> bool
    ensures head { IsTrue result → held.now.head.now ≡ [] }
    ensures white { IsTrue result → held.now.white.now ≡ [] }
    ensures comment { IsTrue result → held.now.comment.now ≡ [] }
    ensures broken { IsTrue result → is_empty held.now.line_break.now ≡ false }
{
    held.head.is_empty()
        && held.white.is_empty()
        && held.comment.is_empty()
        && !held.line_break.is_empty()
}

/// How long a text in two halves is.
fn halves_len(text: Halves<'_>) -> Option<usize>
    ensures { IfSome result (λ n. n ≡ length (whole text.entry)) }
{
    text.front.len().checked_add(text.back.len())
}

/// Where the lines under a key or dash begin, with the break before them, and where they end, before their last break.
fn place_below(held: &Held<'_>) -> Option<Span>
    ensures { IfSome result (λ x. empty.IsPlaceBelow (held_view held.now) x.start x.end) }
{
    let before = halves_len(held.before)?;
    let start = before.checked_add(held.space.len())?;
    let lines = halves_len(held.lines)?;
    let broken = start.checked_add(held.line_break.len())?;
    let end = broken.checked_add(lines)?;
    Some(Span { start, end })
}

/// Where the lines end that are taken out of a text.
fn lines_end(gone: &LinesIn<'_>) -> Option<usize>
    ensures { IfSome result (λ n. n ≡ empty.lines_out (lines_view gone.now)) }
{
    let before = halves_len(gone.before)?;
    let lines = halves_len(gone.lines)?;
    before.checked_add(lines)
}

/// Where an empty collection comes, after the row of the key or dash of the collection: in the place of the sole item or
/// entry that is left of it, if nothing comes after that key or dash on its line, and if the item's lines are before
/// those that were changed.
fn sole_place(
    cut: &CutText<'_, '_>,
    path: &Path,
    above: &[Step],
    from: ChangedRows,
    keep: usize,
) -> Option<(usize, Span)>
    ensures { IfSome result (empty.IsLeftAlone path.now above.now (cut_of cut.now) from keep) }
{
    let (gone, _) = cut.removal(path)?;
    let own = cut.own(path)?;
    let found = cut.held_upto(path.doc, above, own.2)?;
    let end = lines_end(&gone)?;
    let place = place_below(&found.1)?;
    if end > keep {
        return None;
    }
    let rows = own.1.saturating_sub(found.0.row);
    if rows != 1 {
        return None;
    }
    let stop = from.stop_after(own.2);
    if found.0.end != stop {
        return None;
    }
    if !is_bare(&found.1) {
        return None;
    }
    let size = place.end.saturating_sub(place.start);
    if size < 3 {
        return None;
    }
    Some((found.0.row, place))
}

/// Carries out the removal of the sole item or entry that is left of a collection under a key or dash on the text of a
/// run, if its lines are before those that were changed, and nothing comes after that key or dash on its line; and
/// reports which rows are changed then.
pub(crate) fn empty_rows(
    alloc: Global,
    cut: &CutText<'_, '_>,
    path: &Path,
    from: ChangedRows,
    run: &mut RemovalRun,
) -> Result<Option<ChangedRows>, ExprError>
    requires run { spec.RemovesRows (cut_of cut.now) path.now.doc from run.old }
    requires fits { IsFitting (spec.removal_of path.now) (buffer_text run.old.text) }
    ensures ok { IfOk result (λ o. spec.GoesOnWithout path.now (cut_of cut.now) run.old o run.new) }
    ensures stays { IfOk result (λ o. o ≡ None → run.new ≡ run.old) }
    ensures err { IfErr result (λ e. spec.FailsOn e (spec.removal_of path.now) run.old) }
{
    let _text = cut.text();
    let Some((above, last)) = last_step(&path.steps) else {
        return Ok(None);
    };
    let Some((row, place)) = sole_place(cut, path, above, from, run.keep) else {
        return Ok(None);
    };
    exchange(alloc, run, place.start, place.end, emptied_text(last))?;
    Ok(Some(ChangedRows {
        least: Some(0),
        first: row,
        stop: row,
    }))
}
