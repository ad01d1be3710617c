//! Items and entries that an update takes out of block collections with their lines, one before the other: they are
//! carried out together, on the rows as they were read.
ghost use Rattle.std.specs.Prelude.{◌≡◌, true, map, option_map, IfErr, IfOk, IfSome, IsTrue, None};
ghost use Rattle.yq_core.specs.Entries.{tree_step};
ghost use Rattle.yq_text.specs.TextGapBuffer.{buffer_text};
ghost use Rattle.yq_documents.{specs.Located.steps_of, specs.Reading.cut_of};
ghost use Rattle.yq_places.specs.RemovalReading.{seam_view};
ghost use Rattle.yq_semantics.{specs.Operations.operations_of, specs.Under.ops_under};
ghost use Rattle.yq_edit_laws.{specs.Answers.EditFails, specs.Carried.carry_all, specs.Theorems.IsFitting, specs.Valid.AreServed};
ghost use Rattle.yq_batch.{specs.Together.CarriesFirst, specs.Under.CarriesUnder};
ghost use Rattle.yq_batch.specs.RowRemovals as spec;

use crate::change::are_same_steps;
use crate::changed_rows::ChangedRows;
use crate::emptied_rows::empty_rows;
use crate::removals::{RemovalRun, ended, exchange, untouched};
use crate::together::Together;
use crate::under::{go_to, lead_on, path_to, placed};
use std::alloc::Global;
use yq_core::lines::split_line;
use yq_core::{Step, ends_line, first_is, is_blank, spaces_len, without_spaces};
use yq_documents::Path;
use yq_edit_laws::last_step;
use yq_lookup::CutText;
use yq_places::{Seam, is_text};
use yq_semantics::{ExprError, Op};

/// Whether an operation takes an item or entry out of the collection at some steps.
pub(crate) fn takes_from(op: &Op, doc: usize, above: &[Step]) -> bool
    ensures { IsTrue result → spec.TakesFrom op.now doc (map tree_step above.now) }
{
    let Op::Remove(path) = op else {
        return false;
    };
    let Some((steps, _)) = last_step(&path.steps) else {
        return false;
    };
    if path.doc != doc {
        return false;
    }
    are_same_steps(steps, above)
}

/// The first of some operations, if it takes an item or entry out of a collection of a document, and whether the next
/// one takes another one out of that.
fn taken_first<'o>(ops: &'o [Op], doc: usize) -> Option<(&'o Op, bool)>
    ensures { IfSome result (λ x. spec.TakesFirst ops.now doc x.0.now x.1) }
{
    let [op, ..] = ops else {
        return None;
    };
    let Op::Remove(path) = op else {
        return None;
    };
    let Some((above, _)) = last_step(&path.steps) else {
        return None;
    };
    if path.doc != doc {
        return None;
    }
    let [_, next, ..] = ops else {
        return Some((op, false));
    };
    Some((op, takes_from(next, doc, above)))
}

/// Whether only spaces are in front of the break of a blank line, and no tab after the spaces in front of a
/// comment.
fn is_spaced(line: &[u8]) -> bool
    ensures { result ≡ spec.is_spaced line.now }
{
    let rest = without_spaces(line);
    if is_blank(line) {
        ends_line(rest)
    } else {
        !first_is(b'\t', rest)
    }
}

/// The least indentation of a block scalar after which lines stay as they are, as well as those after which
/// they stay from this one on; nothing, where there is none.
fn least_for(gap: &str, least: Option<usize>) -> Option<usize>
    ensures { spec.IsLeast least gap.now result }
{
    let mut found = least?;
    let mut rest = gap;
    'lines: while !rest.is_empty() {
        let (line, after) = split_line(rest);
        if !is_spaced(line.as_bytes()) {
            return None;
        }
        let spaces = spaces_len(line.as_bytes());
        if found <= spaces {
            found = spaces + 1;
        }
        rest = after;
    }
    Some(found)
}

/// Whether a gap stays as it is at a seam, if there is one, by the least indentation after which it does.
fn stays_at(seam: Option<Seam>, least: Option<usize>) -> bool
    ensures { result ≡ true → spec.StaysAt (option_map seam_view seam) least }
{
    let Some(seam) = seam else {
        return true;
    };
    match least {
        Some(0) => true,
        Some(least) => !seam.keeps && least <= seam.indent,
        None => false,
    }
}

/// Carries out the removal of an item or entry next to others on the text of a run, if its lines are before those that
/// were changed, and nothing else changes; and reports which rows are changed then.
fn take_rows(
    alloc: Global,
    cut: &CutText<'_, '_>,
    path: &Path,
    from: ChangedRows,
    run: &mut RemovalRun,
) -> Result<Option<ChangedRows>, ExprError>
    requires run { spec.RemovesRows (cut_of cut.now) path.now.doc from run.old }
    requires others { spec.HasOthersNow path.now.doc (steps_of path.now)
        (buffer_text run.old.text) }
    requires fits { IsFitting (spec.removal_of path.now) (buffer_text run.old.text) }
    ensures ok { IfOk result (λ o. spec.GoesOnWithout path.now (cut_of cut.now) run.old o run.new) }
    ensures stays { IfOk result (λ o. o ≡ None → run.new ≡ run.old) }
    ensures err { IfErr result (λ e. spec.FailsOn e (spec.removal_of path.now) run.old) }
{
    let _text = cut.text();
    let Some((gone, seam)) = cut.removal(path) else {
        return Ok(None);
    };
    let Some((_, first, stop)) = cut.own(path) else {
        return Ok(None);
    };
    let start = gone.before.len();
    let end = start + gone.lines.len();
    let next = least_for(gone.last, from.least);
    if end > run.keep || !stays_at(seam, next) {
        return Ok(None);
    }
    is_text(gone.before);
    is_text(gone.lines);
    exchange(alloc, run, start, end, "")?;
    let stop = from.stop_after(stop);
    Ok(Some(ChangedRows {
        least: next,
        first,
        stop,
    }))
}

/// The same of one at a path that is next to others, or of a sole one, in the place of whose collection an empty one comes.
fn take_out(
    alloc: Global,
    cut: &CutText<'_, '_>,
    taken: (&Path, bool),
    from: ChangedRows,
    run: &mut RemovalRun,
) -> Result<Option<ChangedRows>, ExprError>
    requires run { spec.RemovesRows (cut_of cut.now) taken.0.now.doc from run.old }
    requires others { spec.HasOthersIf taken.1 taken.0.now
        (buffer_text run.old.text) }
    requires fits { IsFitting (spec.removal_of taken.0.now) (buffer_text run.old.text) }
    ensures ok { IfOk result (spec.GoesOnAfter taken.entry.0.now (cut_of cut.now) run.old
        run.new) }
    ensures stays { IfOk result (λ o. o ≡ None → run.new ≡ run.old) }
    ensures err { IfErr result (λ e. spec.FailsOn e (spec.removal_of taken.entry.0.now) run.old) }
{
    let (path, beside) = taken;
    if beside {
        take_rows(alloc, cut, path, from, run)
    } else {
        empty_rows(alloc, cut, path, from, run)
    }
}

/// Carries out operations at and below a node that take items and entries out of block collections of a document with
/// their lines, one before the other, up to the first one that doesn't. First come the steps to the node.
pub(crate) fn remove_under<'d, 'o: 'd>(
    alloc: Global,
    cut: &CutText<'d, '_>,
    front: &[Step],
    doc: usize,
    ops: &'o [Op],
) -> Result<Together<'o>, ExprError>
    requires { AreServed (ops_under front.now ops.now) cut.now }
    ensures ok { IfOk result (CarriesUnder front.now ops.now cut.now) }
    ensures err { IfErr result (λ e. EditFails e
        (carry_all (ops_under front.now ops.now) cut.now)) }
{
    let mut way = cut.again();
    let mut run = untouched(alloc, cut.text())?;
    let mut path = path_to(alloc, front)?;
    let mut changed = ChangedRows {
        least: Some(0),
        first: usize::MAX,
        stop: usize::MAX,
    };
    let mut rest = ops;
    'operations: while let [_, after @ ..] = rest {
        let Some((op, beside)) = taken_first(rest, doc) else {
            return Ok(ended(run, rest));
        };
        lead_on(alloc, front, &mut path, op)?;
        let at = placed(front, &path, op);
        go_to(alloc, &mut way, at);
        let Some(next) = take_out(alloc, &way, (at.path, beside), changed, &mut run)? else {
            return Ok(ended(run, rest));
        };
        changed = next;
        rest = after;
    }
    Ok(ended(run, rest))
}

/// The same of operations with their paths from the root on.
#[tactic(auto, using(yq_semantics::proofs::UnderLaws::ops_whole, crate::proofs::UnderLaws::first_whole))]
pub(crate) fn remove_rows<'d, 'o: 'd>(
    alloc: Global,
    cut: &CutText<'d, '_>,
    doc: usize,
    ops: &'o [Op],
) -> Result<Together<'o>, ExprError>
    requires { AreServed (operations_of ops.now) cut.now }
    ensures ok { IfOk result (CarriesFirst ops.now cut.now) }
    ensures err { IfErr result (λ e. EditFails e (carry_all (operations_of ops.now) cut.now)) }
{
    remove_under(alloc, cut, &[], doc, ops)
}
