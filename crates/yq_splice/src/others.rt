//! What operations give of which the first ones were carried out together, with those that are left.
ghost use Rattle.std.specs.Prelude.{◌≤◌, length, IfErr, IfOk, IfSome};
ghost use Rattle.yq_semantics.specs.Operations.{operations_of};
ghost use Rattle.yq_edit_laws.{specs.Answers.{Edits, EditFails}, specs.Valid.AreServed};
ghost use Rattle.yq_batch.specs.Together.{CarriesTogether, all_of};
ghost use Rattle.yq_splice.specs.Others as runs;
ghost use Rattle.yq_edit_laws.specs.Carried as spec;

use crate::carrying::{carry, carry_all, cut_again, edited_after};
use crate::session::Session;
use std::alloc::Global;
use yq_batch::{Together, carry_together};
use yq_lookup::CutText;
use yq_semantics::{ExprError, Op};
use yq_text::Edited;

/// A text is cut again for operations that are left, where more than the last of so many of those before were carried
/// out together.
const WORTH: usize = 16;

/// Whether so many operations that are left are few enough, of this number before.
pub(crate) fn is_worth(before: usize, left: usize) -> bool {
    left < before && before - left > before / WORTH + 1
}

/// What operations that were carried out together give, with the one that is left.
fn with_last(alloc: Global, together: Together<'_>) -> Result<Edited, ExprError>
    requires few { length together.left.now ≤ 1 }
    requires serves { runs.LeftAreServed together }
    ensures { Edits result (all_of together.entry) }
{
    let Together { edited, left } = together;
    let [op, ..] = left else {
        return Ok(edited);
    };
    let Edited { text, splices } = edited;
    let last = carry(alloc, text.as_str(), op)?;
    Ok(edited_after(splices, last)?)
}

/// What operations that were carried out together give with the next one of those that are left.
fn with_next<'o>(alloc: Global, together: Together<'o>) -> Result<Together<'o>, ExprError>
    requires some { 1 ≤ length together.left.now }
    requires serves { runs.LeftAreServed together }
    ensures ok { IfOk result (λ x. runs.CarriesMore together.entry x) }
    ensures err { IfErr result (λ e. EditFails e (all_of together.entry)) }
{
    let Together { edited, left } = together;
    let [op, after @ ..] = left else {
        return Ok(Together { edited, left });
    };
    let Edited { text, splices } = edited;
    let next = carry(alloc, text.as_str(), op)?;
    let edited = edited_after(splices, next)?;
    Ok(Together {
        edited,
        left: after,
    })
}

/// The first ones of some operations on a text that is cut again, if they are carried out together.
fn together_again<'o>(
    alloc: Global,
    text: &str,
    ops: &'o [Op],
) -> Result<Option<Together<'o>>, ExprError>
    requires { AreServed (operations_of ops.now) text.now }
    ensures ok { IfOk result (CarriesTogether ops.now text.now) }
    ensures shorter { IfOk result (λ o. IfSome o (λ x. length x.left.now ≤ length ops.now)) }
    ensures err { IfErr result (λ e. EditFails e (spec.carry_all (operations_of ops.now)
        text.now)) }
{
    let rows = cut_again(alloc, text)?;
    let found = carry_together(alloc, &CutText::new(text, &rows), ops)?;
    let Some(together) = found else {
        return Ok(None);
    };
    if together.left.len() > ops.len() {
        return Ok(None);
    }
    Ok(Some(together))
}

/// What operations that were carried out together give with the next one of those that are left, and with those
/// after it that are carried out together.
fn with_more<'o>(alloc: Global, together: Together<'o>) -> Result<Together<'o>, ExprError>
    requires some { 1 ≤ length together.left.now }
    requires serves { runs.LeftAreServed together }
    ensures ok { IfOk result (λ x. runs.CarriesMore together.entry x) }
    ensures err { IfErr result (λ e. EditFails e (all_of together.entry)) }
{
    let next = with_next(alloc, together)?;
    let found = together_again(alloc, next.edited.text.as_str(), next.left)?;
    let Some(more) = found else {
        return Ok(next);
    };
    let Together { edited: before, .. } = next;
    let Edited { splices, .. } = before;
    let Together { edited, left } = more;
    let edited = edited_after(splices, edited)?;
    Ok(Together { edited, left })
}

/// What operations that were carried out together give with those that are left, one by one.
fn with_each(alloc: Global, together: Together<'_>) -> Result<Edited, ExprError>
    requires { runs.LeftAreServed together }
    ensures { Edits result (all_of together.entry) }
{
    if together.left.len() <= 1 {
        return with_last(alloc, together);
    }
    let Together { edited, left } = together;
    let Edited { text, splices } = edited;
    let rows = cut_again(alloc, text.as_str())?;
    let places = rows.into_places();
    carry_all(Session::of(alloc, text, places), splices, left)
}

/// What so many operations give, of which the first ones were carried out together, with those that are left:
/// in runs, as long as these are worth it, and then one by one.
pub(crate) fn with_others(
    alloc: Global,
    count: usize,
    together: Together<'_>,
) -> Result<Edited, ExprError>
    requires { runs.LeftAreServed together }
    ensures { Edits result (all_of together.entry) }
{
    let mut before = count;
    let mut together = together;
    'runs: while together.left.len() > 1 && is_worth(before, together.left.len()) {
        before = together.left.len();
        together = with_more(alloc, together)?;
    }
    with_each(alloc, together)
}
