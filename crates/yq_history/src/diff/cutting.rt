//! The next step through two texts, if both have it.
ghost use Rattle.yq_history.specs.DiffParts.{CutsInto};
ghost use Rattle.std.specs.Prelude.{IfSome};

use crate::diff::lines::split_lines;
use crate::diff::step::Step;

/// Lines that are in both texts, then lines that are in the old one and lines that are in the new one alone,
/// and what follows in either.
#[derive(Clone, Copy)]
pub(crate) struct Cut<'a> {
    pub(crate) kept: &'a str,
    pub(crate) gone: &'a str,
    pub(crate) come: &'a str,
    pub(crate) old: &'a str,
    pub(crate) new: &'a str,
}

/// What a step cuts of two texts.
pub(crate) fn next_cut<'a>(old: &'a str, new: &'a str, step: Step) -> Option<Cut<'a>>
    ensures old { IfSome result (λ c. CutsInto old.now c.kept.now c.gone.now c.old.now) }
    ensures new { IfSome result (λ c. CutsInto new.now c.kept.now c.come.now c.new.now) }
{
    let (kept, old) = split_lines(old, step.kept)?;
    let (new_kept, new) = split_lines(new, step.kept)?;
    if kept != new_kept {
        return None;
    }
    let (gone, old) = split_lines(old, step.gone)?;
    let (come, new) = split_lines(new, step.come)?;
    Some(Cut {
        kept,
        gone,
        come,
        old,
        new,
    })
}
