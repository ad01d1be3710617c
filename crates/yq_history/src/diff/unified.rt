//! The diff of two texts.
ghost use Rattle.std.specs.Prelude.{◌<◌, ◌^◌, IfOk, length, string_bytes};
ghost use Rattle.yq_history.specs.Unified.{IsPrintedDiff};

use crate::diff::name::push_names;
use crate::diff::open::push_hunks;
use crate::diff::parts::parts_of;
use crate::diff::region::regions_of;
use crate::diff::step::steps_of;
use std::alloc::{AllocError, Global};
use yq_text::Splice;

/// A diff of a file's old text and its new one, with three lines around each change. The splices say where
/// the texts differ, done in order on the old one; whatever they are, the diff is one of these texts.
pub fn unified_diff(
    alloc: Global,
    name: &str,
    old: &str,
    new: &str,
    splices: &[Splice],
) -> Result<String, AllocError>
    ensures { IfOk result (λ s. IsPrintedDiff name.now old.now new.now (string_bytes s)) }
{
    let mut printed = String::new(alloc);
    if old == new {
        return Ok(printed);
    }
    let regions = regions_of(alloc, splices)?;
    let steps = steps_of(alloc, old.as_bytes(), new.as_bytes(), &regions)?;
    let parts = parts_of(alloc, old, new, &steps)?;
    push_names(alloc, &mut printed, name)?;
    push_hunks(alloc, &mut printed, &parts)?;
    Ok(printed)
}
