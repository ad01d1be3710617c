//! What an operation puts after a key or dash after which nothing is.
ghost use Rattle.std.specs.Prelude.{IfOk, IfSome};
ghost use Rattle.yq_core.specs.Values.{value_node};
ghost use Rattle.yq_documents.{specs.Located.steps_of, specs.Reading.cut_of};
ghost use Rattle.yq_places.specs.PlacementViews.{IsHeldRow};
ghost use Rattle.yq_semantics.specs.Operations.{replace};
ghost use Rattle.yq_edit_rules.specs.Operands.{HasOperand};
ghost use Rattle.yq_batch.specs.RowRuns as spec;

use crate::row_put::{RowPut, lone_written};
use crate::run::text_reads;
use std::alloc::{AllocError, Global};
use yq_core::Value;
use yq_documents::Path;
use yq_edit_rules::{after_a_space, is_filled};
use yq_lookup::CutText;
use yq_places::HeldRow;

/// What is written for a value on one line where nothing is; nothing, where it is the null that this means.
fn spaced_written(
    alloc: Global,
    cut: &CutText<'_, '_>,
    path: &Path,
    value: &Value,
) -> Result<Option<String>, AllocError>
    ensures { IfOk result (spec.IsSpacedThere path.now value.now cut.now) }
{
    let written = lone_written(alloc, cut, path, "", value)?;
    let Some(text) = written else {
        return Ok(None);
    };
    let spaced = after_a_space(alloc, &text)?;
    Ok(Some(spaced))
}

/// A value without items and entries after a key or dash, if nothing is after it, and nothing under it.
pub(crate) fn value_in_nothing(
    alloc: Global,
    cut: &CutText<'_, '_>,
    path: &Path,
    at: &HeldRow<'_>,
    value: &Value,
) -> Result<Option<RowPut>, AllocError>
    requires operand { HasOperand (replace path.now.doc (steps_of path.now)
        (value_node value.now)) }
    requires row { IsHeldRow path.now.doc (steps_of path.now) (cut_of cut.now) at.now }
    requires place { spec.IsBesideMark path.now cut.now }
    ensures { IfOk result (λ o. IfSome o (spec.PutsValue path.now value.now cut.now)) }
{
    if !at.head.is_empty() || is_filled(value) {
        return Ok(None);
    }
    text_reads(cut);
    let written = spaced_written(alloc, cut, path, value)?;
    Ok(Some(RowPut {
        doc: path.doc,
        first: at.row,
        row: at.row,
        start: at.start,
        end: at.start,
        written,
    }))
}
