//! What an operation exchanges in a text, by its kind and by what is at its place.
ghost use Rattle.std.specs.Prelude.{◌≡◌, ◌∷◌, IfOk, [], Some, None, if◌then◌else◌};
ghost use Rattle.yq_core.specs.Values.{value_node};
ghost use Rattle.yq_outline.specs.Bodies.{borrowed};
ghost use Rattle.yq_row_table.specs.Rows.{cut_text};
ghost use Rattle.yq_documents.{specs.Located.steps_of, specs.Reading.cut_of};
ghost use Rattle.yq_places.{specs.NodesAt.node_in, specs.Placements.last_step};
ghost use Rattle.yq_semantics.specs.Operations.{operation_of};
ghost use Rattle.yq_text.specs.Script.{keep};
ghost use Rattle.yq_edit_laws.specs.Emptying.{IsNodeAbove};
ghost use Rattle.yq_edit_rules.{specs.Answers.GivesSegments, specs.Replacing.keeps_scalar as is_kept_there};
ghost use Rattle.yq_edit_rules.specs.ReplaceEdits.{value_put_at as value_put_there};
ghost use Rattle.yq_edit_rules.specs.Edits as spec;

use std::alloc::{AllocError, Global};
use yq_block_edits::{
    head_comment_at, is_kept, line_comment_at, more_at, one_removed, value_put_at,
};
use yq_core::Value;
use yq_documents::Path;
use yq_edit_laws::{append_in_flow, emptying, last_step, put_in_flow, remove_or_read, unchanged};
use yq_lookup::{CutText, NodeAt};
use yq_semantics::Op;
use yq_text::Segments;

/// Segments that put a value at a path, unless an equal scalar is there: then all bytes stay.
#[tactic(auto, using(crate::proofs::ChoiceLaws::chosen, crate::proofs::ChoiceLaws::not_chosen))]
fn unless_kept<'d>(
    alloc: Global,
    cut: &CutText<'_, 'd>,
    path: &Path,
    value: &Value,
    segments: Option<Segments<'d>>,
) -> Result<Option<Segments<'d>>, AllocError>
    ensures { GivesSegments result (if is_kept_there (node_in path.now.doc (steps_of path.now)
        (cut_of cut.now)) (value_node value.now) then Some (keep (cut_text (cut_of cut.now)) ∷ [])
        else segments.entry) }
{
    let stays = is_kept(alloc, cut, path, value)?;
    if stays {
        return Ok(Some(unchanged(alloc, cut)?));
    }
    Ok(segments)
}

/// A value put in a flow collection, whose row's head is read once; where nothing is at the path
/// outside flow collections.
fn replaced_inside<'d>(
    alloc: Global,
    cut: &CutText<'_, 'd>,
    path: &Path,
    value: &Value,
) -> Result<Option<Segments<'d>>, AllocError>
    ensures { value_put_there path.now.doc (steps_of path.now) (value_node value.now)
        (cut_of cut.now) ≡ None →
        GivesSegments result (spec.replace_segments path.now.doc (steps_of path.now)
        (value_node value.now) (cut_of cut.now)) }
{
    let inside = put_in_flow(alloc, cut, path, value)?;
    let Some(segments) = inside else {
        return unless_kept(alloc, cut, path, value, None);
    };
    Ok(Some(segments))
}

/// A value put in the place of the node at a path; an equal scalar leaves the bytes alone.
fn replaced<'d>(
    alloc: Global,
    cut: &CutText<'_, 'd>,
    path: &Path,
    value: &Value,
) -> Result<Option<Segments<'d>>, AllocError>
    ensures { GivesSegments result (spec.replace_segments path.now.doc (steps_of path.now)
        (value_node value.now) (cut_of cut.now)) }
{
    let outside = value_put_at(alloc, cut, path, value)?;
    let Some(segments) = outside else {
        return replaced_inside(alloc, cut, path, value);
    };
    unless_kept(alloc, cut, path, value, Some(segments))
}

/// One more item or entry at the end of the collection at a path.
#[tactic(auto, using(crate::proofs::ChoiceLaws::first_is, crate::proofs::ChoiceLaws::second_is))]
fn appended<'d>(
    alloc: Global,
    cut: &CutText<'_, 'd>,
    path: &Path,
    key: Option<&str>,
    value: &Value,
) -> Result<Option<Segments<'d>>, AllocError>
    ensures { GivesSegments result (spec.appended path.now.doc (steps_of path.now) (borrowed key.entry)
        (value_node value.now) (cut_of cut.now)) }
{
    if let Some(segments) = more_at(alloc, cut, path, key, value)? {
        return Ok(Some(segments));
    }
    append_in_flow(alloc, cut, path, key, value)
}

/// A sole item or entry taken out of a collection of which this is known: an empty collection is put in the place of
/// its own.
fn sole_removed<'d>(
    alloc: Global,
    cut: &CutText<'_, 'd>,
    path: &Path,
    above: &NodeAt<'_>,
) -> Result<Option<Segments<'d>>, AllocError>
    requires { IsNodeAbove cut.now path.now above.now }
    ensures { GivesSegments result (spec.sole_removed path.now.doc (cut_of cut.now)
        (last_step (steps_of path.now))) }
{
    let Some((place, value)) = emptying(alloc, path, above)? else {
        return Ok(None);
    };
    replaced(alloc, cut, &place, &value)
}

/// One of several items or entries of a block collection of which this is known taken out, or a sole one of any.
fn rows_or_sole<'d>(
    alloc: Global,
    cut: &CutText<'_, 'd>,
    path: &Path,
    above: &NodeAt<'_>,
) -> Result<Option<Segments<'d>>, AllocError>
    requires { IsNodeAbove cut.now path.now above.now }
    ensures { GivesSegments result (spec.rows_or_sole path.now.doc (steps_of path.now)
        (cut_of cut.now)) }
{
    if above.has_several() {
        one_removed(alloc, cut, path)
    } else {
        sole_removed(alloc, cut, path, above)
    }
}

/// An item or entry taken out, by what is found above it.
#[tactic(auto, using(crate::proofs::ChoiceLaws::first_is, crate::proofs::ChoiceLaws::second_is))]
fn removed<'d>(
    alloc: Global,
    cut: &CutText<'_, 'd>,
    path: &Path,
) -> Result<Option<Segments<'d>>, AllocError>
    ensures { GivesSegments result (spec.removed path.now.doc (steps_of path.now) (cut_of cut.now)) }
{
    let Some((steps, _)) = last_step(&path.steps) else {
        return Ok(None);
    };
    let found = cut.node_found(alloc, path.doc, steps)?;
    let (inside, above) = remove_or_read(alloc, cut, path, found)?;
    if let Some(segments) = inside {
        return Ok(Some(segments));
    }
    match above {
        Some(above) => rows_or_sole(alloc, cut, path, &above),
        None => Ok(None),
    }
}

/// What an operation exchanges, if what it names is there.
fn edits<'d>(
    alloc: Global,
    cut: &CutText<'_, 'd>,
    op: &Op,
) -> Result<Option<Segments<'d>>, AllocError>
    ensures { GivesSegments result (spec.op_edits (operation_of op.now) (cut_of cut.now)) }
{
    match op {
        Op::Replace(path, value) => replaced(alloc, cut, path, value),
        Op::Append(path, key, value) => appended(alloc, cut, path, key.as_deref(), value),
        Op::Remove(path) => removed(alloc, cut, path),
        Op::LineComment(path, text) => line_comment_at(alloc, cut, path, text),
        Op::HeadComment(path, text) => head_comment_at(alloc, cut, path, text),
    }
}

/// The segments of a text by which an operation is carried out on its documents. One that fits them
/// has what it exchanges; by any other the text stays.
pub fn op_segments<'d>(
    alloc: Global,
    cut: &CutText<'_, 'd>,
    op: &Op,
) -> Result<Segments<'d>, AllocError>
    ensures { IfOk result (λ ss. ss ≡
        spec.or_stay (cut_of cut.now) (spec.op_edits (operation_of op.now) (cut_of cut.now))) }
{
    match edits(alloc, cut, op)? {
        Some(segments) => Ok(segments),
        None => unchanged(alloc, cut),
    }
}
