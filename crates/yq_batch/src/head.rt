//! Heads in which operations are carried out together.
ghost use Rattle.std.specs.Prelude.{◌≡◌, map, IfOk, IfSome};
ghost use Rattle.yq_core.specs.Entries.{tree_step};
ghost use Rattle.yq_text.specs.Halves.{whole};
ghost use Rattle.yq_row_table.specs.Rows.{cut_text};
ghost use Rattle.yq_batch.specs.HeadPaths.{IsFoundFor};
ghost use Rattle.yq_batch.specs.Runs as spec;

use crate::change::steps_on;
use std::alloc::{AllocError, Global};
use yq_core::Step;
use yq_edit_laws::last_step;
use yq_lookup::CutText;
use yq_places::FlowHead;
use yq_semantics::Op;
use yq_text::Halves;

/// A head in which operations are carried out together, in a document of a text that was read once.
#[derive(Drop)]
pub(crate) struct HeadInText<'c, 'd, 't, 's, 'l, 'u> {
    pub(crate) cut: &'c CutText<'d, 't>,
    pub(crate) doc: usize,
    /// The steps that lead to the head.
    pub(crate) stem: &'s [Step],
    pub(crate) head: FlowHead<'l, 'u>,
}

/// A head with the steps that lead to it in a document.
#[derive(Drop)]
pub(crate) struct FoundHead<'s, 't> {
    pub(crate) doc: usize,
    pub(crate) stem: &'s [Step],
    pub(crate) head: FlowHead<'s, 't>,
}

/// The text in which a head is.
pub(crate) fn text_around<'t>(at: &HeadInText<'_, '_, 't, '_, '_, '_>) -> Halves<'t>
    ensures { whole result ≡ cut_text (spec.cut_with at.now) }
{
    at.cut.text()
}

/// The document and the steps of the collection that an operation may change in a head, if it is one that
/// is carried out with others.
fn changed_collection(op: &Op) -> Option<(usize, &[Step])> {
    match op {
        Op::Replace(path, _) | Op::Remove(path) => match last_step(&path.steps) {
            Some((above, _)) => Some((path.doc, above)),
            None => None,
        },
        Op::Append(path, _, _) => Some((path.doc, path.steps.as_slice())),
        Op::LineComment(_, _) | Op::HeadComment(_, _) => None,
    }
}

/// Whether an operation may change a collection of a head.
pub(crate) fn is_in_head(op: &Op, doc: usize, stem: &[Step]) -> bool {
    match changed_collection(op) {
        Some((other, steps)) => other == doc && steps_on(steps, stem).is_some(),
        None => false,
    }
}

/// The head of the flow collection to which steps lead in a document, if one is there.
pub(crate) fn head_at<'s, 't>(
    alloc: Global,
    cut: &CutText<'_, 't>,
    doc: usize,
    steps: &'s [Step],
) -> Result<Option<FoundHead<'s, 't>>, AllocError>
    ensures head { IfOk result (λ o. IfSome o (spec.IsFoundHead cut.now)) }
    ensures leads { IfOk result (λ o. IfSome o (IsFoundFor doc (map tree_step steps.now))) }
{
    let Some(head) = cut.flow_head(alloc, doc, steps)? else {
        return Ok(None);
    };
    let (stem, _) = steps.split_at(steps.len() - head.left.len());
    Ok(Some(FoundHead { doc, stem, head }))
}

/// The head of which an operation changes a collection, if it does.
pub(crate) fn head_for<'s, 't>(
    alloc: Global,
    cut: &CutText<'_, 't>,
    op: &'s Op,
) -> Result<Option<FoundHead<'s, 't>>, AllocError>
    ensures { IfOk result (λ o. IfSome o (spec.IsFoundHead cut.now)) }
{
    let Some((doc, steps)) = changed_collection(op) else {
        return Ok(None);
    };
    head_at(alloc, cut, doc, steps)
}
