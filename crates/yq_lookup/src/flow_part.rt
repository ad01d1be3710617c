//! Items and entries of flow collections at paths, each read without the trees of what is around it.
ghost use Rattle.std.specs.Prelude.{IfOk, map};
ghost use Rattle.yq_core.specs.Entries.{tree_step};
ghost use Rattle.yq_lookup.specs.PartNodes as spec;

use crate::cut_text::CutText;
use crate::node_at::FoundNode;
use std::alloc::{AllocError, Global};
use yq_core::Step;
use yq_inline::{NodeAlong, read_part};

impl<'t> CutText<'_, 't> {
    /// The node of the item or entry to which a step leads in the flow collection at a path of document `doc`, counted
    /// from 0, if there is one, and how many bytes come before it.
    pub fn flow_part(
        &self,
        alloc: Global,
        doc: usize,
        steps: &[Step],
        last: &Step,
    ) -> Result<Option<(NodeAlong<'t>, usize)>, AllocError>
        ensures { IfOk result (spec.FindsPart self.now doc (map tree_step steps.now)
            (tree_step last.now)) }
    {
        let above = self.node_found(alloc, doc, steps)?;
        let FoundNode::InFlow(front, start, left) = above else {
            return Ok(None);
        };
        let Some(found) = read_part(alloc, front, left, last)? else {
            return Ok(None);
        };
        let before = start + (front.text.len() - found.text.len());
        Ok(Some((found, before)))
    }
}
