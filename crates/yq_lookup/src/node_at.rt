//! What the nodes at paths are, each read from its rows; the flow collections there; and the heads of rows.
ghost use Rattle.std.specs.Prelude.{◌≡◌, ◌<◌, length, map, option_and_then, option_map, slice_get, true, IfOk, IfSome, Some};
ghost use Rattle.yq_core.specs.Entries.{tree_step};
ghost use Rattle.yq_row_table.{specs.Rows.Row as RowOf, specs.View.rows_of};
ghost use Rattle.yq_documents.{specs.Located.steps_of, specs.Reading.{content_is_fit, cut_of}};
ghost use Rattle.yq_places.{specs.FlowNodes.flow_collection, specs.HeadReading.IsRowHead};
ghost use Rattle.yq_places.specs.FlowViews as flows;
ghost use Rattle.yq_places.specs.NodesAt as spec;
ghost use Rattle.yq_lookup.specs.RowFronts as fronts;

use crate::cut_text::CutText;
use std::alloc::{AllocError, Global};
use yq_core::{Kind, Step};
use yq_documents::Path;
use yq_inline::{LeadingNode, read_along};
use yq_outline::{Head, ScalarContent};
use yq_places::{FlowHead, NodeAt, block_node, head_node, is_text, node_place, place_line};
use yq_row_heads::row_head;
use yq_row_walk::head_place;

/// The node at a path.
#[derive(Drop)]
pub enum FoundNode<'s, 't> {
    /// In the node in front of a text, which isn't read yet: how many bytes come before that, and the steps that lead
    /// on in it.
    InFlow(LeadingNode<'t>, usize, &'s [Step]),
    /// Outside flow collections: what it is, if there is one.
    Outside(Option<NodeAt<'t>>),
}

/// What the node is to which steps lead in the node in front of a text, read alone.
fn front_node<'t>(
    alloc: Global,
    front: LeadingNode<'t>,
    steps: &[Step],
) -> Result<Option<NodeAt<'t>>, AllocError>
    ensures { IfOk result (fronts.IsNodeAlong (map tree_step steps.now) front.entry) }
{
    let found = read_along(alloc, front, steps)?;
    let Some(found) = found else {
        return Ok(None);
    };
    let node = Box::new(alloc, found.node)?;
    head_node(alloc, Head::Inline(node), &[])
}

impl<'t> FoundNode<'_, 't> {
    /// What it is, if there is one.
    pub fn read(self, alloc: Global) -> Result<Option<NodeAt<'t>>, AllocError>
        ensures { IfOk result (λ o. option_map spec.node_view o ≡ fronts.found_summary self.entry) }
    {
        match self {
            FoundNode::InFlow(front, _, left) => front_node(alloc, front, left),
            FoundNode::Outside(node) => Ok(node),
        }
    }
}

impl<'t> CutText<'_, 't> {
    /// Where the node at a path of document `doc`, counted from 0, is, and what it is outside flow collections.
    pub fn node_found<'s>(
        &self,
        alloc: Global,
        doc: usize,
        steps: &'s [Step],
    ) -> Result<FoundNode<'s, 't>, AllocError>
        ensures { IfOk result (fronts.IsFoundNode self.now doc (map tree_step steps.now)) }
    {
        let Some(walk) = self.walk(doc) else {
            return Ok(FoundNode::Outside(None));
        };
        let Some((place, left)) = node_place(&walk, steps) else {
            return Ok(FoundNode::Outside(None));
        };
        let Some(at) = place_line(&walk, place) else {
            let node: Option<NodeAt<'t>> = block_node(&walk, place);
            return Ok(FoundNode::Outside(node));
        };
        match self.row_front(at.row) {
            Some((front, before)) => Ok(FoundNode::InFlow(front, before, left)),
            None => {
                let (head, _, _) = self.row_head(alloc, at.row)?;
                let node: Option<NodeAt<'t>> = head_node(alloc, head, left)?;
                Ok(FoundNode::Outside(node))
            }
        }
    }

    /// What the node at a path of document `doc`, counted from 0, is.
    pub fn node_at(
        &self,
        alloc: Global,
        doc: usize,
        steps: &[Step],
    ) -> Result<Option<NodeAt<'t>>, AllocError>
        ensures { IfOk result (λ o. option_map spec.node_view o ≡
            option_map spec.node_summary (spec.node_in doc (map tree_step steps.now)
            (cut_of self.now))) }
    {
        let found = self.node_found(alloc, doc, steps)?;
        found.read(alloc)
    }

    /// The scalar at a path, if one is there.
    pub fn scalar_at(
        &self,
        alloc: Global,
        path: &Path,
    ) -> Result<Option<(Kind, ScalarContent<'t>)>, AllocError>
        ensures { IfOk result (λ o. option_map spec.scalar_view o ≡
            option_and_then spec.scalar_in (spec.node_in path.now.doc (steps_of path.now)
            (cut_of self.now))) }
    {
        match self.node_at(alloc, path.doc, &path.steps)? {
            Some(node) => Ok(node.scalar()),
            None => Ok(None),
        }
    }

    /// The node in the head of a line, and the steps that lead in it to the flow collection at a path
    /// of document `doc`, counted from 0, if there is one.
    pub fn flow_head<'s>(
        &self,
        alloc: Global,
        doc: usize,
        steps: &'s [Step],
    ) -> Result<Option<FlowHead<'s, 't>>, AllocError>
        ensures found { IfOk result (flows.FlowAgrees self.now (flow_collection doc
            (map tree_step steps.now) (cut_of self.now))) }
        ensures whole { IfOk result (λ o. IfSome o (flows.IsHeadFor self.now (cut_of self.now) doc
            (map tree_step steps.now))) }
    {
        is_text(self.text);
        let Some(walk) = self.walk(doc) else {
            return Ok(None);
        };
        let Some((place, left)) = node_place(&walk, steps) else {
            return Ok(None);
        };
        let Some(at) = place_line(&walk, place) else {
            return Ok(None);
        };
        let (head, text, before) = self.row_head(alloc, at.row)?;
        match head {
            Head::Nothing => Ok(None),
            Head::Scalar(..) => Ok(None),
            Head::Inline(node) => Ok(Some(FlowHead {
                node,
                left,
                text,
                before,
            })),
        }
    }

    /// The head of row `i`, in which keys are fit, the text from it to the end of the row, and how many
    /// bytes come before it.
    pub(crate) fn row_head(
        &self,
        alloc: Global,
        i: usize,
    ) -> Result<(Head<'t>, &'t str, usize), AllocError>
        requires within { i < length (rows_of (cut_of self.now)) }
        requires fit { (r : RowOf) → slice_get (rows_of (cut_of self.now)) i ≡ Some r →
            content_is_fit r.content ≡ true }
        ensures { (r : RowOf) → slice_get (rows_of (cut_of self.now)) i ≡ Some r →
            IfOk result (λ x. IsRowHead i r (cut_of self.now) x.0 x.1.now x.2) }
    {
        let row = self.rows.row(i);
        let (start, _) = head_place(self.rows, i);
        let text = self.rows.from_head(i);
        Ok((row_head(alloc, text, &row, text)?, text, start))
    }
}
