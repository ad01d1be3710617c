//! Places to which steps lead. Paths share their fronts in an arena, so that a
//! place takes one link, however deep it lies.
ghost use Rattle.std.specs.Prelude.{◌≡◌, ◌++◌, ◌∷◌, [], IfOk};
ghost use Rattle.yq_nodes.specs.Nodes.{label_of, node_of};
ghost use Rattle.yq_eval.specs.PlaceView.{missing_of, node_step_of, node_or_null, place_of, places_of};
ghost use Rattle.yq_eval.specs.PlaceAnswers.{IsChildPlace, IsFurther, PutsPlaces, child_after};
ghost use Rattle.yq_semantics.specs.View.{program_step};
ghost use Rattle.yq_semantics.specs.Conditions as conditions;
ghost use Rattle.yq_semantics.specs.Places as spec;

use std::alloc::{AllocError, Global};
use yq_nodes::Node;
use yq_semantics::PathStep;

/// A step to a node of a document.
#[derive(Clone, Copy)]
pub enum NodeStep<'a> {
    /// To the value of a key.
    Key(&'a str),
    /// To an item, counted from 0.
    Index(usize),
}

/// The path from a root to a node.
#[derive(Clone, Copy)]
pub enum NodePath<'a> {
    Root,
    /// One step further than another path.
    Below(&'a NodePath<'a>, NodeStep<'a>),
}

/// Steps that are missing.
#[derive(Clone, Copy)]
pub enum Missing<'a> {
    Nothing,
    /// One step further than others.
    Further(&'a Missing<'a>, &'a PathStep),
}

/// A place: the last node on the way, its path, and the steps that are missing
/// from there.
#[derive(Clone, Copy)]
pub struct FoundPlace<'a, 't> {
    pub path: NodePath<'a>,
    pub node: Node<'a, 't>,
    pub missing: Missing<'a>,
}

impl<'a> Missing<'a> {
    /// One step more than these.
    fn after(front: &'a Missing<'a>, step: &'a PathStep) -> Missing<'a>
        ensures { missing_of result ≡ missing_of front.now ++ program_step step.now ∷ [] }
    {
        Missing::Further(front, step)
    }
}

/// The step to an item or entry before which so many are.
pub fn step_to<'a>(child: &Node<'a, '_>, before: usize) -> NodeStep<'a>
    ensures { node_step_of result ≡ spec.step_by before (label_of child.now).key }
{
    match child.key() {
        Some(key) => NodeStep::Key(key),
        None => NodeStep::Index(before),
    }
}

impl<'a, 't> FoundPlace<'a, 't> {
    /// The place of a root.
    pub fn of_root(node: &Node<'a, 't>) -> FoundPlace<'a, 't>
        ensures { place_of result ≡ spec.root_place (node_of node.now) }
    {
        FoundPlace {
            path: NodePath::Root,
            node: *node,
            missing: Missing::Nothing,
        }
    }

    /// The place of a node one step below a path.
    pub(crate) fn below(
        path: &'a NodePath<'a>,
        step: NodeStep<'a>,
        node: &Node<'a, 't>,
    ) -> FoundPlace<'a, 't>
        ensures { IsChildPlace path.now result (node_step_of step.entry, node_of node.now) }
    {
        FoundPlace {
            path: NodePath::Below(path, step),
            node: *node,
            missing: Missing::Nothing,
        }
    }

    /// The place of an item or entry one step below a path, before which so many are.
    pub fn nth_below(
        path: &'a NodePath<'a>,
        before: usize,
        child: &Node<'a, 't>,
    ) -> FoundPlace<'a, 't>
        ensures { IsChildPlace path.now result (child_after before child.now) }
    {
        FoundPlace::below(path, step_to(child, before), child)
    }

    /// The place from which one more step is missing than these, which are missing from here.
    pub(crate) fn further(&self, front: &'a Missing<'a>, step: &'a PathStep) -> FoundPlace<'a, 't>
        ensures { IsFurther front.now self.now step.now result }
    {
        FoundPlace {
            path: self.path,
            node: self.node,
            missing: Missing::after(front, step),
        }
    }

    /// The node there, or none where a step is missing: it is null there.
    pub fn found(&self) -> Option<&Node<'a, 't>>
        ensures { node_or_null result ≡ conditions.value_of (place_of self.now) }
    {
        match self.missing {
            Missing::Nothing => Some(&self.node),
            Missing::Further(..) => None,
        }
    }

    /// This place alone.
    pub fn alone(&self, alloc: Global) -> Result<Vec<FoundPlace<'a, 't>>, AllocError>
        ensures { IfOk result (λ v. places_of v.items ≡ place_of self.now ∷ []) }
    {
        Ok(vec![in alloc; *self]?)
    }

    /// Puts this place after others.
    #[inline(always)]
    pub(crate) fn put(&self, places: &mut Vec<FoundPlace<'a, 't>>) -> Result<(), AllocError>
        ensures { PutsPlaces result places.old places.new (place_of self.now ∷ []) }
    {
        places.push(*self)?;
        Ok(())
    }
}
