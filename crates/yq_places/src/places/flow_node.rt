//! Flow collections at paths, with their places.
ghost use Rattle.std.specs.Prelude.{◌≡◌, map, option_map};
ghost use Rattle.yq_core.{specs.Entries.tree_step, specs.View.inline_view};
ghost use Rattle.yq_places.specs.FlowViews as spec;

use yq_core::{Form, Inline, Step};

/// The node in the head of a line, and the steps that lead in it to a flow collection.
#[derive(Drop)]
pub struct FlowHead<'s, 't> {
    /// The node, with the places of its parts in the text that begins with it.
    pub node: Box<Inline<'t>>,
    /// The steps.
    pub left: &'s [Step],
    /// The text that begins with the node: a piece of the text that was read.
    pub text: &'t str,
    /// How many bytes of that come before the piece.
    pub before: usize,
}

/// The flow collection to which steps lead in a node.
pub fn collection_along<'d, 't>(node: &'d Inline<'t>, steps: &[Step]) -> Option<&'d Inline<'t>>
    ensures { option_map (λ n. spec.following_anchor (inline_view n.now)) result ≡
        spec.collection_along (map tree_step steps.now) (inline_view node.now) }
{
    let entry = node.entry(steps)?;
    match &entry.node.form {
        Form::List(_) | Form::Map(_) => Some(entry.node),
        Form::Empty | Form::Alias(_) | Form::Scalar(..) => None,
    }
}
