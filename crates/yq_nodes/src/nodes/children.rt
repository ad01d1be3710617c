//! The items or entries of a node, one after the other.
ghost use Rattle.std.{specs.Iterator.at_most, specs.Prelude.{◌≡◌, ◌<◌, IfSome}};
ghost use Rattle.yq_core.{specs.Trees.placed_tree, specs.Tree.children_of};
ghost use Rattle.yq_nodes.specs.Nodes.{node_of};
ghost use Rattle.yq_core.specs.View as inline;
ghost use Rattle.yq_nodes.specs.Children as spec;

use crate::nodes::body::Body;
use crate::nodes::lines::has_lines;
use crate::nodes::node::Node;
use crate::nodes::under::Under;
use yq_core::{BorrowedNode, Form, Inline, Piece};
use yq_inline::{BorrowedForm, BorrowedParts, form_of};
use yq_row_walk::position_after;

/// What is left of the items or entries of a node.
#[derive(Clone, Copy)]
pub(crate) enum Rest<'d, 't> {
    /// None.
    Nothing,
    /// Those of these lines.
    Lines(Under<'d, 't>),
    /// Items of a flow sequence.
    Items(&'d [Inline<'t>]),
    /// Entries of a flow mapping.
    Entries(&'d [(String, Piece, Inline<'t>)]),
    /// Items or entries of which the text lends each key and scalar.
    Borrowed(BorrowedParts<'t>),
}

/// The items of a sequence, or the values of the entries of a mapping, in order.
#[derive(Drop)]
pub struct Children<'d, 't> {
    rest: Rest<'d, 't>,
}

/// The items or entries of a node in a line's head or in a flow collection.
#[tactic(auto, using(yq_outline::proofs::ChildLaws::inline_children))]
fn inline_rest<'d, 't>(node: &'d Inline<'t>) -> Rest<'d, 't>
    ensures { spec.rest_of result ≡ children_of (placed_tree (inline.inline_view node.now)) }
{
    match &node.form {
        Form::Empty => Rest::Nothing,
        Form::Alias(_) => Rest::Nothing,
        Form::Scalar(..) => Rest::Nothing,
        Form::List(items) => Rest::Items(items),
        Form::Map(entries) => Rest::Entries(entries),
    }
}

/// The items or entries of a node of which the text lends each key and scalar.
fn borrowed_rest<'d, 't>(node: BorrowedNode<'t>) -> Rest<'d, 't>
    ensures { spec.rest_of result ≡ children_of (placed_tree (inline.borrowed_view node.entry)) }
{
    match form_of(node) {
        BorrowedForm::Scalar(..) => Rest::Nothing,
        BorrowedForm::List(items) => Rest::Borrowed(items),
        BorrowedForm::Map(entries) => Rest::Borrowed(entries),
    }
}

impl<'d, 't> Node<'d, 't> {
    /// Its items or entries.
    #[tactic(auto, using(yq_outline::proofs::ChildLaws::anchored_children))]
    pub(crate) fn rest(&self) -> Rest<'d, 't>
        ensures { spec.rest_of result ≡ children_of (node_of self.now) }
    {
        match self.named.body {
            Body::Null => Rest::Nothing,
            Body::Scalar(..) => Rest::Nothing,
            Body::Map(under) => Rest::Lines(under),
            Body::List(under) => Rest::Lines(under),
            Body::Inline(node) => inline_rest(node),
            Body::Borrowed(node) => borrowed_rest(node),
            Body::Alias(_) => Rest::Nothing,
        }
    }

    /// The items of a sequence, or the values of the entries of a mapping, in order.
    pub fn children(&self) -> Children<'d, 't>
        ensures { spec.left_of result ≡ children_of (node_of self.now) }
    {
        Children { rest: self.rest() }
    }
}

/// The lines after the first of these and those under it, if there are any.
pub(crate) fn after_first<'d, 't>(under: Under<'d, 't>) -> Option<Under<'d, 't>>
    ensures after { spec.PassesFirst under.entry result }
    ensures fewer { IfSome result (λ u. spec.lines_left u < spec.lines_left under.entry) }
    ensures later { IfSome result (λ u. under.entry.first.row < u.first.row) }
{
    if !has_lines(under) {
        return None;
    }
    let (rows, document) = under.text.document_rows(under.document);
    Some(Under {
        text: under.text,
        document: under.document,
        first: position_after(rows, document, under.first),
        floor: under.floor,
    })
}

impl<'d, 't> Iterator for Children<'d, 't> {
    type Item = Node<'d, 't>;

    ghost next_gives = { spec.YieldsChild };

    ghost remaining = { λ c. at_most (spec.rest_length c.rest) };

    fn next(&mut self) -> Option<Node<'d, 't>> {
        match self.rest {
            Rest::Nothing => None,
            Rest::Lines(under) => {
                let Some(others) = after_first(under) else {
                    return None;
                };
                self.rest = Rest::Lines(others);
                Some(Node::of_line(under.text, under.document, under.first))
            }
            Rest::Items(items) => {
                let [item, others @ ..] = items else {
                    return None;
                };
                self.rest = Rest::Items(others);
                Some(Node::of_inline(None, item))
            }
            Rest::Entries(entries) => {
                let [entry, others @ ..] = entries else {
                    return None;
                };
                self.rest = Rest::Entries(others);
                Some(Node::of_inline(Some(entry.0.as_str()), &entry.2))
            }
            Rest::Borrowed(parts) => {
                let Some((entry, others)) = parts.split_first() else {
                    return None;
                };
                self.rest = Rest::Borrowed(others);
                Some(Node::of_borrowed(entry))
            }
        }
    }
}
