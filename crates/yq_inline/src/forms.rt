//! What nodes are that a text lends.
ghost use Rattle.std.specs.Prelude.{◌≡◌, None, Some, drop, true};
ghost use Rattle.yq_core.{specs.Entries.parts_of, specs.Nodes.{begins_with, opening_bracket}, specs.Reading.read_scalar as read};
ghost use Rattle.yq_core.{specs.Tree.scalar, specs.Trees.placed_tree, specs.View.borrowed_view};
ghost use Rattle.yq_inline.specs.Measured.{closing_byte};
ghost use Rattle.yq_inline.specs.BorrowedForms as spec;

use crate::lead::read_gap;
use crate::parts::BorrowedParts;
use crate::pieces::{begins_scalar, read_scalar};
use crate::scalar::plain_kind;
use yq_core::{BorrowedNode, Kind, between_quotes, is_quoted, strip};

/// What a node is, with keys and scalars as slices of the text.
#[derive(Clone, Copy)]
pub enum BorrowedForm<'t> {
    /// A scalar; nothing is null.
    Scalar(Kind, &'t str),
    /// A sequence, by its items.
    List(BorrowedParts<'t>),
    /// A mapping, by its entries.
    Map(BorrowedParts<'t>),
}

/// The kind and the text of the scalar in front.
fn leading_scalar(text: &str) -> (Kind, &str)
    requires { spec.borrows_front (read true (Some 0) text.now) ≡ true }
    ensures { spec.front_node (read true (Some 0) text.now) ≡
        Some (scalar None result.0 result.1.now) }
{
    let piece = match read_scalar(true, Some(0), text, text) {
        Ok((piece, _)) => piece,
        // A scalar is in front.
        Err(_) => unreachable!(),
    };
    if is_quoted(piece.as_bytes()) {
        return (Kind::Text, between_quotes(piece));
    }
    plain_kind(piece)
}

/// The items of a sequence, or the entries of a mapping, of which the text after the `[` or `{` is this.
fn parts_inside<'t>(node: BorrowedNode<'t>, keyed: bool, text: &'t str) -> BorrowedParts<'t>
    requires opens { begins_with (opening_bracket (closing_byte keyed)) node.text.now ≡ true }
    requires text { text.now ≡ drop 1 node.text.now }
    ensures inside { spec.AreInside node.entry result }
    ensures keyed { result.keyed ≡ keyed }
{
    match read_gap(text, text) {
        Ok((_, rest)) => BorrowedParts {
            total: node.total,
            depth: node.depth - 1,
            keyed,
            text: rest,
        },
        // No document marker follows the gap.
        Err(_) => unreachable!(),
    }
}

/// What a node is.
pub fn form_of<'t>(node: BorrowedNode<'t>) -> BorrowedForm<'t>
    ensures node { spec.form_node result ≡ placed_tree (borrowed_view node.entry) }
    ensures parts { spec.form_parts result ≡ parts_of (borrowed_view node.entry) }
{
    if let Some(after) = strip(b'[', node.text) {
        return BorrowedForm::List(parts_inside(node, false, after));
    }
    if let Some(after) = strip(b'{', node.text) {
        return BorrowedForm::Map(parts_inside(node, true, after));
    }
    if !begins_scalar(true, node.text.as_bytes()) {
        return BorrowedForm::Scalar(Kind::Null, "null");
    }
    let (kind, text) = leading_scalar(node.text);
    BorrowedForm::Scalar(kind, text)
}
