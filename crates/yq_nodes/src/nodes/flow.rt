//! Nodes in flow collections.
ghost use Rattle.std.specs.Prelude.{◌≡◌, Some, None, option_map};
ghost use Rattle.yq_core.{specs.Trees.{parts_tree, placed_tree}, specs.View.{borrowed_view, entries_end, items_end, inline_view}};
ghost use Rattle.yq_core.{specs.Paths.{To, Nth}, specs.Tree.{anchor_of, key_label}};
ghost use Rattle.yq_outline.{specs.Labelled.labelled_at, specs.Outline.anchored, specs.Bodies.borrowed};
ghost use Rattle.yq_nodes.specs.Nodes as spec;
ghost use Rattle.yq_outline.specs.Outline as outline;

use crate::nodes::node::NodeKind;
use yq_core::{BorrowedNode, Form, Inline, Kind, Piece};
use yq_inline::{BorrowedForm, form_of};

/// What a node of a flow collection is.
#[tactic(auto, using(crate::proofs::KindLaws::kind_named))]
pub(crate) fn inline_kind(node: &Inline<'_>) -> NodeKind
    ensures { result ≡ spec.kind_of (placed_tree (inline_view node.now)) }
{
    match &node.form {
        Form::Empty => NodeKind::Scalar(Kind::Null),
        Form::Alias(_) => NodeKind::Alias,
        Form::Scalar(scalar, _) => NodeKind::Scalar(scalar.kind()),
        Form::List(_) => NodeKind::List,
        Form::Map(_) => NodeKind::Map,
    }
}

/// The text of a scalar in a flow collection, or the name of an alias.
#[tactic(auto, using(crate::proofs::KindLaws::text_named))]
pub(crate) fn inline_text<'d>(node: &'d Inline<'_>) -> &'d str
    ensures { result.now ≡ spec.text_of (placed_tree (inline_view node.now)) }
{
    match &node.form {
        Form::Empty => "null",
        Form::Alias(name) => name,
        Form::Scalar(scalar, _) => scalar.text(),
        Form::List(_) => "",
        Form::Map(_) => "",
    }
}

/// What a node is of which the text lends each key and scalar, and its text.
pub(crate) fn borrowed_kind_and_text(node: BorrowedNode<'_>) -> (NodeKind, &str)
    ensures kind { result.0 ≡ spec.kind_of (placed_tree (borrowed_view node.entry)) }
    ensures text { result.1.now ≡ spec.text_of (placed_tree (borrowed_view node.entry)) }
{
    match form_of(node) {
        BorrowedForm::Scalar(kind, text) => (NodeKind::Scalar(kind), text),
        BorrowedForm::List(_) => (NodeKind::List, ""),
        BorrowedForm::Map(_) => (NodeKind::Map, ""),
    }
}

/// The first of two anchors.
pub(crate) fn first_anchor<'d>(first: Option<&'d str>, second: Option<&'d str>) -> Option<&'d str>
    ensures { borrowed result ≡ outline.first_anchor (borrowed first.entry) (borrowed second.entry) }
{
    match first {
        Some(name) => Some(name),
        None => second,
    }
}

/// The anchor of a node after another anchor; an alias has none.
#[tactic(auto, using(crate::proofs::KindLaws::anchor_scalar, crate::proofs::KindLaws::anchor_list, crate::proofs::KindLaws::anchor_map, crate::proofs::KindLaws::anchor_alias))]
pub(crate) fn inline_anchor<'t>(before: Option<&'t str>, node: &Inline<'t>) -> Option<&'t str>
    ensures { borrowed result ≡ anchor_of (anchored (borrowed before.entry)
        (placed_tree (inline_view node.now))) }
{
    match node.form {
        Form::Alias(_) => None,
        Form::Empty => first_anchor(before, node.anchor),
        Form::Scalar(..) => first_anchor(before, node.anchor),
        Form::List(_) => first_anchor(before, node.anchor),
        Form::Map(_) => first_anchor(before, node.anchor),
    }
}

/// The item of an index.
pub(crate) fn item_at<'d, 't>(items: &'d [Inline<'t>], index: usize) -> Option<&'d Inline<'t>>
    ensures { option_map (λ n. (key_label None, placed_tree (inline_view n.now))) result ≡
        labelled_at (Nth index) (parts_tree (items_end items.now)) }
{
    match items.get(index) {
        Some(item) => Some(item),
        None => None,
    }
}

/// The entry of a key, by its key and its node.
pub(crate) fn entry_at<'d, 't>(
    entries: &'d [(String, Piece, Inline<'t>)],
    key: &str,
) -> Option<(&'d str, &'d Inline<'t>)>
    ensures { option_map (λ e. (key_label (Some e.0.now), placed_tree (inline_view e.1.now)))
        result ≡ labelled_at (To key.now) (parts_tree (entries_end entries.now)) }
{
    'each: for entry in entries {
        if entry.0.as_str() == key {
            return Some((entry.0.as_str(), &entry.2));
        }
    }
    None
}
