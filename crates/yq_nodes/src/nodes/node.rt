//! The nodes of documents.
ghost use Rattle.std.{specs.List.list_any, specs.Prelude.{◌≡◌, ◌<◌, false, length, Some}};
ghost use Rattle.yq_core.{specs.Anchors.names_of, specs.Trees.{placed_tree, unplaced_key}, specs.Tree.{anchor_of, key_label, plain_label}};
ghost use Rattle.yq_outline.{specs.Names.is_reference, specs.Bodies.borrowed, specs.Outline.label, specs.Places.content_under};
ghost use Rattle.yq_nodes.specs.Bodies.{body_node};
ghost use Rattle.yq_inline.specs.BorrowedParts.{borrowed_entry};
ghost use Rattle.yq_documents.{specs.Documents.Document, specs.Located.document_at, specs.Reading.documents_of};
ghost use Rattle.yq_documents.specs.Stretches.{IsLineIn, OfLineIn, lines_under};
ghost use Rattle.yq_core.specs.View as inline;
ghost use Rattle.yq_nodes.specs.Nodes as spec;

use crate::nodes::body::{Body, Named};
use crate::nodes::flow::{borrowed_kind_and_text, inline_anchor, inline_kind, inline_text};
use crate::nodes::heads::line_written;
use crate::nodes::node_lines::{line_node, lines_node};
use crate::nodes::under::Under;
use yq_core::{Inline, Kind};
use yq_documents::{Documents, node_refers};
use yq_inline::BorrowedEntry;
use yq_outline::Position;

/// What a node is.
#[derive(Clone, Copy, PartialEq, Eq)]
pub enum NodeKind {
    /// A name in the place of an earlier node.
    Alias,
    /// A scalar of this kind.
    Scalar(Kind),
    /// A sequence.
    List,
    /// A mapping.
    Map,
}

/// What is written about the entry or item of a line.
#[derive(Clone, Copy)]
pub(crate) struct WrittenLabel<'d, 't> {
    /// Its key, if it has one.
    pub(crate) key: Option<&'d str>,
    /// The gap before the line's row, where the line begins it.
    pub(crate) gap: &'t str,
    /// The tail of the line, where it ends its row's first line.
    pub(crate) tail: &'t str,
}

/// Where a node is.
#[derive(Clone, Copy)]
pub(crate) enum Slot<'d, 't> {
    /// It is the root of a document.
    Root,
    /// In the entry or item of a line.
    Line(WrittenLabel<'d, 't>),
    /// In a flow collection, after this key, if it has one.
    Inline(Option<&'d str>),
}

/// A node, which lends what it says of its text.
#[derive(Clone, Copy)]
pub struct Node<'d, 't> {
    pub(crate) slot: Slot<'d, 't>,
    pub(crate) named: Named<'d, 't>,
}

/// Whether an alias may be in what a node is: none does, where none is in the text's lines.
fn body_refers(body: &Body<'_, '_>) -> bool
    ensures { result ≡ false → list_any is_reference (names_of (body_node body.now)) ≡ false }
{
    match body {
        Body::Null => false,
        Body::Scalar(..) => false,
        Body::Map(under) => under.text.may_refer(),
        Body::List(under) => under.text.may_refer(),
        Body::Inline(node) => node_refers(node),
        Body::Borrowed(_) => false,
        Body::Alias(_) => true,
    }
}

impl<'d, 't> Node<'d, 't> {
    /// The root of document `i` of a text, counted from 0.
    pub fn root(text: &'d Documents<'t>, i: usize) -> Node<'d, 't>
        requires { i < length (documents_of text.now) }
        ensures node { (d : Document) → document_at text.now i ≡ Some d → spec.node_of result ≡
            d.root }
        ensures label { spec.label_of result ≡ plain_label }
    {
        let (_rows, stretch) = text.document_rows(i);
        let first = Position {
            row: stretch.first,
            line: 0,
        };
        let all = Under {
            text,
            document: i,
            first,
            floor: 0,
        };
        Node {
            slot: Slot::Root,
            named: lines_node(all, None),
        }
    }

    /// The node of a line's entry or item.
    pub(crate) fn of_line(text: &'d Documents<'t>, document: usize, at: Position) -> Node<'d, 't>
        requires there { document < length (documents_of text.now) }
        requires line { IsLineIn text.now document at }
        ensures node { OfLineIn text.now document at (λ l. spec.node_of result ≡
            content_under l (lines_under text.now document at l)) }
        ensures label { OfLineIn text.now document at (λ l. spec.label_of result ≡ label l) }
    {
        Node {
            slot: Slot::Line(line_written(text, document, at)),
            named: line_node(text, document, at),
        }
    }

    /// A node of a flow collection, after its key, if it has one.
    #[tactic(auto, using(yq_outline::proofs::NodeLaws::anchored_none))]
    pub(crate) fn of_inline(key: Option<&'d str>, node: &'d Inline<'t>) -> Node<'d, 't>
        ensures node { spec.node_of result ≡ placed_tree (inline.inline_view node.now) }
        ensures label { spec.label_of result ≡ key_label (borrowed key.entry) }
    {
        let named = Named {
            anchor: None,
            body: Body::Inline(node),
        };
        Node {
            slot: Slot::Inline(key),
            named,
        }
    }

    /// An item or entry of a flow collection of which the text lends each key and scalar.
    #[tactic(auto, using(yq_outline::proofs::NodeLaws::anchored_none))]
    pub(crate) fn of_borrowed(entry: BorrowedEntry<'t>) -> Node<'d, 't>
        ensures node { spec.node_of result ≡ placed_tree (borrowed_entry entry.entry).1 }
        ensures label { spec.label_of result ≡ key_label (unplaced_key (borrowed_entry entry.entry).0) }
    {
        let named = Named {
            anchor: None,
            body: Body::Borrowed(entry.node),
        };
        match entry.key {
            Some((key, _)) => Node {
                slot: Slot::Inline(Some(key)),
                named,
            },
            None => Node {
                slot: Slot::Inline(None),
                named,
            },
        }
    }

    /// What the node is.
    #[tactic(auto, using(crate::proofs::KindLaws::kind_anchored))]
    pub fn kind(&self) -> NodeKind
        ensures { result ≡ spec.kind_of (spec.node_of self.now) }
    {
        match self.named.body {
            Body::Null => NodeKind::Scalar(Kind::Null),
            Body::Scalar(kind, _) => NodeKind::Scalar(kind),
            Body::Map(_) => NodeKind::Map,
            Body::List(_) => NodeKind::List,
            Body::Inline(node) => inline_kind(node),
            Body::Borrowed(node) => borrowed_kind_and_text(node).0,
            Body::Alias(_) => NodeKind::Alias,
        }
    }

    /// The text of a scalar, or the name of an alias; that of a sequence or mapping is empty.
    #[tactic(auto, using(crate::proofs::KindLaws::text_anchored))]
    pub fn text(&self) -> &'d str
        ensures { result.now ≡ spec.text_of (spec.node_of self.now) }
    {
        match self.named.body {
            Body::Null => "null",
            Body::Scalar(_, text) => text,
            Body::Map(_) => "",
            Body::List(_) => "",
            Body::Inline(node) => inline_text(node),
            Body::Borrowed(node) => borrowed_kind_and_text(node).1,
            Body::Alias(name) => name,
        }
    }

    /// What the node is, and its text, read once.
    #[inline(always)]
    #[tactic(auto, using(crate::proofs::KindLaws::kind_anchored, crate::proofs::KindLaws::text_anchored))]
    pub fn kind_and_text(&self) -> (NodeKind, &'d str)
        ensures kind { result.0 ≡ spec.kind_of (spec.node_of self.now) }
        ensures text { result.1.now ≡ spec.text_of (spec.node_of self.now) }
    {
        match self.named.body {
            Body::Null => (NodeKind::Scalar(Kind::Null), "null"),
            Body::Scalar(kind, text) => (NodeKind::Scalar(kind), text),
            Body::Map(_) => (NodeKind::Map, ""),
            Body::List(_) => (NodeKind::List, ""),
            Body::Inline(node) => (inline_kind(node), inline_text(node)),
            Body::Borrowed(node) => borrowed_kind_and_text(node),
            Body::Alias(name) => (NodeKind::Alias, name),
        }
    }

    /// The name of the anchor before it.
    #[tactic(auto, using(yq_outline::proofs::NodeLaws::first_none))]
    pub fn anchor(&self) -> Option<&'t str>
        ensures { borrowed result ≡ anchor_of (spec.node_of self.now) }
    {
        let before = self.named.anchor;
        match self.named.body {
            Body::Null => before,
            Body::Scalar(..) => before,
            Body::Map(_) => before,
            Body::List(_) => before,
            Body::Inline(node) => inline_anchor(before, node),
            Body::Borrowed(_) => before,
            Body::Alias(_) => None,
        }
    }

    /// Whether an alias may be in it: none does, where none is in the text's lines.
    #[tactic(auto, using(yq_outline::proofs::AliasLaws::none_anchored))]
    pub fn may_refer(&self) -> bool
        ensures { result ≡ false → list_any is_reference (names_of (spec.node_of self.now)) ≡
            false }
    {
        body_refers(&self.named.body)
    }

    /// The key of its entry; an item and the root have none.
    pub fn key(&self) -> Option<&'d str>
        ensures { borrowed result ≡ (spec.label_of self.now).key }
    {
        match self.slot {
            Slot::Root => None,
            Slot::Line(written) => written.key,
            Slot::Inline(key) => key,
        }
    }
}
