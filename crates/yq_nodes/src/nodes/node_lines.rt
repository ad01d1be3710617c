//! The nodes that lines mean.
ghost use Rattle.std.specs.Prelude.{◌≡◌, ◌<◌, length};
ghost use Rattle.yq_outline.{specs.Bodies.borrowed, specs.Outline.{anchored, value}, specs.Places.content_under};
ghost use Rattle.yq_documents.{specs.Reading.documents_of, specs.Stretches.{IsLineIn, OfLineIn, lines_under}};
ghost use Rattle.yq_nodes.specs.Bodies as spec;

use crate::nodes::body::{Body, Named};
use crate::nodes::flow::first_anchor;
use crate::nodes::heads::{line_anchor, line_head};
use crate::nodes::lines::{begins_item, begins_node, has_lines, under_line};
use crate::nodes::under::Under;
use yq_documents::Documents;
use yq_outline::Position;

/// The node that lines mean, after an anchor. A node on a line of its own is that line's, with
/// the first anchor before it.
pub(crate) fn lines_node<'d, 't>(under: Under<'d, 't>, before: Option<&'t str>) -> Named<'d, 't>
    ensures { spec.named_node result ≡
        anchored (borrowed before.entry) (value (spec.body_outline under.entry)) }
{
    let mut anchor = before;
    let mut these = under;
    'bare: while has_lines(these) {
        let text = these.text;
        let at = these.first;
        if !begins_node(text, these.document, at) {
            if begins_item(text, these.document, at) {
                return Named {
                    anchor,
                    body: Body::List(these),
                };
            }
            return Named {
                anchor,
                body: Body::Map(these),
            };
        }
        anchor = first_anchor(anchor, line_anchor(text, these.document, at));
        if let Some(body) = line_head(text, these.document, at) {
            return Named { anchor, body };
        }
        these = under_line(text, these.document, at);
    }
    Named {
        anchor,
        body: Body::Null,
    }
}

/// The node of an entry or item: that of its head, or of the lines under its line.
pub(crate) fn line_node<'d, 't>(
    text: &'d Documents<'t>,
    document: usize,
    at: Position,
) -> Named<'d, 't>
    requires there { document < length (documents_of text.now) }
    requires line { IsLineIn text.now document at }
    ensures { OfLineIn text.now document at (λ l. spec.named_node result ≡
        content_under l (lines_under text.now document at l)) }
{
    let anchor = line_anchor(text, document, at);
    if let Some(body) = line_head(text, document, at) {
        return Named { anchor, body };
    }
    lines_node(under_line(text, document, at), anchor)
}
