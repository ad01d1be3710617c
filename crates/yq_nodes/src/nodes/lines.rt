//! Lines of documents, by the rows of their text.
ghost use Rattle.std.specs.Prelude.{◌≡◌, ◌<◌, IsTrue, length, not};
ghost use Rattle.yq_outline.{specs.Ends.has_no_lines, specs.Outline.key_of};
ghost use Rattle.yq_core.specs.Paths.{is_item};
ghost use Rattle.yq_nodes.{specs.Bodies.body_outline, specs.Children.lines_left};
ghost use Rattle.yq_documents.{specs.Reading.documents_of, specs.Stretches.{IsLineIn, OfLineIn, count_from, lines_under}};
ghost use Rattle.yq_outline.specs.Positions as positions;

use crate::nodes::under::Under;
use yq_documents::Documents;
use yq_outline::Position;
use yq_row_walk::{is_bare, is_deeper, is_item_at, level_at, next};

/// Whether there are lines.
pub(crate) fn has_lines(under: Under<'_, '_>) -> bool
    ensures some { IsTrue result →
        IsLineIn under.entry.text.now under.entry.document under.entry.first }
    ensures test { result ≡ not (has_no_lines (body_outline under.entry)) }
{
    let (rows, document) = under.text.document_rows(under.document);
    is_deeper(rows, document, under.first, under.floor)
}

/// Whether a line of a document is a node itself.
pub(crate) fn begins_node(text: &Documents<'_>, document: usize, at: Position) -> bool
    requires there { document < length (documents_of text.now) }
    requires line { IsLineIn text.now document at }
    ensures { OfLineIn text.now document at (λ l. result ≡ positions.has_no_mark l.mark) }
{
    let (rows, stretch) = text.document_rows(document);
    is_bare(rows, stretch, at)
}

/// Whether a line of a document is no entry of a key.
pub(crate) fn begins_item(text: &Documents<'_>, document: usize, at: Position) -> bool
    requires there { document < length (documents_of text.now) }
    requires line { IsLineIn text.now document at }
    ensures { OfLineIn text.now document at (λ l. result ≡ is_item (key_of l.mark)) }
{
    let (rows, stretch) = text.document_rows(document);
    is_item_at(rows, stretch, at, 0)
}

/// The lines under a line of a document.
pub(crate) fn under_line<'d, 't>(
    text: &'d Documents<'t>,
    document: usize,
    at: Position,
) -> Under<'d, 't>
    requires there { document < length (documents_of text.now) }
    requires line { IsLineIn text.now document at }
    ensures lines { OfLineIn text.now document at (λ l. body_outline result ≡
        lines_under text.now document at l) }
    ensures fewer { lines_left result < count_from text.now document at }
{
    let (rows, stretch) = text.document_rows(document);
    Under {
        text,
        document,
        first: next(rows, stretch, at),
        floor: level_at(rows, at),
    }
}
