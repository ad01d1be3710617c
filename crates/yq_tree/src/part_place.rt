//! Where the parts of entries and items are.
ghost use Rattle.std.specs.Prelude.{◌≡◌, option_map};
ghost use Rattle.yq_documents.{specs.Pieces.{piece_span, span}, specs.Reading.cut_of};
ghost use Rattle.yq_places.specs.PathPieces.{path_piece};
ghost use Rattle.yq_documents.specs.declared.path.Part.TheVariants as parts;

use crate::flow_place::{content_span, entry_span, flow_entry};
use yq_documents::{Documents, Part, Path, Span};
use yq_lookup::CutText;

/// The place of the entry or item at a path.
fn entry_place(documents: &Documents<'_>, path: &Path) -> Option<Span>
    ensures { option_map span result ≡
        option_map piece_span (path_piece path.now parts.Entry (cut_of documents.now)) }
{
    let _rows = documents.rows();
    if let Some(place) = CutText::of(documents).entry_place(path) {
        return Some(place);
    }
    let entry = flow_entry(documents, path)?;
    Some(entry_span(&entry))
}

/// The place of the content of the node at a path.
fn content_place(documents: &Documents<'_>, path: &Path) -> Option<Span>
    ensures { option_map span result ≡
        option_map piece_span (path_piece path.now parts.Content (cut_of documents.now)) }
{
    let _rows = documents.rows();
    if let Some(place) = CutText::of(documents).content_place(path) {
        return Some(place);
    }
    let entry = flow_entry(documents, path)?;
    content_span(&entry)
}

/// The place of a part of the node at a path, in bytes from the start of the text. `None` if the path
/// leads to no node, or the node has no such part.
///
/// - `Content` is the head without its anchor. That of a block scalar has its lines with their breaks.
/// That of a block collection goes from its first key or dash to the end of its last line, before the
/// break. A null of which nothing but perhaps an anchor is written has none.
///
/// - `Entry` goes from the key or dash to the end of the last line of the entry or item, before the
/// break. A root has none. In a flow collection it goes from the key, or from the item with its anchor,
/// to the end of the node.
///
/// - `HeadComment` is the run of comment lines directly above the row that the key or dash begins, with
/// their breaks.
///
/// - `LineComment` goes from `#` to the end of the line, before the break.
pub fn extent(documents: &Documents<'_>, path: &Path, part: Part) -> Option<Span>
    ensures { option_map span result ≡
        option_map piece_span (path_piece path.now part (cut_of documents.now)) }
{
    match part {
        Part::Content => content_place(documents, path),
        Part::Entry => entry_place(documents, path),
        Part::HeadComment => CutText::of(documents).head_comment_place(path),
        Part::LineComment => CutText::of(documents).line_comment_place(path),
    }
}
