//! The lines under a line, or of a document.
ghost use Rattle.std.specs.Prelude.{◌<◌, length};
ghost use Rattle.yq_documents.{specs.Reading.documents_of, specs.Stretches.IsPositionIn};

use yq_documents::Documents;
use yq_outline::Position;

/// The lines of a document from one on that are deeper than a level.
#[derive(Clone, Copy)]
pub(crate) struct Under<'d, 't> {
    pub(crate) text: &'d Documents<'t>,
    /// Which document, counted from 0.
    pub(crate) document: usize,
    pub(crate) first: Position,
    pub(crate) floor: usize,
    ghost there: { document < length (documents_of text.now) },
    ghost position: { IsPositionIn text.now document first },
}
