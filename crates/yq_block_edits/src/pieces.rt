//! A text in the place of another one, between what is before and after that.
ghost use Rattle.std.specs.Prelude.{string_bytes};
ghost use Rattle.yq_places.specs.PlacementViews.{lines_view, piece_view};
ghost use Rattle.yq_block_edits.specs.SegmentsPut.{IsExchange};
ghost use Rattle.yq_edit_rules.specs.PiecePuts as spec;

use std::alloc::{AllocError, Global};
use yq_places::{LinesIn, TextPiece};
use yq_text::{Halves, Segment, Segments};

/// A text in the place of a piece.
pub(crate) fn replace_piece<'t>(
    alloc: Global,
    piece: &TextPiece<'t>,
    new: String,
) -> Result<Segments<'t>, AllocError>
    ensures { IsExchange result (spec.piece_replaced (piece_view piece.now) (string_bytes new)) }
{
    let segments = vec![in alloc;
        Segment::Keep(piece.before),
        Segment::Put(Halves::of(piece.text), new),
        Segment::Keep(piece.after),
    ]?;
    Ok(Segments::new(segments))
}

/// A text in the place of lines, up to their last break.
pub(crate) fn replace_lines<'t>(
    alloc: Global,
    lines: &LinesIn<'t>,
    new: String,
) -> Result<Segments<'t>, AllocError>
    ensures { IsExchange result (spec.lines_replaced (lines_view lines.now) (string_bytes new)) }
{
    let segments = vec![in alloc;
        Segment::Keep(lines.before),
        Segment::Put(lines.lines, new),
        Segment::Keep(Halves::of(lines.last)),
        Segment::Keep(lines.after),
    ]?;
    Ok(Segments::new(segments))
}
