//! What the scalar of a piece means.
ghost use Rattle.std.specs.Prelude.{◌≡◌, ℕ, ℤ};
ghost use Rattle.yq_core.{specs.Block.IsBlockPiece, specs.Piece.IsPlainPiece, specs.PlainContent.IsPlainLines};
ghost use Rattle.yq_core.{specs.Quoted.{QuotedLines, quoted_lines_content as content_of}, specs.QuotedPiece.IsQuotedPiece};
ghost use Rattle.yq_core.{specs.declared.style.Place.Place, specs.Strings.GivesText};
ghost use Rattle.yq_core.specs.BlockContent as block;
ghost use Rattle.yq_core.specs.ScalarPiece as spec;

use crate::block_content::block_content;
use std::alloc::{AllocError, Global};
use yq_core::{Piece, Style};
use yq_scalar_reader::{plain_content, quoted_content};

/// What the scalar of a piece means, where the piece was read from this text: the lines of a plain or
/// quoted scalar folded and its escapes read, those of a block scalar without their indentation (YAML
/// 1.2.2, sections 6.5, 7.3 and 8.1).
///
/// Takes memory once.
pub fn content(alloc: Global, text: &str, piece: &Piece) -> Result<String, AllocError>
    requires { spec.IsReadPiece text.now piece.now }
    ensures exact { GivesText result (spec.piece_content text.now piece.now) }
    ensures plain { (place : Place) (n : ℤ) (at : ℕ)
        (h : IsPlainPiece place n at text.now piece.now) (ls : QuotedLines) →
        IsPlainLines ls h.scalar → GivesText result (content_of ls) }
    ensures quoted { (at : ℕ) (h : IsQuotedPiece at text.now piece.now) →
        GivesText result (content_of h.ls) }
    ensures block { (n : ℤ) (h : IsBlockPiece n piece.now.start text.now piece.now) →
        GivesText result (block.block_content h.block) }
{
    content_at(alloc, text, piece)
}

fn content_at(alloc: Global, text: &str, piece: &Piece) -> Result<String, AllocError>
    requires { spec.IsReadPiece text.now piece.now }
    ensures { GivesText result (spec.piece_content text.now piece.now) }
{
    match piece.style {
        Style::Plain => plain_content(alloc, piece_text(text, piece)),
        Style::Single | Style::Double => quoted_content(alloc, piece_text(text, piece)),
        Style::Literal | Style::Folded => block_content(alloc, text, piece),
    }
}

/// What is between the start and the end of a plain or quoted scalar's piece.
fn piece_text<'t>(text: &'t str, piece: &Piece) -> &'t str
    requires { spec.IsInlineScalar text.now piece.now }
    ensures { result.now ≡ spec.piece_text text.now piece.now }
{
    let rest = text.split_at(piece.start).1;
    rest.split_at(piece.end - piece.start).0
}
