//! The lengths of rows as they are read.
ghost use Rattle.std.{specs.Prelude.{◌≡◌, ◌<◌, ◌^◌, length}, specs.Str.IsUtf8};
ghost use Rattle.yq_rows.{specs.ReadPieces.{IsSliced, read_slices}, specs.RowAnswers.{offsets_read, offsets_found}};
ghost use Rattle.yq_row_table.specs.Offsets as spec;

use crate::content::Filling;
use crate::marks::{Begin, key_of};
use crate::reading::RowFront;
use yq_row_table::Offsets;

/// How long a piece is.
#[inline]
fn len_of(piece: &str) -> u32
    requires { length piece.now < 2 ^ 32 }
    ensures length { result ≡ length piece.now }
    ensures text { IsUtf8 piece.now }
{
    piece.len() as u32
}

/// The lengths of a row's pieces, as they were read, where it begins after so many bytes.
#[inline]
fn measure(
    start: usize,
    gap: &str,
    column: usize,
    begin: &Begin<'_>,
    content: &Filling<'_>,
) -> Offsets
    requires start { start < 2 ^ 32 }
    requires small { spec.row_length (read_slices gap.now column begin.now content.now) < 2 ^ 32 }
    requires parent { spec.ParentAgrees (read_slices gap.now column begin.now content.now) }
    ensures lengths { result ≡ offsets_read start gap.now column begin.now content.now }
    ensures texts { spec.AreTexts (read_slices gap.now column begin.now content.now) }
{
    let (key, colon) = key_of(begin.mark);
    Offsets {
        start: start as u32,
        gap: len_of(gap),
        column: column as u32,
        dashes: len_of(begin.dashes),
        key: len_of(key),
        colon: len_of(colon),
        space: len_of(content.space),
        anchor: len_of(content.anchor),
        apart: len_of(content.apart),
        head: len_of(content.head),
        tail: len_of(content.tail),
        raw: len_of(content.raw),
    }
}

/// Where a row is in the whole text, that was read in front of this end of it.
#[inline]
pub(crate) fn offsets_of(
    whole: &str,
    front: RowFront<'_>,
    column: usize,
    begin: &Begin<'_>,
    content: &Filling<'_>,
) -> Offsets
    requires small { length whole.now < 2 ^ 32 }
    requires ends { spec.Ends front.at.now whole.now }
    requires read { IsSliced front.at.now front.gap.now column begin.now content.now }
    ensures is_located { spec.IsCutIn whole.now result }
    ensures same { spec.slices_in whole.now result ≡
        read_slices front.entry.gap.now column begin.now content.now }
    ensures place { result ≡ offsets_found whole.now front.entry column begin.now content.now }
{
    measure(
        whole.len() - front.at.len(),
        front.gap,
        column,
        begin,
        content,
    )
}
