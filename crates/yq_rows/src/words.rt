//! Rows, keys and heads that begin with a letter, a digit or no ASCII.
ghost use Rattle.std.specs.Prelude.{◌≡◌, ◌≢◌, IfErr, IsTrue, false, true};
ghost use Rattle.yq_core.{specs.Answers.ReadsAs, specs.Text.front, specs.declared.fault.FaultKind.TheVariants.NotUtf8};
ghost use Rattle.yq_row_table.specs.WordRows.{borrows_quoted};
ghost use Rattle.yq_core.specs.Reading as inline;
ghost use Rattle.yq_core.specs.Runs as runs;

use yq_core::{ReadFault, is_quoted};
use yq_inline::pieces::read_scalar;
use yq_scalar_reader::plain::split_plain;
use yq_scalar_reader::quoted_line::is_quoted_line;

/// Whether a letter, a digit or no ASCII is in front.
pub(crate) fn begins_word(text: &[u8]) -> bool
    ensures { result ≡ front runs.is_word_byte text.now }
{
    matches!(text, [b'a'..=b'z' | b'A'..=b'Z' | b'0'..=b'9' | 128..=255, ..])
}

/// Whether a key or head is in quotes on one line, and has no escapes.
#[inline(always)]
pub(crate) fn borrows_quoted(piece: &str) -> bool
    ensures { IsTrue result → borrows_quoted piece.now ≡ true }
{
    is_quoted(piece.as_bytes()) && is_quoted_line(piece.as_bytes())
}

/// The scalar in front, and what follows it, as `read_scalar` gives them. One that begins with a letter
/// or a digit is plain.
#[inline]
pub(crate) fn read_front<'t>(
    spaces: Option<usize>,
    whole: &str,
    text: &'t str,
) -> Result<(&'t str, &'t str), ReadFault>
    ensures read { ReadsAs (λ x. (x.0.now, x.1.now)) result
        (inline.read_scalar false spaces text.now) }
    ensures fault { IfErr result (λ f. f.kind ≢ NotUtf8) }
{
    if begins_word(text.as_bytes()) {
        return Ok(split_plain(false, spaces, text));
    }
    read_scalar(false, spaces, whole, text)
}
