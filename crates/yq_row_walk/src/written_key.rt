//! Keys as they are written, compared with keys by what they mean.
ghost use Rattle.std.{specs.List.list_any, specs.Prelude.{◌≡◌, ◌==◌, false, if◌then◌else◌, true}, specs.Str.bytes_eq};
ghost use Rattle.yq_core.{specs.ContentReading.quoted_content, specs.Plain.holds_break, specs.Quoted.IsQuotedText};
ghost use Rattle.yq_core.specs.Scalars as scalars;

use yq_core::{between_quotes, first_is, is_quoted};
use yq_scalar_reader::is_quoted_content;

/// Whether a backslash is in what is between double quotes, or a quote between single ones.
#[inline(always)]
fn holds_escape(is_double: bool, inner: &str) -> bool
    ensures { result ≡ list_any (λ b. b == (if is_double then 92 else 39)) inner.now }
{
    let sign = if is_double { b'\\' } else { b'\'' };
    inner.as_bytes().iter().any(|b| *b == sign)
}

/// Whether a quoted key on one line is this one. No memory is needed: one with escapes is compared as
/// it is read.
fn is_quoted_key(piece: &str, key: &str) -> bool
    requires quoted { IsQuotedText piece.now }
    requires line { holds_break piece.now ≡ false }
    ensures { result ≡ bytes_eq (quoted_content piece.now) key.now }
{
    let inner = between_quotes(piece);
    if holds_escape(first_is(b'"', piece.as_bytes()), inner) {
        return is_quoted_content(piece, key);
    }
    inner == key
}

/// Whether a key on one line that is written so is this one.
#[inline(always)]
#[tactic(auto, unfolding(yq_core::specs::Scalars::scalar_content))]
pub(crate) fn is_written(piece: &str, key: &str) -> bool
    requires quoted { scalars.is_quoted piece.now ≡ true → IsQuotedText piece.now }
    requires line { holds_break piece.now ≡ false }
    ensures { result ≡ bytes_eq (scalars.scalar_content piece.now) key.now }
{
    if is_quoted(piece.as_bytes()) {
        return is_quoted_key(piece, key);
    }
    piece == key
}
