//! Keys and scalars of which the text lends what they mean.
ghost use Rattle.std.{specs.List.list_any, specs.Prelude.{◌≡◌, ◌==◌, IsTrue, codes, false, if◌then◌else◌, nat_le, length, not, true}};
ghost use Rattle.std.specs.Str.{bytes_eq, chars};
ghost use Rattle.yq_core.{specs.Borrowed.borrows_text as is_borrowed_text, specs.FitKeys.key_limit, specs.Quoted.IsQuotedText};
ghost use Rattle.yq_core.specs.Scalars.{is_quoted as is_in_quotes};
ghost use Rattle.yq_core.specs.FitKeys as spec;

use yq_core::{KEY_LIMIT, Run, borrowed_text, first_is, is_quoted, run_len};
use yq_scalar_reader::plain::holds_break;
use yq_scalar_reader::quoted_line::is_quoted_line;

/// Whether a backslash is in what is between double quotes, or a quote between single ones.
fn holds_escape(is_double: bool, inner: &str) -> bool
    ensures { result ≡ list_any (λ b. b == (if is_double then 92 else 39)) inner.now }
{
    let sign = if is_double { b'\\' } else { b'\'' };
    inner.as_bytes().iter().any(|b| *b == sign)
}

/// Whether a backslash is what the bytes that mean themselves between double quotes end before.
fn stops_at_slash(inner: &[u8]) -> bool
    ensures { IsTrue result → list_any (λ b. b == 92) inner.now ≡ true }
{
    first_is(b'\\', inner.split_at(run_len(Run::Quoted(b'"'), inner)).1)
}

/// Whether a scalar is in double quotes, and has an escape before its first break.
fn begins_escaped(piece: &str) -> bool
    requires { is_in_quotes piece.now ≡ true → IsQuotedText piece.now }
    ensures { IsTrue result → is_borrowed_text piece.now ≡ false }
{
    first_is(b'"', piece.as_bytes()) && stops_at_slash(borrowed_text(piece).as_bytes())
}

/// Whether what a key or scalar means is a slice of the text: it is on one line and has no escapes.
pub fn borrows_text(piece: &str) -> bool
    requires { is_in_quotes piece.now ≡ true → IsQuotedText piece.now }
    ensures { result ≡ is_borrowed_text piece.now }
{
    if is_quoted_line(piece.as_bytes()) {
        return true;
    }
    if begins_escaped(piece) {
        return false;
    }
    if holds_break(piece) {
        return false;
    }
    if !is_quoted(piece.as_bytes()) {
        return true;
    }
    let is_double = first_is(b'"', piece.as_bytes());
    !holds_escape(is_double, borrowed_text(piece))
}

/// Whether a key as it is written, if there is one, is no plain `<<`.
#[inline(always)]
pub fn key_fits(key: &str) -> bool
    ensures { result ≡ spec.key_fits key.now }
{
    key != "<<"
}

/// Whether a key is as short as it has to be, by its bytes.
#[inline(always)]
#[tactic(auto, using(yq_core::proofs::ShortKeys::short_by_bytes))]
pub(crate) fn is_short(key: &str) -> bool
    ensures { IsTrue result → nat_le (length (chars key.now)) key_limit ≡ true }
{
    key.len() <= KEY_LIMIT
}
