//! Keys and scalars in quotes that the text lends.
ghost use Rattle.std.specs.Prelude.{◌≡◌, IsTrue, true};
ghost use Rattle.yq_core.{specs.Borrowed.borrows_text as is_borrowed_text, specs.Nodes.begins_with, specs.QuotedReading.is_quote};

use yq_core::{Run, first_is, run_len};

/// Whether the quote in front, one on the same line and no quote, LF or backslash between them are the text.
#[inline(always)]
fn is_quoted_run(quote: u8, text: &[u8]) -> bool
    requires quote { is_quote quote ≡ true }
    requires front { begins_with quote text.now ≡ true }
    ensures { IsTrue result → is_borrowed_text text.now ≡ true }
{
    let rest = text.split_at(1).1;
    let n = run_len(Run::Quoted(quote), rest);
    n + 2 == text.len() && first_is(quote, rest.split_at(n).1)
}

/// Whether a key or scalar is in quotes on one line, and has no escapes; sixteen bytes are looked at together.
#[inline(always)]
pub fn is_quoted_line(piece: &[u8]) -> bool
    ensures { IsTrue result → is_borrowed_text piece.now ≡ true }
{
    if first_is(b'"', piece) {
        return is_quoted_run(b'"', piece);
    }
    if first_is(b'\'', piece) {
        return is_quoted_run(b'\'', piece);
    }
    false
}
