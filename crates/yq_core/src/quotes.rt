//! What is between quotes.
ghost use Rattle.std.specs.Prelude.{◌≡◌, ◌-◌, drop, length, take, true};
ghost use Rattle.yq_core.{specs.Borrowed.borrowed_text as text_between, specs.Quoted.IsQuotedText, specs.Scalars.is_quoted};

use crate::tokens::is_quoted;

/// What is between the quotes of a quoted scalar.
pub fn between_quotes(piece: &str) -> &str
    requires { IsQuotedText piece.now }
    ensures { result.now ≡ take (length piece.now - 2) (drop 1 piece.now) }
{
    let inner = piece.split_at(1).1;
    inner.split_at(inner.len() - 1).0
}

/// A text as it is written, without its quotes.
pub fn borrowed_text(piece: &str) -> &str
    requires { is_quoted piece.now ≡ true → IsQuotedText piece.now }
    ensures { result.now ≡ text_between piece.now }
{
    if is_quoted(piece.as_bytes()) {
        between_quotes(piece)
    } else {
        piece
    }
}
