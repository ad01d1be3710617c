//! What rows spell, as it is written.
ghost use Rattle.std.specs.Prelude.{◌≡◌, ◌<◌, None, Some, option_map, true};
ghost use Rattle.yq_core.{specs.Scalars.is_quoted, specs.Quoted.IsQuotedText};
ghost use Rattle.yq_documents.specs.Decoded as spec;

use crate::decoded::Decoded;
use yq_core::borrowed_text;

/// The text of a row's key, by what is made of the row and by its key as it is written.
pub fn decoded_key<'d>(decoded: Option<&'d Decoded<'_>>, piece: &'d str) -> &'d str
    requires { is_quoted piece.now ≡ true → IsQuotedText piece.now }
    ensures { result.now ≡ spec.decoded_key (option_map (λ m. m.now) decoded.entry) piece.now }
{
    match decoded {
        Some(row) => match &row.key {
            Some(key) => key.as_str(),
            None => borrowed_text(piece),
        },
        None => borrowed_text(piece),
    }
}
