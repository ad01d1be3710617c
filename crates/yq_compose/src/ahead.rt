//! What is made of the rows of a text from one on.
ghost use Rattle.std.specs.Prelude.{◌≡◌, ◌≤◌, ℕ, List, option_map};
ghost use Rattle.yq_documents.{specs.Decoded.{Rise, decoded_at}, specs.declared.decoded.Decoded.Decoded as DecodedOf};
ghost use Rattle.yq_compose.specs.Ahead.{IsAhead};

use yq_documents::Decoded;

/// What is made of the rows from one on, looked for among what is made of all rows.
pub(crate) fn ahead_from<'a, 't>(decoded: &'a [Decoded<'t>], row: usize) -> &'a [Decoded<'t>]
    requires { Rise 0 decoded.now }
    ensures { IsAhead decoded.now row result.now }
{
    let at = decoded.partition_point(|m| m.row < row);
    &decoded[at..]
}

/// What is made of the rows from one on, by what is made from an earlier one on.
#[inline(always)]
pub(crate) fn ahead_of<'a, 't>(decoded: &'a [Decoded<'t>], row: usize) -> &'a [Decoded<'t>]
    ensures { (all : List DecodedOf) (first : ℕ) → first ≤ row → IsAhead all first decoded.now →
        IsAhead all row result.now }
{
    let mut left = decoded;
    'passed: while let [first, others @ ..] = left {
        if first.row >= row {
            return left;
        }
        left = others;
    }
    left
}

/// What is made of a row, if anything is, by what is made from it on.
#[inline(always)]
pub(crate) fn decoded_here<'a, 't>(
    decoded: &'a [Decoded<'t>],
    row: usize,
) -> Option<&'a Decoded<'t>>
    ensures { (all : List DecodedOf) → IsAhead all row decoded.now →
        option_map (λ m. m.now) result ≡ decoded_at row all }
{
    let [first, ..] = decoded else {
        return None;
    };
    if first.row != row {
        return None;
    }
    Some(first)
}
