//! Block scalars by the pieces of their rows.
ghost use Rattle.std.{specs.Option.option_map, specs.Prelude.{◌≡◌, ◌≤◌, ◌^◌}};
ghost use Rattle.yq_row_table.specs.BlockNumbers as spec;

use yq_core::block_header::{keeps, split_indicators};
use yq_core::block_lines::detect_indent;
use yq_core::{Place, further_spaces};

/// How far the text of raw lines is indented, by the digit or by the first of them that isn't blank.
#[tactic(auto, unfolding(yq_core::specs::BlockReading::indent_at))]
fn columns_at(least: usize, digit: Option<u8>, raw: &str) -> Option<usize>
    requires { least ≤ 2 ^ 63 }
    ensures { result ≡ spec.columns_at least digit raw.now }
{
    match digit {
        Some(digit) => Some((least + usize::from(digit)).saturating_sub(1)),
        None => match detect_indent(least, raw.as_bytes()) {
            Ok(indent) => Some(indent.columns),
            Err(_) => None,
        },
    }
}

/// Whether the block scalar of a header and raw lines, below a parent of this indentation, keeps the
/// empty lines at its end, and how far its text is indented, in columns. Of the lines only those up to
/// the first one that isn't blank are read, and none of them where the header has a digit. `None` where the
/// header isn't one.
pub(crate) fn block_numbers_of(head: &str, raw: &str, parent: i64) -> Option<(bool, usize)>
    ensures { option_map (λ b. (b.0, b.1)) result ≡ spec.block_numbers_of parent head.now raw.now }
{
    let [b'|' | b'>', after @ ..] = head.as_bytes() else {
        return None;
    };
    let (digit, chomping, _) = split_indicators(after);
    let least = further_spaces(Place::Block, parent)?;
    let columns = columns_at(least, digit, raw)?;
    Some((keeps(chomping), columns))
}
