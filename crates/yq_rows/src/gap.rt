//! Blank lines and comment lines.
ghost use Rattle.std.specs.Prelude.{◌≡◌, ◌||◌};
ghost use Rattle.yq_core.specs.Text.{front};
ghost use Rattle.yq_core.specs.Lines as lines;
ghost use Rattle.yq_core.specs.Nodes as nodes;
ghost use Rattle.yq_core.specs.Runs as runs;
ghost use Rattle.yq_row_table.specs.Reading as spec;

use crate::words::begins_word;
use yq_core::first_is;
use yq_core::lines::line_len;
use yq_core::text::{ends_line, past_white, spaces_len};

/// Whether a `#` is in front.
pub(crate) fn is_hash(text: &[u8]) -> bool
    ensures { result ≡ lines.is_hash text.now }
{
    matches!(text, [b'#', ..])
}

/// Whether a letter, a digit, no ASCII or a dash is in front.
fn begins_row(text: &[u8]) -> bool
    ensures { result ≡ (front runs.is_word_byte text.now || nodes.begins_with 45 text.now) }
{
    begins_word(text) || first_is(b'-', text)
}

/// Whether a blank line or a comment line is in front (YAML 1.2.2, sections 6.4
/// and 6.6).
#[tactic(auto, using(yq_row_table::proofs::WordFronts::row_gap, yq_row_table::proofs::WordFronts::indented_gap, yq_row_table::proofs::WordFronts::without_spaces))]
pub fn begins_gap(text: &[u8]) -> bool
    ensures { result ≡ spec.begins_gap text.now }
{
    if begins_row(text) {
        return false;
    }
    let after = text.split_at(spaces_len(text)).1;
    if begins_row(after) {
        return false;
    }
    let next = past_white(after);
    !text.is_empty() && (ends_line(next) || is_hash(next))
}

/// How long the gap in front is, in bytes.
#[tactic(auto, using(yq_row_table::proofs::GapLaws::gap_step, yq_row_table::proofs::GapLaws::gap_stop))]
#[inline(always)]
fn gap_len(text: &[u8]) -> usize
    ensures { result ≡ spec.gap_len text.now }
{
    let mut rest = text;
    'lines: while begins_gap(rest) {
        rest = rest.split_at(line_len(rest)).1;
    }
    text.len() - rest.len()
}

/// The text cut after the gap in front.
#[inline(always)]
pub(crate) fn split_gap(text: &str) -> (&str, &str)
    ensures { (result.0.now, result.1.now) ≡ spec.cut_gap text.now }
{
    text.split_at(gap_len(text.as_bytes()))
}
