//! What is between two tokens of a flow collection.
ghost use Rattle.std.specs.Prelude.{◌≡◌, ◌∷◌, ◌≤◌, length};
ghost use Rattle.yq_core.specs.declared.gap.GapPlace.TheVariants.{Token as token};
ghost use Rattle.yq_core.specs.Gaps as spec;
ghost use Rattle.yq_core.specs.Reading as reading;

use crate::text::is_space;

/// What comes before the next byte.
#[derive(Clone, Copy)]
pub enum GapPlace {
    /// A token.
    Token,
    /// White space.
    White,
    /// A break.
    Break,
    /// A comment that goes on.
    Comment,
}

/// Whether the gap goes on with the byte in front.
fn goes(before: GapPlace, first: u8, text: &[u8], after: &[u8]) -> bool
    requires { text.now ≡ first ∷ after.now }
    ensures { result ≡ spec.goes before first after.now }
{
    match before {
        GapPlace::Token => is_space(text),
        GapPlace::White | GapPlace::Break => is_space(text) || first == b'#',
        GapPlace::Comment => true,
    }
}

/// What comes before the byte after this one.
fn next(before: GapPlace, first: u8) -> GapPlace
    ensures { result ≡ spec.next_gap_place before first }
{
    if first == b'\n' {
        GapPlace::Break
    } else if first == b'#' || matches!(before, GapPlace::Comment) {
        GapPlace::Comment
    } else {
        GapPlace::White
    }
}

/// Whether a line begins here.
fn is_break(before: GapPlace) -> bool
    ensures { result ≡ spec.at_line_start before }
{
    matches!(before, GapPlace::Break)
}

/// How long the gap in front is, in bytes, and whether what follows begins a line.
#[inline(always)]
pub fn gap_len(text: &[u8]) -> (usize, bool)
    ensures len { result.0 ≡ reading.flow_gap_len token text.now }
    ensures within { result.0 ≤ length text.now }
    ensures line { result.1 ≡ spec.at_line_start (reading.gap_end token text.now) }
{
    let mut n = 0;
    let mut before = GapPlace::Token;
    let mut rest = text;
    'bytes: while let [first, after @ ..] = rest {
        if !goes(before, *first, rest, after) {
            return (n, is_break(before));
        }
        before = next(before, *first);
        n += 1;
        rest = after;
    }
    (n, is_break(before))
}
