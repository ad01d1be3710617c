//! What may be written plain, on one line.
ghost use Rattle.std.{specs.List.list_all, specs.Prelude.◌≡◌, specs.Str.chars};
ghost use Rattle.yq_scalar_reader.specs.Held.{is_visible_ascii, is_written_as_is};
ghost use Rattle.yq_core.specs.PlainText as spec;

use crate::plain::{is_flow_indicator, is_indicator};
use yq_core::is_text_char;
use yq_core::text::begins_marker;

/// Whether a plain scalar holds the character as it is.
pub fn is_plain_char(c: char) -> bool
    ensures { result ≡ spec.is_plain_char c }
{
    is_text_char(c) && !matches!(c, '\t' | '\n' | '\r' | '\u{85}' | '\u{2028}' | '\u{2029}')
}

/// In what a scalar's characters are as they are.
#[derive(Clone, Copy)]
pub enum Holder {
    Plain,
    /// Single quotes.
    Single,
    Literal,
}

/// Whether the character is there as it is.
fn holds(holder: Holder, c: char) -> bool
    ensures { result ≡ is_written_as_is holder c }
{
    match holder {
        Holder::Plain => is_plain_char(c),
        Holder::Single => is_plain_char(c) || c == '\t',
        Holder::Literal => is_plain_char(c) || c == '\t' || c == '\n',
    }
}

/// Whether each byte is a space or a visible character of ASCII.
fn is_visible_ascii(text: &[u8]) -> bool
    ensures { result ≡ list_all is_visible_ascii text.now }
{
    text.iter().all(|b| matches!(*b, b' '..=b'~'))
}

/// Whether each character is there as it is. Those of ASCII need not be told apart.
pub fn holds_each(holder: Holder, text: &str) -> bool
    ensures { result ≡ list_all (is_written_as_is holder) (chars text.now) }
{
    if is_visible_ascii(text.as_bytes()) {
        return true;
    }
    text.chars().all(|c| holds(holder, c))
}

/// Whether a plain scalar may begin so.
fn begins_plainly(text: &[u8]) -> bool
    ensures { result ≡ spec.begins_plainly text.now }
{
    match text {
        [] | [b' ', ..] | [b'-'] | [b'-', b' ', ..] => false,
        [b'-', ..] => true,
        [first, ..] => !is_indicator(*first),
    }
}

/// Whether the character in front, before what follows it, has to be in quotes.
fn needs_quotes(flow: bool, text: &[u8]) -> bool
    ensures { result ≡ spec.needs_quotes flow text.now }
{
    match text {
        [] => false,
        [b':'] | [b':', b' ', ..] | [b' '] | [b' ', b'#', ..] => true,
        [first, ..] => flow && is_flow_indicator(*first),
    }
}

/// Whether nothing in the text has to be in quotes.
fn needs_no_quotes(flow: bool, text: &[u8]) -> bool
    ensures { result ≡ spec.no_rest (spec.needs_quotes flow) text.now }
{
    let mut rest = text;
    'each: while let [_, after @ ..] = rest {
        if needs_quotes(flow, rest) {
            return false;
        }
        rest = after;
    }
    true
}

/// Whether the text is a merge key.
fn is_merge(text: &[u8]) -> bool
    ensures { result ≡ spec.is_merge text.now }
{
    text == b"<<".as_slice()
}

/// Whether the text may be written plain on one line, in flow or not.
pub fn is_plain_text(flow: bool, text: &str) -> bool
    ensures { result ≡ spec.is_plain_text flow text.now }
{
    let bytes = text.as_bytes();
    holds_each(Holder::Plain, text)
        && begins_plainly(bytes)
        && needs_no_quotes(flow, bytes)
        && !is_merge(bytes)
        && !begins_marker(bytes)
}
