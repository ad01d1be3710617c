//! Texts as they are printed, so that no terminal acts on them.
ghost use Rattle.yq_core.specs.Strings.{AddsText};
ghost use Rattle.std.{specs.Prelude.{◌≡◌, ◌%◌, IfOk}, specs.Bool.OnTrue, specs.Char.digit_char, specs.String.string_bytes};
ghost use Rattle.json.specs.Print.{quoted};
ghost use Rattle.yq_history.specs.Visible as spec;

use std::alloc::{AllocError, Global};
use yq_journal::is_bare_below;

/// The first byte of ASCII from which on none is printed as it is for sure: DEL.
const DEL: u8 = 0x7f;

/// Whether a text is printed as it is between quotes.
pub fn is_bare(text: &[u8]) -> bool
    ensures { OnTrue result (spec.visible (quoted text.now) ≡ spec.in_quotes text.now) }
{
    is_bare_below(DEL, text)
}

/// Whether a character is a control that JSON leaves as it is, separates lines, or turns the direction of
/// the text after it.
fn is_hidden(c: char) -> bool
    ensures { result ≡ spec.is_hidden c }
{
    let code = u32::from(c);
    0x7f <= code && code <= 0x9f
        || code == 0x061c
        || 0x200e <= code && code <= 0x200f
        || 0x2028 <= code && code <= 0x202e
        || 0x2066 <= code && code <= 0x2069
}

/// The last hexadecimal digit of a number.
fn last_digit(code: u32) -> char
    ensures { result ≡ digit_char (code % 16) }
{
    char::from_digit(code % 16, 16).unwrap()
}

/// Adds a character below 2^16 as it is escaped in a JSON string.
fn push_escaped(text: &mut String, c: char) -> Result<(), AllocError>
    ensures { AddsText result text.old text.new (spec.escaped_char c) }
{
    let code = u32::from(c);
    text.push_str("\\u")?;
    text.push(last_digit(code / 4096))?;
    text.push(last_digit(code / 256))?;
    text.push(last_digit(code / 16))?;
    text.push(last_digit(code))
}

/// Adds a character as it is printed in a JSON string.
fn push_visible(text: &mut String, c: char) -> Result<(), AllocError>
    ensures { AddsText result text.old text.new (spec.visible_char c) }
{
    if is_hidden(c) {
        push_escaped(text, c)
    } else {
        text.push(c)
    }
}

/// A JSON string as it is printed. It means the same.
pub fn visible(alloc: Global, string: &str) -> Result<String, AllocError>
    ensures { IfOk result (λ s. string_bytes s ≡ spec.visible string.now) }
{
    let mut text = String::with_capacity(alloc, string.len())?;
    'each: for c in string.chars() {
        push_visible(&mut text, c)?;
    }
    Ok(text)
}
