//! Scalars as they are written in quotes.
ghost use Rattle.std.specs.Prelude.{◌≡◌, ◌<◌, ◌∷◌, [], true};
ghost use Rattle.yq_core.{specs.Writable.can_write, specs.Strings.{AddsText, GivesText}};
ghost use Rattle.yq_scalar.specs.QuotedTexts.{char_in_quotes, text_in_quotes};
ghost use Rattle.yq_core.specs.Written as spec;

use std::alloc::{AllocError, Global};
use yq_core::{Place, Scalar, Style, is_text_char};

/// The letter that comes after a backslash for the character.
fn letter_of(c: char) -> Option<char>
    ensures { result ≡ spec.letter_of c spec.written_letters }
{
    match c {
        '"' => Some('"'),
        '\\' => Some('\\'),
        '\0' => Some('0'),
        '\u{7}' => Some('a'),
        '\u{8}' => Some('b'),
        '\t' => Some('t'),
        '\n' => Some('n'),
        '\u{b}' => Some('v'),
        '\u{c}' => Some('f'),
        '\r' => Some('r'),
        '\u{1b}' => Some('e'),
        '\u{85}' => Some('N'),
        '\u{2028}' => Some('L'),
        '\u{2029}' => Some('P'),
        _ => None,
    }
}

/// Adds a hexadecimal digit.
fn push_digit(out: &mut String, digit: u32) -> Result<(), AllocError>
    requires { digit < 16 }
    ensures { AddsText result out.old out.new (spec.upper digit ∷ []) }
{
    let first = if digit < 10 { b'0' } else { b'7' };
    out.push(char::from(first + digit as u8))
}

/// Adds a character by its number.
fn push_code(out: &mut String, code: u32) -> Result<(), AllocError>
    ensures { AddsText result out.old out.new (spec.code_escape code) }
{
    if code < 256 {
        out.push_str("\\x")?;
        push_digit(out, code / 16 % 16)?;
        return push_digit(out, code % 16);
    }
    out.push_str("\\u")?;
    push_digit(out, code / 4096 % 16)?;
    push_digit(out, code / 256 % 16)?;
    push_digit(out, code / 16 % 16)?;
    push_digit(out, code % 16)
}

/// Adds a character in double quotes.
fn push_double(out: &mut String, c: char) -> Result<(), AllocError>
    ensures { AddsText result out.old out.new (spec.in_double c) }
{
    match letter_of(c) {
        Some(letter) => {
            out.push('\\')?;
            out.push(letter)
        }
        None => {
            if is_text_char(c) {
                out.push(c)
            } else {
                push_code(out, c as u32)
            }
        }
    }
}

/// Adds a character in these quotes, double or single ones.
fn push_quoted(out: &mut String, quote: char, c: char) -> Result<(), AllocError>
    ensures { AddsText result out.old out.new (char_in_quotes quote c) }
{
    if quote == '"' {
        push_double(out, c)
    } else if c == '\'' {
        out.push_str("''")
    } else {
        out.push(c)
    }
}

/// A string in these quotes, double or single ones.
fn write_quoted(alloc: Global, text: &str, quote: char) -> Result<String, AllocError>
    ensures { GivesText result (text_in_quotes quote text.now) }
{
    let mut out = String::new(alloc);
    out.push(quote)?;
    'each: for c in text.chars() {
        push_quoted(&mut out, quote, c)?;
    }
    out.push(quote)?;
    Ok(out)
}

/// The scalar in plain, single or double style, at a place where that style can write it.
pub fn write_scalar(
    alloc: Global,
    scalar: &Scalar,
    style: Style,
    place: Place,
) -> Result<String, AllocError>
    requires can { can_write scalar.now style place ≡ true }
    requires inline { spec.IsOneLine style }
    ensures { GivesText result (spec.written_scalar style scalar.now.text) }
{
    match style {
        Style::Single => write_quoted(alloc, scalar.text(), '\''),
        Style::Double => write_quoted(alloc, scalar.text(), '"'),
        Style::Plain | Style::Literal | Style::Folded => String::from_str(alloc, scalar.text()),
    }
}
