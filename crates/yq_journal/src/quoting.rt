//! Strings of JSON, in the form in which they are written.
ghost use Rattle.std.{specs.Prelude.{◌≡◌, ◌<◌, ◌++◌, IfOk, IsTrue, OnOk}, specs.Char.digit_char, specs.String.string_bytes};
ghost use Rattle.json.specs.Print.{escape, escape_byte, escape_letter, quoted};

use crate::bare::is_bare_below;
use std::alloc::{AllocError, Global};

/// Whether JSON escapes none of these bytes, of which none is 255, as in any text in UTF-8.
pub(crate) fn is_bare(bytes: &[u8]) -> bool
    ensures { IsTrue result → escape bytes.now ≡ bytes.now }
{
    is_bare_below(u8::MAX, bytes)
}

/// The letter of a byte's short escape, or 0 where it has none.
fn escape_letter(byte: u8) -> u8
    ensures { result ≡ escape_letter byte }
{
    match byte {
        b'"' | b'\\' => byte,
        8 => b'b',
        12 => b'f',
        b'\n' => b'n',
        b'\r' => b'r',
        b'\t' => b't',
        _ => 0,
    }
}

/// The sign of a digit to the base of 16.
fn digit_sign(digit: u8) -> u8
    requires { digit < 16 }
    ensures { result ≡ digit_char digit }
{
    if digit < 10 {
        b'0' + digit
    } else {
        b'a' + (digit - 10)
    }
}

/// Adds what a byte is in a string.
#[tactic(auto, unfolding(json::specs::Print::escape_byte))]
fn push_escaped(text: &mut Vec<u8>, byte: u8) -> Result<(), AllocError>
    ensures { OnOk result (text.new.items ≡ text.old.items ++ escape_byte byte) }
{
    let letter = escape_letter(byte);
    if letter > 0 {
        return Ok(text.extend_from_slice(&[b'\\', letter])?);
    }
    if byte < 32 {
        let (high, low) = (digit_sign(byte / 16), digit_sign(byte % 16));
        return Ok(text.extend_from_slice(&[b'\\', b'u', b'0', b'0', high, low])?);
    }
    Ok(text.push(byte)?)
}

/// The string of JSON that a text is.
pub(crate) fn quoted_text(alloc: Global, text: &str) -> Result<String, AllocError>
    ensures { IfOk result (λ s. string_bytes s ≡ quoted text.now) }
{
    let bytes = text.as_bytes();
    let mut found = Vec::with_capacity(alloc, bytes.len())?;
    found.push(b'"')?;
    'bytes: for i in 0..bytes.len() {
        push_escaped(&mut found, bytes[i])?;
    }
    found.push(b'"')?;
    Ok(String::from_utf8(found).unwrap())
}

/// Adds a text as a JSON string (RFC 8259, section 7).
pub fn push_quoted(text: &mut String, alloc: Global, added: &str) -> Result<(), AllocError>
    ensures { OnOk result (string_bytes text.new ≡ string_bytes text.old ++ quoted added.now) }
{
    if is_bare(added.as_bytes()) {
        text.push_str("\"")?;
        text.push_str(added)?;
        text.push_str("\"")?;
        return Ok(());
    }
    let escaped = quoted_text(alloc, added)?;
    text.push_str(&escaped)?;
    Ok(())
}
