//! What keys mean, as they are written in rows.
ghost use Rattle.std.specs.Prelude.{◌<◌, IfSome, length};

use std::alloc::{AllocError, Global};
use std::collections::BTreeMap;
use yq_scalar_reader::quoted::escape;

/// What is between two quotes.
fn unquoted(key: &str, quote: char) -> Option<&str> {
    key.strip_prefix(quote)?.strip_suffix(quote)
}

/// A key without its quotes, and what begins an escape in it; nothing of a plain one.
fn in_quotes(key: &str) -> Option<(&str, char)> {
    if let Some(inner) = unquoted(key, '"') {
        return Some((inner, '\\'));
    }
    Some((unquoted(key, '\'')?, '\''))
}

/// A text in two at its first escape, and the character that this means.
fn split_escape(text: &str, sign: char) -> Option<(&str, char, &str)>
    ensures { IfSome result (λ x. length x.2.now < length text.now) }
{
    let (front, after) = text.split_once(sign)?;
    let (meant, len) = if sign == '\\' {
        escape(after.as_bytes())?
    } else {
        (sign, 1)
    };
    let (_, left) = after.split_at_checked(len)?;
    Some((front, meant, left))
}

/// A text with its escapes replaced by what they mean.
fn unescaped(alloc: Global, text: &str, sign: char) -> Result<String, AllocError> {
    let mut meant = String::with_capacity(alloc, text.len())?;
    let mut rest = text;
    'escapes: while let Some((front, c, left)) = split_escape(rest, sign) {
        meant.push_str(front)?;
        meant.push(c)?;
        rest = left;
    }
    meant.push_str(rest)?;
    Ok(meant)
}

/// The number of a key that is written so, if it has one.
pub(crate) fn number_of(
    alloc: Global,
    numbers: &BTreeMap<&str, usize>,
    key: &str,
) -> Result<Option<usize>, AllocError> {
    let Some((inner, sign)) = in_quotes(key) else {
        return Ok(numbers.get(key).copied());
    };
    if !inner.contains(sign) {
        return Ok(numbers.get(inner).copied());
    }
    let meant = unescaped(alloc, inner, sign)?;
    Ok(numbers.get(meant.as_str()).copied())
}

/// Whether this is a key that is written so, if that is without escapes.
pub(crate) fn is_key(written: &str, key: &str) -> bool {
    match in_quotes(written) {
        Some((inner, sign)) => inner == key && !inner.contains(sign),
        None => written == key,
    }
}
