//! An expression, parted at the token at fault.

/// An expression, parted at the token at fault.
#[derive(Clone, Copy)]
pub struct Parts<'e> {
    /// What is before the token.
    pub before: &'e str,
    /// A word, or a mark of one character or of two that are equal.
    pub token: &'e str,
    pub after: &'e str,
}

/// A text in two at a place; whole, and nothing after it, where it has no such place.
pub fn in_two(text: &str, at: usize) -> (&str, &str) {
    text.split_at_checked(at).unwrap_or((text, ""))
}

/// Whether a character is one of words.
pub fn is_word_char(c: char) -> bool {
    c.is_alphanumeric() || c == '_'
}

/// Whether a character can be one of a value without quotes.
fn is_value_char(c: char) -> bool {
    is_word_char(c) || matches!(c, '.' | '-' | '/' | '@' | '~')
}

/// How many bytes the first mark has: one character, or two where these are equal.
fn mark_len(text: &str) -> usize {
    let mut chars = text.chars();
    match (chars.next(), chars.next()) {
        (Some(first), Some(second)) if first == second => first.len_utf8().saturating_mul(2),
        (Some(first), _) => first.len_utf8(),
        (None, _) => 0,
    }
}

/// An expression, parted where its token at fault begins.
pub fn parted(expr: &str, at: usize) -> Parts<'_> {
    let (before, rest) = in_two(expr, at);
    let word = rest
        .len()
        .saturating_sub(rest.trim_start_matches(is_word_char).len());
    let (token, after) = in_two(rest, if word > 0 { word } else { mark_len(rest) });
    Parts {
        before,
        token,
        after,
    }
}

/// The same, parted at the whole value without quotes that goes on at this place.
pub fn parted_at_value(expr: &str, at: usize) -> Parts<'_> {
    let before = in_two(expr, at).0.trim_end_matches(is_value_char);
    let rest = in_two(expr, before.len()).1;
    let after = rest.trim_start_matches(is_value_char);
    Parts {
        before,
        token: in_two(rest, rest.len().saturating_sub(after.len())).0,
        after,
    }
}

/// The last character of a text, less white space at its end.
pub fn last_char(text: &str) -> Option<char> {
    text.trim_end().chars().last()
}

/// The first character of a text that is no white space.
pub fn first_char(text: &str) -> Option<char> {
    text.trim_start().chars().next()
}
