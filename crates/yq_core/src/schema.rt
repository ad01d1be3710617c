//! The core schema: the kind of a plain scalar.
ghost use Rattle.std.specs.Prelude.{◌≡◌, ◌≤◌};
ghost use Rattle.yq_core.{specs.Schema.{null_words, bool_words, infinity_words, nan_words, Resolves}, specs.declared.kind.Kind.Kind};
ghost use Rattle.yq_core.specs.SchemaReading as spec;

use crate::kind::Kind;

/// The kind of a plain scalar of that text (YAML 1.2.2, section 10.3.2).
pub fn resolve(text: &str) -> Kind
    ensures exact { result ≡ spec.resolve text.now }
    ensures found { Resolves text.now result }
    ensures only { (kind : Kind) → Resolves text.now kind → result ≡ kind }
{
    kind_of(text)
}

/// Whether a text is a word for true (YAML 1.2.2, section 10.3.2).
pub fn is_true_word(text: &str) -> bool
    ensures { result ≡ spec.is_true_word text.now }
{
    matches!(text, "true" | "True" | "TRUE")
}

#[tactic(auto, unfolding(crate::specs::SchemaReading::resolve))]
fn kind_of(text: &str) -> Kind
    ensures { result ≡ spec.resolve text.now }
{
    if is_null(text) {
        Kind::Null
    } else if is_bool(text) {
        Kind::Bool
    } else if is_int(text.as_bytes()) {
        Kind::Int
    } else if is_float(text) {
        Kind::Float
    } else {
        Kind::Text
    }
}

fn is_null(text: &str) -> bool
    ensures { result ≡ spec.is_one_of null_words text.now }
{
    matches!(text, "null" | "Null" | "NULL" | "~" | "")
}

fn is_bool(text: &str) -> bool
    ensures { result ≡ spec.is_one_of bool_words text.now }
{
    matches!(text, "true" | "True" | "TRUE" | "false" | "False" | "FALSE")
}

fn is_infinity(text: &[u8]) -> bool
    ensures { result ≡ spec.is_one_of infinity_words text.now }
{
    text == b".inf".as_slice() || text == b".Inf".as_slice() || text == b".INF".as_slice()
}

fn is_nan(text: &str) -> bool
    ensures { result ≡ spec.is_one_of nan_words text.now }
{
    matches!(text, ".nan" | ".NaN" | ".NAN")
}

/// Whether the text begins with `0` and the letter of a base.
pub fn has_base(letter: u8, text: &[u8]) -> bool
    ensures { result ≡ spec.has_base letter text.now }
{
    match text {
        [b'0', second, ..] => *second == letter,
        _ => false,
    }
}

#[tactic(auto, using(crate::proofs::DigitLaws::has_two), unfolding(crate::specs::SchemaReading::is_int))]
fn is_int(text: &[u8]) -> bool
    ensures { result ≡ spec.is_int text.now }
{
    if has_base(b'o', text) {
        are_digits(8, text.split_at(2).1)
    } else if has_base(b'x', text) {
        are_digits(16, text.split_at(2).1)
    } else {
        are_digits(10, past_sign(text))
    }
}

#[tactic(auto, unfolding(crate::specs::SchemaReading::is_float))]
fn is_float(text: &str) -> bool
    ensures { result ≡ spec.is_float text.now }
{
    let after = past_sign(text.as_bytes());
    is_number(after) || is_infinity(after) || is_nan(text)
}

fn is_number(text: &[u8]) -> bool
    ensures { result ≡ spec.is_number text.now }
{
    let some = front_digit(text);
    match past_digits(10, text) {
        [] => some,
        [b'.', rest @ ..] => (some || front_digit(rest)) && is_exponent(past_digits(10, rest)),
        rest => some && is_exponent(rest),
    }
}

fn is_exponent(text: &[u8]) -> bool
    ensures { result ≡ spec.is_exponent text.now }
{
    match text {
        [] => true,
        [first, rest @ ..] => (*first == b'e' || *first == b'E') && are_digits(10, past_sign(rest)),
    }
}

fn front_digit(text: &[u8]) -> bool
    ensures { result ≡ spec.front_digit text.now }
{
    match text {
        [first, ..] => is_digit(10, *first),
        [] => false,
    }
}

/// The text after its sign, if it has one.
pub(crate) fn past_sign(text: &[u8]) -> &[u8]
    ensures { result.now ≡ spec.past_sign text.now }
{
    match text {
        [b'+' | b'-', rest @ ..] => rest,
        _ => text,
    }
}

/// Whether the text is digits of the base, and not empty.
pub fn are_digits(base: u32, text: &[u8]) -> bool
    requires low { 2 ≤ base }
    requires high { base ≤ 36 }
    ensures { result ≡ spec.are_digits base text.now }
{
    !text.is_empty() && past_digits(base, text).is_empty()
}

fn past_digits(base: u32, text: &[u8]) -> &[u8]
    requires low { 2 ≤ base }
    requires high { base ≤ 36 }
    ensures { result.now ≡ spec.past_digits base text.now }
{
    let mut n = 0;
    'digits: while n < text.len() && is_digit(base, text[n]) {
        n += 1;
    }
    text.split_at(n).1
}

fn is_digit(base: u32, byte: u8) -> bool
    requires low { 2 ≤ base }
    requires high { base ≤ 36 }
    ensures { result ≡ spec.is_digit base byte }
{
    char::from(byte).is_digit(base)
}
