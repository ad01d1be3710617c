//! Quoted scalars (YAML 1.2.2, sections 5.7, 7.3.1 and 7.3.2).
ghost use Rattle.std.specs.Prelude.{◌≡◌, ◌==◌, ◌++◌, ◌+◌, ◌*◌, ◌<◌, ◌≤◌, length, None, Some, Result, Ok, Err, IfErr, IfOk};
ghost use Rattle.std.{specs.Option.{IfSome, option_map}, specs.Str.IsCharBoundary};
ghost use Rattle.yq_core.{specs.Answers.ReadsAs, specs.Quoted.{letters, beside, IsQuotedText}};
ghost use Rattle.yq_core.specs.declared.fault.FaultKind.TheVariants.{BadScalar};
ghost use Rattle.yq_core.specs.QuotedReading as spec;

use yq_core::text::{is_break, is_marker};
use yq_core::{FaultKind, Run, run_len};

/// The value of a hexadecimal digit.
fn hex_digit(b: u8) -> Option<u32>
    ensures { result ≡ spec.hex_digit b }
{
    char::from(b).to_digit(16)
}

/// The character that the letter after a backslash means.
fn char_of(b: u8) -> Option<char>
    ensures { result ≡ beside b letters }
{
    match b {
        b'"' => Some('"'),
        b'\\' => Some('\\'),
        b'0' => Some('\0'),
        b'a' => Some('\u{7}'),
        b'b' => Some('\u{8}'),
        b't' | b'\t' => Some('\t'),
        b'n' => Some('\n'),
        b'v' => Some('\u{b}'),
        b'f' => Some('\u{c}'),
        b'r' => Some('\r'),
        b'e' => Some('\u{1b}'),
        b'N' => Some('\u{85}'),
        b'L' => Some('\u{2028}'),
        b'P' => Some('\u{2029}'),
        b'_' => Some('\u{a0}'),
        b'/' => Some('/'),
        b' ' => Some(' '),
        _ => None,
    }
}

/// The number that two digits spell after `front`.
#[tactic(auto, unfolding(yq_core::specs::QuotedReading::hex), using(yq_core::proofs::EscapeLaws::digit_below))]
fn hex_two(front: u32, text: &[u8]) -> Option<u32>
    requires { front < 16777216 }
    ensures value { result ≡ spec.hex 2 front text.now }
    ensures below { IfSome result (λ v. v < (front + 1) * 256) }
{
    let [first, second, ..] = text else {
        return None;
    };
    let high = hex_digit(*first)?;
    let low = hex_digit(*second)?;
    Some((front * 16 + high) * 16 + low)
}

/// The number that four digits spell after `front`.
fn hex_four(front: u32, text: &[u8]) -> Option<u32>
    requires { front < 65536 }
    ensures { result ≡ spec.hex 4 front text.now }
{
    let high = hex_two(front, text)?;
    hex_two(high, text.split_at(2).1)
}

/// The number that six digits spell after `front`.
fn hex_six(front: u32, text: &[u8]) -> Option<u32>
    requires { front < 256 }
    ensures { result ≡ spec.hex 6 front text.now }
{
    let high = hex_two(front, text)?;
    hex_four(high, text.split_at(2).1)
}

/// The number that eight digits spell.
fn hex_eight(text: &[u8]) -> Option<u32>
    ensures { result ≡ spec.hex 8 0 text.now }
{
    let high = hex_two(0, text)?;
    hex_six(high, text.split_at(2).1)
}

/// The character of that number, and how many bytes its letter and digits are.
fn coded(digits: usize, code: Option<u32>) -> Option<(char, usize)>
    requires { digits < 9 }
    ensures { result ≡ spec.coded digits code }
{
    let c = char::from_u32(code?)?;
    Some((c, digits + 1))
}

/// The character that an escape means, and its length, after the backslash.
#[tactic(auto, unfolding(yq_core::specs::QuotedReading::leading_escape))]
pub fn escape(text: &[u8]) -> Option<(char, usize)>
    ensures { result ≡ spec.leading_escape text.now }
{
    let [letter, digits @ ..] = text else {
        return None;
    };
    match letter {
        b'x' => coded(2, hex_two(0, digits)),
        b'u' => coded(4, hex_four(0, digits)),
        b'U' => coded(8, hex_eight(digits)),
        _ => Some((char_of(*letter)?, 1)),
    }
}

/// Whether the quote in front closes the scalar.
fn closes(quote: u8, text: &[u8]) -> bool
    ensures { result ≡ spec.closes quote text.now }
{
    match text {
        [] => false,
        [first, rest @ ..] => *first == quote && !(quote == b'\'' && matches!(rest, [b'\'', ..])),
    }
}

/// How many bytes after the first belong to it.
fn past_first(quote: u8, first: u8, rest: &[u8]) -> Option<usize>
    ensures { result ≡ spec.escape_len quote first rest.now }
{
    if first == b'\n' && is_marker(rest) {
        return None;
    }
    if quote == b'"' && first == b'\\' {
        if is_break(rest) {
            Some(0)
        } else {
            Some(escape(rest)?.1)
        }
    } else if first == quote {
        Some(1)
    } else {
        Some(0)
    }
}

/// How far it is to the quote that closes, in bytes.
#[inline(always)]
#[tactic(auto, unfolding(yq_core::specs::QuotedReading::quoted_len))]
fn quoted_len(quote: u8, text: &[u8]) -> Option<usize>
    ensures value { result ≡ spec.quoted_len quote 0 text.now }
    ensures within { IfSome result (λ n. n < length text.now) }
{
    let mut n = 0;
    let mut rest = text;
    'each: loop {
        let run = run_len(Run::Quoted(quote), rest);
        n += run;
        let next = rest.split_at(run).1;
        let [first, after @ ..] = next else {
            return None;
        };
        if closes(quote, next) {
            return Some(n);
        }
        let k = past_first(quote, *first, after)?;
        n += k + 1;
        rest = after.split_at(k).1;
    }
}

/// How long the quoted scalar in front is, with its quotes, in bytes.
#[inline(always)]
fn scalar_len(text: &[u8]) -> Option<usize>
    ensures value { result ≡ spec.scalar_len text.now }
    ensures within { IfSome result (λ n. n ≤ length text.now) }
{
    match text {
        [quote @ (b'"' | b'\''), inner @ ..] => Some(quoted_len(*quote, inner)? + 2),
        _ => None,
    }
}

/// The text cut after the quoted scalar in front: the scalar with its quotes, and what follows it.
#[inline(always)]
fn cut_quoted(text: &str) -> Option<(&str, &str)>
    ensures { option_map (λ x. (x.0.now, x.1.now)) result ≡ spec.quoted_at text.now }
{
    let n = scalar_len(text.as_bytes())?;
    Some(text.split_at(n))
}

/// The quoted scalar in front of the text, with its quotes, and what follows it; the fault is
/// [`FaultKind::BadScalar`], where no scalar is in front or it isn't closed.
#[inline(always)]
pub fn split_quoted(text: &str) -> Result<(&str, &str), FaultKind>
    ensures exact { ReadsAs (λ x. (x.0.now, x.1.now)) result (spec.quoted_at text.now) }
    ensures found { IfOk result (λ x. IsQuotedText x.0.now) }
    ensures fault { IfErr result (λ kind. kind ≡ BadScalar) }
{
    match cut_quoted(text) {
        Some(x) => Ok(x),
        None => Err(FaultKind::BadScalar),
    }
}
