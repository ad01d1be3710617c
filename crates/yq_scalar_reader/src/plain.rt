//! Plain scalars (YAML 1.2.2, section 7.3.3).
ghost use Rattle.std.{specs.List.prefix_len, specs.Prelude.{◌≡◌, ◌==◌, ◌≤◌, false, length, take, true}};
ghost use Rattle.yq_core.specs.Text.{cut, upto};
ghost use Rattle.yq_core.specs.Plain as spec;
ghost use Rattle.yq_core.specs.PlainReading as reading;
ghost use Rattle.yq_scalar_reader.specs.Words as words;

use yq_core::characters::holds_byte;
use yq_core::text::{is_break, is_marker, is_space, separates, whites_len};
use yq_core::{Run, is_white, run_len, spaces_len};

/// `,`, `[`, `]`, `{` or `}`.
pub fn is_flow_indicator(b: u8) -> bool
    ensures { result ≡ spec.is_flow_indicator b }
{
    matches!(b, b',' | b'[' | b']' | b'{' | b'}')
}

/// One of the characters that say what follows them.
pub fn is_indicator(b: u8) -> bool
    ensures { result ≡ spec.is_indicator b }
{
    is_flow_indicator(b)
        || matches!(
            b,
            b'-' | b'?'
                | b':'
                | b'#'
                | b'&'
                | b'*'
                | b'!'
                | b'|'
                | b'>'
                | b'\''
                | b'"'
                | b'%'
                | b'@'
                | b'`'
        )
}

/// Whether a safe character is in front.
fn is_safe(flow: bool, text: &[u8]) -> bool
    ensures { result ≡ spec.is_safe flow text.now }
{
    !separates(text) && !(flow && matches!(text, [b',' | b'[' | b']' | b'{' | b'}', ..]))
}

/// Whether a plain scalar has to end before the character in front.
fn ends_text(flow: bool, text: &[u8]) -> bool
    ensures { result ≡ spec.ends_text flow text.now }
{
    match text {
        [] => false,
        [b':', rest @ ..] => !is_safe(flow, rest),
        [first, ..] => flow && is_flow_indicator(*first),
    }
}

/// Whether a further line may begin so, which so many spaces begin.
fn begins_deep(spaces: Option<usize>, indent: usize, line: &[u8]) -> bool
    requires { indent ≡ prefix_len (λ b. b == 32) line.now }
    ensures { result ≡ spec.begins_deep spaces line.now }
{
    match spaces {
        None => false,
        Some(least) => least <= indent && !is_marker(line),
    }
}

/// How far it is over white space and breaks to where the scalar goes on.
#[tactic(auto, using(yq_core::proofs::Bools::more_steps), unfolding(yq_core::specs::PlainReading::across))]
fn across(flow: bool, spaces: Option<usize>, text: &[u8]) -> Option<usize>
    ensures { result ≡ reading.across flow spaces true text.now }
{
    let mut n = 0;
    let mut rest = text;
    let mut deep = true;
    'each: while let [first, after @ ..] = rest {
        if is_white(*first) {
            let run = whites_len(rest);
            n += run;
            rest = rest.split_at(run).1;
        } else if *first == b'\n' {
            let indent = spaces_len(after);
            deep = begins_deep(spaces, indent, after);
            n += 1;
            n += indent;
            rest = after.split_at(indent).1;
        } else if is_break(rest) {
            n += 1;
            rest = after;
        } else if *first != b'#' && !ends_text(flow, rest) && deep {
            return Some(n);
        } else {
            return None;
        }
    }
    None
}

/// Whether one space is in front, and after it a letter, a digit or no ASCII.
fn begins_word(text: &[u8]) -> bool
    ensures { result ≡ words.begins_word text.now }
{
    matches!(text, [b' ', b'a'..=b'z' | b'A'..=b'Z' | b'0'..=b'9' | 128..=255, ..])
}

/// How far it is over white space and breaks to where the scalar goes on: most often one space.
#[inline(always)]
fn across_words(flow: bool, spaces: Option<usize>, text: &[u8]) -> Option<usize>
    ensures { result ≡ reading.across flow spaces true text.now }
{
    if begins_word(text) {
        return Some(1);
    }
    across(flow, spaces, text)
}

/// Whether a plain scalar may begin in front.
#[inline(always)]
pub fn begins_plain(flow: bool, text: &[u8]) -> bool
    ensures { result ≡ spec.begins_plain flow text.now }
{
    let [first, rest @ ..] = text else {
        return false;
    };
    if first.is_ascii_alphanumeric() {
        return true;
    }
    if is_space(text) {
        return false;
    }
    if matches!(first, b'-' | b'?' | b':') {
        return is_safe(flow, rest);
    }
    !is_indicator(*first)
}

/// How far a plain scalar in front goes on, in bytes.
#[inline(always)]
pub fn plain_len(flow: bool, spaces: Option<usize>, text: &[u8]) -> usize
    ensures { result ≡ upto (spec.ends_plain flow spaces) text.now }
{
    let mut n = 0;
    let mut rest = text;
    'each: loop {
        let run = run_len(Run::Plain, rest);
        n += run;
        let next = rest.split_at(run).1;
        let [_, after @ ..] = next else {
            return n;
        };
        if is_space(next) {
            if let Some(k) = across_words(flow, spaces, next) {
                n += k;
                rest = next.split_at(k).1;
            } else {
                return n;
            }
        } else if ends_text(flow, next) {
            return n;
        } else {
            n += 1;
            rest = after;
        }
    }
}

/// Whether a plain scalar outside flow collections goes on over the byte in front, whatever the next lines are: one
/// space before a word, or what is neither white space nor its end.
#[inline(always)]
fn goes_on(text: &[u8]) -> bool
    ensures { result ≡ words.goes_on text.now }
{
    if begins_word(text) {
        return true;
    }
    !text.is_empty() && !is_space(text) && !ends_text(false, text)
}

/// How far a plain scalar outside flow collections goes on for sure on its line, in bytes.
#[inline(always)]
pub fn words_len(text: &[u8]) -> usize
    ensures value { words.GoesOnOver result text.now }
    ensures line { spec.holds_break (take result text.now) ≡ false }
    ensures within { result ≤ length text.now }
{
    let mut n = 0;
    let mut rest = text;
    'each: loop {
        let run = run_len(Run::Plain, rest);
        n += run;
        let next = rest.split_at(run).1;
        if !goes_on(next) {
            return n;
        }
        n += 1;
        rest = next.split_at(1).1;
    }
}

/// The text cut where a plain scalar in front has to end. `flow` says that it is in a flow
/// collection, and `spaces` with how many spaces a further line of it begins at least; with `None`
/// it has one line.
#[inline(always)]
pub fn split_plain(flow: bool, spaces: Option<usize>, text: &str) -> (&str, &str)
    ensures { (result.0.now, result.1.now) ≡ cut (spec.ends_plain flow spaces) text.now }
{
    text.split_at(plain_len(flow, spaces, text.as_bytes()))
}

/// Whether a break is in the text.
pub fn holds_break(text: &str) -> bool
    ensures { result ≡ spec.holds_break text.now }
{
    holds_byte(b'\n', text.as_bytes())
}
