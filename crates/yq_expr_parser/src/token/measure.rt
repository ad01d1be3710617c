//! The form and the length of a token.
ghost use Rattle.std.{specs.Char.is_ascii_digit, specs.List.prefix_len};
ghost use Rattle.std.specs.Prelude.{◌≡◌, ◌==◌, ◌&&◌, ◌+◌, ◌^◌, ◌<◌, ◌≤◌, length, is_some, IfSome};
ghost use Rattle.yq_core.{specs.Text.front, specs.SchemaReading.is_one_of};
ghost use Rattle.yq_semantics.specs.Tokens.{is_name_byte};
ghost use Rattle.yq_expr_parser.specs.Lexing as spec;
ghost use Rattle.yq_semantics.specs.Tokens as grammar;

use super::TokenForm;

fn is_escape(b: u8) -> bool
    ensures { result ≡ is_some (grammar.escaped_character b) }
{
    matches!(b, b'"' | b'\\' | b'n' | b't' | b'r')
}

/// After an opening quote: whether there is a `\(`, and how far it is to after the closing quote.
#[tactic(auto, unfolding(crate::specs::Lexing::closing, crate::specs::Lexing::escaping))]
fn closing(text: &[u8]) -> Option<(bool, usize)>
    ensures value { result ≡ spec.closing text.now }
    ensures within { IfSome result (λ x. x.1 ≤ length text.now) }
{
    let mut foreign = false;
    let mut len = 0;
    let mut rest = text;
    'bytes: loop {
        match rest {
            [b'"', ..] => return Some((foreign, len + 1)),
            [b'\\', b'(', after @ ..] => {
                foreign = true;
                len += 2;
                rest = after;
            }
            [b'\\', b, after @ ..] if is_escape(*b) => {
                len += 2;
                rest = after;
            }
            [] | [b'\\', ..] => return None,
            [_, after @ ..] => {
                len += 1;
                rest = after;
            }
        }
    }
}

fn begins_name(b: u8) -> bool
    ensures { result ≡ grammar.begins_name b }
{
    b.is_ascii_alphabetic() || b == b'_'
}

fn is_name_char(b: u8) -> bool
    ensures { result ≡ is_name_byte b }
{
    b.is_ascii_alphanumeric() || b == b'_' || b == b'-'
}

fn name_len(text: &[u8]) -> usize
    ensures value { result ≡ prefix_len is_name_byte text.now }
    ensures within { result ≤ length text.now }
{
    let mut n = 0;
    'name: while n < text.len() && is_name_char(text[n]) {
        n += 1;
    }
    n
}

fn digits_len(text: &[u8]) -> usize
    ensures value { result ≡ prefix_len is_ascii_digit text.now }
    ensures within { result ≤ length text.now }
{
    let mut n = 0;
    'digits: while n < text.len() && text[n].is_ascii_digit() {
        n += 1;
    }
    n
}

fn begins_number(text: &[u8]) -> bool
    ensures { result ≡ front is_ascii_digit text.now }
{
    match text {
        [b, ..] => b.is_ascii_digit(),
        [] => false,
    }
}

fn fraction_len(text: &[u8]) -> usize
    ensures value { result ≡ spec.fraction_len text.now }
    ensures within { result ≤ length text.now }
{
    match text {
        [b'.', digits @ ..] if begins_number(digits) => 1 + digits_len(digits),
        _ => 0,
    }
}

fn number_len(text: &[u8]) -> usize
    ensures value { result ≡ spec.number_len text.now }
    ensures within { result ≤ length text.now }
{
    let digits = digits_len(text);
    digits + fraction_len(text.split_at(digits).1)
}

fn is_call_word(name: &[u8]) -> bool
    ensures { result ≡ is_one_of grammar.call_words name.now }
{
    name == b"select".as_slice() || name == b"del".as_slice() || name == b"has".as_slice()
}

fn is_place_word(name: &[u8]) -> bool
    ensures { result ≡ is_one_of grammar.place_words name.now }
{
    name == b"di".as_slice()
        || name == b"document_index".as_slice()
        || name == b"line_comment".as_slice()
        || name == b"head_comment".as_slice()
}

fn is_scalar_word(name: &[u8]) -> bool
    ensures { result ≡ is_one_of grammar.scalar_words name.now }
{
    name == b"true".as_slice() || name == b"false".as_slice() || name == b"null".as_slice()
}

fn is_word(name: &[u8]) -> bool
    ensures { result ≡ grammar.is_keyword name.now }
{
    is_call_word(name) || is_place_word(name) || is_scalar_word(name)
}

/// A string of that form with so many bytes before it, or a foreign token.
fn quoted(
    form: TokenForm,
    before: usize,
    closed: Option<(bool, usize)>,
) -> Option<(TokenForm, usize)>
    requires { IfSome closed (λ x. before + x.1 < 2 ^ 64) }
    ensures { result ≡ spec.quoted form before closed }
{
    let (foreign, len) = closed?;
    Some((
        if foreign { TokenForm::Foreign } else { form },
        before + len,
    ))
}

/// The token that begins with a dot, from after the dot.
fn dotted(text: &[u8]) -> Option<(TokenForm, usize)>
    ensures { result ≡ spec.dotted text.now }
{
    match text {
        [b'.', ..] => Some((TokenForm::Foreign, 2)),
        [b'"', rest @ ..] => quoted(TokenForm::Quoted, 2, closing(rest)),
        [b, ..] if begins_name(*b) => Some((TokenForm::Name, 1 + name_len(text))),
        _ => Some((TokenForm::Symbol, 1)),
    }
}

fn named(text: &[u8]) -> Option<(TokenForm, usize)>
    ensures { result ≡ spec.read_word text.now }
{
    let len = name_len(text);
    let form = if is_word(text.split_at(len).0) {
        TokenForm::Symbol
    } else {
        TokenForm::Foreign
    };
    Some((form, len))
}

fn is_mark(b: u8) -> bool
    ensures { result ≡ grammar.is_mark_character b }
{
    matches!(
        b,
        b'.' | b'[' | b']' | b'(' | b')' | b'{' | b'}' | b',' | b':' | b'|' | b'=' | b'+'
    )
}

fn is_foreign(b: u8) -> bool
    ensures { result ≡ grammar.is_foreign b }
{
    matches!(
        b,
        b'*' | b'/'
            | b'%'
            | b'<'
            | b'>'
            | b'$'
            | b';'
            | b'?'
            | b'@'
            | b'&'
            | b'~'
            | b'^'
            | b'!'
            | b'-'
    )
}

/// The mark or the foreign character in front.
fn marked(first: u8, rest: &[u8]) -> Option<(TokenForm, usize)>
    ensures { result ≡ spec.marked first rest.now }
{
    if matches!(first, b'|' | b'+' | b'=' | b'!') && matches!(rest, [b'=', ..]) {
        Some((TokenForm::Symbol, 2))
    } else if is_mark(first) {
        Some((TokenForm::Symbol, 1))
    } else if is_foreign(first) {
        Some((TokenForm::Foreign, 1))
    } else {
        None
    }
}

/// The word, the foreign name, the mark or the foreign character in front.
fn worded(text: &[u8]) -> Option<(TokenForm, usize)>
    ensures { result ≡ spec.worded text.now }
{
    match text {
        [first, ..] if begins_name(*first) => named(text),
        [first, rest @ ..] => marked(*first, rest),
        [] => None,
    }
}

fn is_negative(first: u8, rest: &[u8]) -> bool
    ensures { result ≡ (first == 45 && front is_ascii_digit rest.now) }
{
    first == b'-' && begins_number(rest)
}

/// The form and the length of the token in front.
#[tactic(auto, unfolding(crate::specs::Lexing::token_measure))]
pub(super) fn measure(text: &[u8]) -> Option<(TokenForm, usize)>
    ensures { result ≡ spec.token_measure text.now }
{
    let [first, rest @ ..] = text else {
        return None;
    };
    if *first == b'"' {
        quoted(TokenForm::Text, 1, closing(rest))
    } else if *first == b'.' {
        dotted(rest)
    } else if is_negative(*first, rest) {
        Some((TokenForm::Number, 1 + number_len(rest)))
    } else if first.is_ascii_digit() {
        Some((TokenForm::Number, number_len(text)))
    } else {
        worded(text)
    }
}
