//! The words that ask for lines about a refusal, or about a code.

/// Whether `--explain` is one of the options: lines about a refusal are asked for.
pub fn asks_lines(words: &[&str]) -> bool {
    'words: for word in words {
        match *word {
            "--explain" => return true,
            "--" => return false,
            _ => {}
        }
    }
    false
}

/// The code of which alone the words ask.
pub fn asked_code<'w>(words: &[&'w str]) -> Option<&'w str> {
    match words {
        ["--explain", code] if is_code(code) => Some(code),
        _ => None,
    }
}

/// Whether a word is written as codes are: a capital letter and a number.
fn is_code(word: &str) -> bool {
    match word.as_bytes() {
        [letter, digit, ..] => letter.is_ascii_uppercase() && digit.is_ascii_digit(),
        _ => false,
    }
}
