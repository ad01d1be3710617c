//! Words where a command's name may be, and name none.

/// The names of commands, and in what the line on a word ends that is near one.
const NAMES: [(&str, &str); 5] = [
    ("undo", ": did you mean 'undo'?"),
    ("redo", ": did you mean 'redo'?"),
    ("history", ": did you mean 'history'?"),
    ("squash", ": did you mean 'squash'?"),
    ("eval", ": did you mean 'eval'?"),
];

/// Words of other programs, and in what the line on each of them ends; `%` means the program.
const OTHERS: [(&str, &str); 18] = [
    ("eval-all", ": each run reads one FILE"),
    ("ea", ": each run reads one FILE"),
    ("log", ": did you mean 'history'?"),
    ("revert", ": did you mean 'undo'?"),
    ("read", ": '% EXPR FILE' prints what EXPR reads"),
    ("get", ": '% EXPR FILE' prints what EXPR reads"),
    ("show", ": '% EXPR FILE' prints what EXPR reads"),
    ("print", ": '% EXPR FILE' prints what EXPR reads"),
    ("r", ": '% EXPR FILE' prints what EXPR reads"),
    ("write", ": '% -i EXPR FILE' edits FILE"),
    ("set", ": '% -i EXPR FILE' edits FILE"),
    ("edit", ": '% -i EXPR FILE' edits FILE"),
    ("w", ": '% -i EXPR FILE' edits FILE"),
    ("delete", ": '% -i del(PATH) FILE' edits FILE"),
    ("d", ": '% -i del(PATH) FILE' edits FILE"),
    ("diff", ": '% --diff EXPR FILE' shows what EXPR changes"),
    ("version", ": '% --help' shows the version"),
    ("help", ": did you mean '--help'?"),
];

/// How many bytes at their beginnings two words share.
fn common_front(word: &[u8], name: &[u8]) -> usize {
    let pairs = word.iter().zip(name.iter());
    pairs.take_while(|pair| pair.0 == pair.1).count()
}

/// How many bytes at their ends two words share.
fn common_end(word: &[u8], name: &[u8]) -> usize {
    let pairs = word.iter().rev().zip(name.iter().rev());
    pairs.take_while(|pair| pair.0 == pair.1).count()
}

/// The sum of the bytes of a word.
fn sum_of(word: &[u8]) -> u64 {
    let mut sum = 0u64;
    'bytes: for b in word {
        sum = sum.saturating_add(u64::from(*b));
    }
    sum
}

/// Whether a word is a name in which one letter is missing, is another one, or is one too many, or in
/// which two neighbours changed places; or whether the name begins with it.
pub fn is_near(word: &str, name: &str) -> bool {
    if word.len() < 3 {
        return false;
    }
    let (bytes, letters) = (word.as_bytes(), name.as_bytes());
    let shared = common_front(bytes, letters).saturating_add(common_end(bytes, letters));
    let longer = bytes.len().max(letters.len());
    let is_swapped = bytes.len() == letters.len()
        && shared.saturating_add(2) >= longer
        && sum_of(bytes) == sum_of(letters);
    name.starts_with(word) || shared.saturating_add(1) >= longer || is_swapped
}

/// In what the line on a word ends that may have been meant to name a command, or is one of other programs.
pub fn end_of_command(word: &str) -> Option<&'static str> {
    let near = NAMES.iter().find(|name| is_near(word, name.0));
    let own = near.or(OTHERS.iter().find(|other| word == other.0));
    own.map(|found| found.1)
}
