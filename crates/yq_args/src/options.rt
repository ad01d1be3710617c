//! Options: those of the commands, and what replaces others that are often written.

use crate::spelling::is_near;

/// Options of other programs, by their letters and names, and what to do in place of them.
struct ForeignOption {
    letters: &'static [u8],
    names: &'static [&'static str],
    hint: &'static str,
}

/// The options that `eval` has not and that are often written. In a hint `%` means the program.
const FOREIGN: [ForeignOption; 19] = [
    ForeignOption {
        letters: b"r",
        names: &["--unwrapScalar", "--raw-output"],
        hint: ": values are printed without quotes already",
    },
    ForeignOption {
        letters: b"n",
        names: &["--null-input"],
        hint: ": each run reads a FILE",
    },
    ForeignOption {
        letters: b"P",
        names: &["--prettyPrint"],
        hint: ": values are printed in block style already",
    },
    ForeignOption {
        letters: b"opj",
        names: &["--output-format", "--input-format", "--tojson"],
        hint: ": YAML is read and printed, and no other format",
    },
    ForeignOption {
        letters: b"CM",
        names: &["--colors", "--no-colors"],
        hint: ": nothing is printed in colors",
    },
    ForeignOption {
        letters: b"I",
        names: &["--indent"],
        hint: ": the indentation of FILE is kept",
    },
    ForeignOption {
        letters: b"sw",
        names: &["--split-exp", "--split-exp-file", "--output"],
        hint: ": everything is printed to standard output",
    },
    ForeignOption {
        letters: b".",
        names: &["--inplace", "--in-place", "--backup"],
        hint: ": '-i' alone edits in place, and '% undo' takes an edit back",
    },
    ForeignOption {
        letters: b"",
        names: &["--from-file"],
        hint: ": EXPR can be \"$(cat NAME)\"",
    },
    ForeignOption {
        letters: b"",
        names: &["--arg", "--argjson"],
        hint: ": '--text=TEXT' takes a text from the shell",
    },
    ForeignOption {
        letters: b"V",
        names: &["--version"],
        hint: ": '% --help' shows the version",
    },
    ForeignOption {
        letters: b"vqD",
        names: &["--verbose", "--quiet", "--silent", "--debug"],
        hint: ": nothing is reported but what is refused",
    },
    ForeignOption {
        letters: b"",
        names: &["--dry-run"],
        hint: ": '% --diff EXPR FILE' shows what EXPR changes",
    },
    ForeignOption {
        letters: b"S",
        names: &["--sort-keys"],
        hint: ": keys stay in their order",
    },
    ForeignOption {
        letters: b"c",
        names: &["--compact-output", "--tab"],
        hint: ": collections are printed in block style",
    },
    ForeignOption {
        letters: b"f",
        names: &["--front-matter"],
        hint: ": FILE is YAML from its first line to its last",
    },
    ForeignOption {
        letters: b"0",
        names: &["--nul-output"],
        hint: ": a line feed comes after each value",
    },
    ForeignOption {
        letters: b"",
        names: &["--slurp", "--eval-all", "--recursive"],
        hint: ": each run takes one FILE",
    },
    ForeignOption {
        letters: b"E",
        names: &["--expression", "--regexp"],
        hint: ": EXPR comes before FILE, without an option",
    },
];

/// The names of the program's own options, and what to do in place of one that is near.
const OWN: [(&str, &str); 9] = [
    ("--inplace", ": did you mean '--inplace'?"),
    ("--exit-status", ": did you mean '--exit-status'?"),
    ("--no-doc", ": did you mean '--no-doc'?"),
    ("--diff", ": did you mean '--diff'?"),
    ("--expect-change", ": did you mean '--expect-change'?"),
    ("--journal", ": did you mean '--journal'?"),
    ("--explain", ": did you mean '--explain'?"),
    ("--text", ": did you mean '--text'?"),
    ("--help", ": did you mean '--help'?"),
];

/// What to do in place of any other option.
const OTHER: &str = ": a word after '--' may begin with '-'";

/// The first letter after `-` that is none of a command's options.
fn unknown_letter(command: &str, option: &str) -> Option<u8> {
    let known: &[u8] = match command {
        "eval" => b"hieNd",
        "history" => b"hd",
        _ => b"h",
    };
    let letters = option.strip_prefix('-').unwrap_or(option).as_bytes();
    letters
        .iter()
        .find(|letter| !known.contains(*letter))
        .copied()
}

/// Whether a command has this option, or each of these that are in one word.
pub fn is_known(command: &str, option: &str) -> bool {
    if !option.starts_with("--") {
        return unknown_letter(command, option).is_none();
    }
    match option {
        "--help" | "--explain" => true,
        "--diff" => matches!(command, "eval" | "history"),
        "--inplace" | "--exit-status" | "--no-doc" | "--expect-change" => command == "eval",
        _ => {
            option.starts_with("--journal=") || (command == "eval" && option.starts_with("--text="))
        }
    }
}

/// What is missing after an option that takes a value, where none is there.
pub fn without_value(command: &str, option: &str) -> Option<&'static str> {
    match option {
        "--journal" => Some("no PATH after '--journal'"),
        "--text" if command == "eval" => {
            Some("no TEXT after '--text': one that begins with '-' goes into '--text=TEXT'")
        }
        _ => None,
    }
}

/// What to do in place of an option that is near one of the program's own, or of other programs.
fn hint_near(name: &str) -> &'static str {
    if let Some(own) = OWN.iter().find(|own| is_near(name, own.0)) {
        return own.1;
    }
    let is_near_one = |option: &&ForeignOption| option.names.iter().any(|it| is_near(name, it));
    match FOREIGN.iter().find(is_near_one) {
        Some(option) => option.hint,
        None => OTHER,
    }
}

/// What to do in place of an option of this letter or name.
fn hint_on(letter: u8, name: &str) -> &'static str {
    'options: for option in &FOREIGN {
        if option.letters.contains(&letter) || option.names.contains(&name) {
            return option.hint;
        }
    }
    if !name.starts_with("--") {
        return OTHER;
    }
    hint_near(name)
}

/// What to do where `eval` has no such option.
pub fn hint(option: &str) -> &'static str {
    let letter = unknown_letter("eval", option).unwrap_or(b'-');
    match option.split_once('=') {
        Some((name, _)) => hint_on(letter, name),
        None => hint_on(letter, option),
    }
}
