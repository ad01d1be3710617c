//! The word that names a command.
ghost use Rattle.std.specs.Prelude.{◌≡◌, ◌∷◌, map};
ghost use Rattle.yq_args.specs.CommandWords as spec;

/// Whether a word names a command.
pub fn is_command_word(word: &str) -> bool
    ensures { result ≡ spec.is_command_word word.now }
{
    matches!(word, "eval" | "undo" | "redo" | "history" | "squash")
}

/// The command's word, and the words after it.
pub fn split_command<'a, 'w>(words: &'w [&'a str]) -> (&'a str, &'w [&'a str])
    ensures { result.0.now ∷ map (λ w. w.now) result.1.now ≡
        spec.with_command (map (λ w. w.now) words.entry.now) }
{
    match words.split_first() {
        Some((word, rest)) if is_command_word(word) => (word, rest),
        Some((word, rest)) if *word == "e" => ("eval", rest),
        _ => ("eval", words),
    }
}
