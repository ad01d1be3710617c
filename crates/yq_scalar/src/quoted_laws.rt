//! Laws of quoted scalars and of folded lines, each the contract of a function that does nothing.
ghost use Rattle.std.{specs.List.list_all, specs.Prelude.{◌≡◌, ◌==◌, ◌++◌, List, false, true, ℕ}, specs.Str.{IsUtf8, chars}};
ghost use Rattle.yq_core.{specs.Characters.is_text, specs.ContentReading.{plain_content, quoted_content}, specs.PlainContent.IsPlainLines};
ghost use Rattle.yq_core.{specs.Quoted.{IsQuoted, QuotedLines, quoted_lines_content}, specs.QuotedReading.quoted_at};
ghost use Rattle.yq_core.{specs.Plain.holds_break, specs.Text.front, specs.Writable.is_single_char, specs.Written.{double, single}};
ghost use Rattle.yq_core.specs.OneReading.{HasOneReading, ReadsAgain, ReadsOnly};
ghost use Rattle.yq_scalar.specs.QuotedTexts.{IsQuotedBefore};

/// What is read as a quoted scalar is one, each quoted scalar is read, and a text begins with one at
/// most.
pub fn one_quoted()
    ensures takes { ReadsOnly quoted_at (λ p rest. p ++ rest) IsQuotedBefore }
    ensures again { ReadsAgain quoted_at (λ p rest. p ++ rest) IsQuotedBefore }
    ensures one { HasOneReading (λ p rest. p ++ rest) IsQuotedBefore }
{}

/// What is read as the content of a quoted scalar is what its lines mean.
pub fn quoted_folds()
    ensures { (quote : ℕ) (ls : QuotedLines) (piece rest : List ℕ) → IsQuoted quote ls piece rest →
        quoted_content piece ≡ quoted_lines_content ls }
{}

/// Each text is made of lines, and what is read as the content of a plain scalar is what these
/// mean.
pub fn plain_folds()
    ensures lines { (text : List ℕ) → ((ls : QuotedLines) × IsPlainLines ls text) }
    ensures content { (ls : QuotedLines) (text : List ℕ) → IsPlainLines ls text →
        plain_content text ≡ quoted_lines_content ls }
{}

/// What is written in quotes is a quoted scalar that means its string, is a text, and holds no
/// break; in single quotes it is one before any rest but a further quote.
pub fn quoted_spells()
    ensures double { (t rest : List ℕ) → IsUtf8 t →
        ((ls : QuotedLines) × (IsQuoted 34 ls (double t) rest × (quoted_lines_content ls ≡ t))) }
    ensures double_line { (t : List ℕ) → IsUtf8 t →
        (is_text (double t) ≡ true) × (holds_break (double t) ≡ false) }
    ensures single { (t rest : List ℕ) → IsUtf8 t → list_all is_single_char (chars t) ≡ true →
        front (λ b. b == 39) rest ≡ false →
        ((ls : QuotedLines) × (IsQuoted 39 ls (single t) rest × (quoted_lines_content ls ≡ t))) }
    ensures single_line { (t : List ℕ) → IsUtf8 t → list_all is_single_char (chars t) ≡ true →
        (is_text (single t) ≡ true) × (holds_break (single t) ≡ false) }
{}
