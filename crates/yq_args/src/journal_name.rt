//! The names of journals in a folder of their own.
ghost use Rattle.std.{specs.Prelude.{◌≡◌, ◌++◌, ◌≤◌, IfOk, IfErr, OnOk, encode_utf8, length, true}, specs.String.string_bytes};
ghost use Rattle.yq_args.specs.JournalNames as spec;

use crate::UsageCause;
use crate::cause::WordsError;
use std::alloc::{AllocError, Global};

/// The most bytes that the name of a path may have in front of `.undo.json`.
const MOST: usize = 245;

/// Adds a character of a path as it is in a name.
fn push_escaped(out: &mut String, c: char) -> Result<(), AllocError>
    ensures { OnOk result (string_bytes out.new ≡ string_bytes out.old ++
        spec.escaped_path (encode_utf8 c)) }
{
    if c == '%' {
        out.push_str("%25")
    } else if c == '/' {
        out.push_str("%2F")
    } else {
        out.push(c)
    }
}

/// A path as a name.
fn escaped_path(alloc: Global, path: &str) -> Result<String, AllocError>
    ensures { IfOk result (λ s. string_bytes s ≡ spec.escaped_path path.now) }
{
    let mut out = String::new(alloc);
    'each: for c in path.chars() {
        push_escaped(&mut out, c)?;
    }
    Ok(out)
}

/// The journal of the file at a path, in a folder of journals. Its name has each byte of the path, `/` as
/// `%2F` and `%` as `%25`, and `.undo.json` after them: no other path has it. It is refused where it is longer
/// than 255 bytes.
pub fn journal_in_folder(alloc: Global, folder: &str, path: &str) -> Result<String, WordsError>
    ensures ok { IfOk result (λ s. string_bytes s ≡ spec.journal_in_folder folder.now path.now) }
    ensures fits { IfOk result (λ s. length (spec.name_of_path path.now) ≤ spec.most_of_name) }
    ensures one_name { spec.is_one_name (spec.name_of_path path.now) ≡ true }
    ensures reversible { spec.NamesOnePath folder.now path.now }
    ensures err { IfErr result (spec.IsTooLong path.now) }
{
    let name = escaped_path(alloc, path)?;
    if name.len() > MOST {
        return Err(WordsError::Fault(UsageCause::LongJournalName));
    }
    Ok(format!(in alloc; "{folder}/{name}.undo.json")?)
}
