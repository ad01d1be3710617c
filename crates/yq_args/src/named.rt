//! Texts that name the program: in them `%` means the name by which it was called.
ghost use Rattle.std.specs.Prelude.{◌≡◌, ◌++◌, OnOk, string_bytes};
ghost use Rattle.yq_args.specs.Named as spec;

use std::alloc::AllocError;

/// Adds a text that names the program.
pub fn push_named(text: &mut String, added: &str, name: &str) -> Result<(), AllocError>
    ensures { OnOk result (string_bytes text.new ≡
        string_bytes text.old ++ spec.named name.now added.now) }
{
    let mut rest = added;
    'marks: while let Some((before, after)) = rest.split_once('%') {
        text.push_str(before)?;
        text.push_str(name)?;
        rest = after;
    }
    text.push_str(rest)
}
