//! The expression that `--text` asks for.
ghost use Rattle.std.specs.Prelude.{◌≡◌, ◌++◌, IfOk, OnOk, string_bytes, option_map};
ghost use Rattle.yq_args.specs.Setting as spec;

use std::alloc::{AllocError, Global};

/// Adds a character of a text that is between quotes.
fn push_in_text(out: &mut String, c: char) -> Result<(), AllocError>
    ensures { OnOk result (string_bytes out.new ≡ string_bytes out.old ++ spec.in_text c) }
{
    if c == '"' {
        out.push_str("\\\"")
    } else if c == '\\' {
        out.push_str("\\\\")
    } else {
        out.push(c)
    }
}

/// What comes before the text.
fn front(alloc: Global, expr: &str) -> Result<String, AllocError>
    ensures { IfOk result (λ s. string_bytes s ≡ spec.setting_front expr.now) }
{
    format!(in alloc; "({expr}) = \"")
}

/// The expression that puts a text to the places of a path or pipe.
fn setting(alloc: Global, expr: &str, text: &str) -> Result<String, AllocError>
    ensures { IfOk result (λ s. string_bytes s ≡ spec.setting expr.now text.now) }
{
    let mut out = front(alloc, expr)?;
    'each: for c in text.chars() {
        push_in_text(&mut out, c)?;
    }
    out.push('"')?;
    Ok(out)
}

/// The expression of a command.
pub fn expression(alloc: Global, expr: &str, text: Option<&str>) -> Result<String, AllocError>
    ensures { IfOk result (λ s. string_bytes s ≡ spec.asked_expression
        (option_map (λ t. t.now) text.entry) expr.now) }
{
    match text {
        Some(text) => setting(alloc, expr, text),
        None => String::from_str(alloc, expr),
    }
}
