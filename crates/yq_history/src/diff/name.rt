//! The names above the hunks.
ghost use Rattle.std.{specs.Prelude.{◌≡◌, ◌++◌, IfOk, OnOk, string_bytes}, specs.List.list_any};
ghost use Rattle.yq_history.specs.Unified.{print_name, print_names, wants_quotes};

use serde_json::Value;
use std::alloc::{AllocError, Global};

/// Whether a name has a byte that wants quotes.
fn has_odd_bytes(name: &[u8]) -> bool
    ensures { result ≡ list_any wants_quotes name.now }
{
    name.iter().any(|&b| b <= b' ' || b == b'"' || b == b'\\')
}

/// A name as it is printed.
fn printed_name(alloc: Global, name: &str) -> Result<String, AllocError>
    ensures { IfOk result (λ s. string_bytes s ≡ print_name name.now) }
{
    let copy = String::from_str(alloc, name)?;
    if has_odd_bytes(name.as_bytes()) {
        Value::String(copy).to_string(alloc)
    } else {
        Ok(copy)
    }
}

/// Adds the two lines above the hunks.
pub(crate) fn push_names(alloc: Global, out: &mut String, name: &str) -> Result<(), AllocError>
    ensures { OnOk result (string_bytes out.new ≡ string_bytes out.old ++ print_names name.now) }
{
    let name = printed_name(alloc, name)?;
    out.push_str("--- ")?;
    out.push_str(&name)?;
    out.push_str("\n+++ ")?;
    out.push_str(&name)?;
    out.push_str("\n")
}
