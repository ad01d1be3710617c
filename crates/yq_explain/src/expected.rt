//! What an expression has where it is at fault.

use std::alloc::AllocError;
use yq_semantics::Expected;

/// The form that the parser expected, in words; of a mark none.
fn form_of(expected: Expected) -> &'static str {
    match expected {
        Expected::Path => "a path, which begins with '.'",
        Expected::Step => "a number, a key in double quotes or ']'",
        Expected::OneValue => "a path without '[]'",
        Expected::Key => "a key in double quotes",
        Expected::Value => "a text in double quotes, a number, true, false or null",
        Expected::Text => "a text in double quotes",
        Expected::OtherKeys => "a mapping without a key twice",
        Expected::Comparison => "'==' or '!='",
        Expected::Operator => "'=', '|=' or '+='",
        Expected::End => "the end, or '|'",
        Expected::Mark(_) | Expected::Unknown => "",
    }
}

/// Adds what was expected, where that is known.
pub fn push_expected(out: &mut String, expected: Expected) -> Result<(), AllocError> {
    if expected == Expected::Unknown {
        return Ok(());
    }
    out.push_str("expected here: ")?;
    out.push_str(form_of(expected))?;
    if let Expected::Mark(mark) = expected {
        out.push('\'')?;
        out.push(mark)?;
        out.push('\'')?;
    }
    out.push('\n')
}
