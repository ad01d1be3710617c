//! Where a text is at fault.
ghost use Rattle.std.specs.Prelude.{◌≢◌};
ghost use Rattle.yq_core.specs.declared.fault.FaultKind.TheVariants.{NotUtf8};

use yq_core::fault_place::fault;
use yq_core::text::{spaces_len, without_spaces};
use yq_core::{FaultKind, ReadFault};

/// The whole text from the line on which this rest of it begins.
fn from_line<'t>(whole: &'t str, rest: &str) -> &'t [u8] {
    let bytes = whole.as_bytes();
    let before = bytes.split_at(whole.len().saturating_sub(rest.len())).0;
    match before.iter().rposition(|b| *b == b'\n') {
        Some(feed) => bytes.split_at(feed + 1).1,
        None => bytes,
    }
}

/// Whether a flow collection after whose bracket was `open` is not closed before this rest of the
/// whole text: at its end, and where a line that is indented no further than that of the bracket is
/// after it, on which a key or dash comes before the bracket.
fn is_unclosed(whole: &str, open: &str, rest: &str) -> bool {
    let opened = from_line(whole, open);
    let line = from_line(whole, rest);
    let is_left = line.len() < opened.len() && spaces_len(line) <= spaces_len(opened);
    rest.is_empty() || (is_left && !matches!(without_spaces(opened), [b'[' | b'{', ..]))
}

/// The fault in a flow collection that begins with a bracket, after which comes `open`. It is where
/// `rest` of the whole text begins; if the collection isn't closed before that, it is where the
/// collection begins.
pub fn flow_fault(kind: FaultKind, whole: &str, open: &str, rest: &str) -> ReadFault
    requires { kind ≢ NotUtf8 }
    ensures { result.kind ≢ NotUtf8 }
{
    let is_unclosed = is_unclosed(whole, open, rest);
    fault(kind, whole, if is_unclosed { open } else { rest })
}
