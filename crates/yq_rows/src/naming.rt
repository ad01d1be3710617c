//! Which fault a row has that can't be read.
ghost use Rattle.std.specs.Prelude.{◌≢◌, IfSome};
ghost use Rattle.yq_core.specs.declared.fault.FaultKind.TheVariants.{NotUtf8};

use crate::marks::{RowMark, begins_entry, is_colon};
use yq_core::FaultKind;
use yq_core::text::{past_white, separates, split_spaces};

/// Whether a tab is in this white space.
fn holds_tab(space: &str) -> bool {
    space.as_bytes().iter().any(|b| *b == b'\t')
}

/// Why nothing can be read after a mark and this white space, below a parent of this indentation.
pub(crate) fn no_content(mark: RowMark<'_>, parent: i64, space: &str, rest: &str) -> FaultKind
    ensures { result ≢ NotUtf8 }
{
    let is_bare = matches!(mark, RowMark::Bare);
    if holds_tab(space) && (is_bare || begins_entry(rest)) {
        return FaultKind::TabIndent;
    }
    match rest.as_bytes() {
        [b'!', ..] => FaultKind::Tag,
        [b'?', after @ ..] if separates(after) => FaultKind::ExplicitKey,
        [b':', after @ ..] if is_bare && separates(after) => FaultKind::BadKey,
        [b'%', ..] if parent < 0 => FaultKind::Directive,
        _ => FaultKind::BadScalar,
    }
}

/// Why the line can't end after a mark, white space, and a node whose content is this head.
pub(crate) fn no_tail(
    mark: RowMark<'_>,
    space: &str,
    anchor: &str,
    head: &str,
    rest: &str,
) -> FaultKind
    ensures { result ≢ NotUtf8 }
{
    let next = past_white(rest.as_bytes());
    if head.is_empty() && matches!(next, [b'!', ..]) {
        return FaultKind::Tag;
    }
    let is_key = is_colon(next) && !matches!(mark, RowMark::Key(..));
    if holds_tab(space) && (is_key || matches!(mark, RowMark::Bare)) {
        FaultKind::TabIndent
    } else if is_key && !anchor.is_empty() {
        FaultKind::AnchorOnKey
    } else if is_key {
        FaultKind::BadKey
    } else if matches!(head.as_bytes(), [b'[' | b'{', ..]) {
        FaultKind::BadFlow
    } else {
        FaultKind::BadScalar
    }
}

/// The last line of a plain scalar of several lines.
fn further_line(head: &str) -> Option<&str> {
    if matches!(head.as_bytes(), [b'"' | b'\'' | b'[' | b'{', ..]) {
        return None;
    }
    Some(head.rsplit_once('\n')?.1)
}

/// Why the last line of a head of several lines, of which a further one begins with so many spaces at
/// least, is none: it is an entry that is indented too far.
pub(crate) fn no_further_line(
    mark: RowMark<'_>,
    spaces: Option<usize>,
    head: &str,
    rest: &str,
) -> Option<FaultKind>
    ensures { IfSome result (λ kind. kind ≢ NotUtf8) }
{
    let (indent, key) = split_spaces(further_line(head)?);
    if matches!(mark, RowMark::Bare) || !is_colon(past_white(rest.as_bytes())) {
        return None;
    }
    Some(if matches!(key.as_bytes(), [b'\t', ..]) {
        FaultKind::TabIndent
    } else if matches!(mark, RowMark::Dash) || spaces == Some(indent.len()) {
        FaultKind::BadIndent
    } else {
        FaultKind::BadScalar
    })
}

/// Why this can't be on a line of its own, after white space.
pub(crate) fn not_alone(space: &str, head: &str) -> FaultKind
    ensures { result ≢ NotUtf8 }
{
    if !space.is_empty() {
        FaultKind::TabIndent
    } else if matches!(head.as_bytes(), [b'|' | b'>', ..]) {
        FaultKind::BadBlockHeader
    } else {
        FaultKind::BadScalar
    }
}
