//! The line about the value at which a path goes no further.
ghost use Rattle.std.specs.Prelude.{◌≡◌};

use crate::caret::push_name;
use crate::value_place::named_place;
use memchr::memchr_iter;
use std::alloc::{AllocError, Global};
use yq_core::{Kind, Step};
use yq_documents::{Documents, Part, Path};
use yq_failure::Failure;
use yq_fault::{EditError, NamedRefusal, unnamed};
use yq_nodes::{Node, NodeKind};
use yq_semantics::{ExprError, Refused};
use yq_tree::{extent, locate};

/// Whether a key is a step of a path without quotes.
fn is_plain(key: &str) -> bool {
    !key.is_empty()
        && !key.starts_with(|c: char| c.is_ascii_digit())
        && key
            .chars()
            .all(|c| c.is_ascii_alphanumeric() || c == '_' || c == '-')
}

/// Adds a step as an expression has it.
fn push_step(alloc: Global, out: &mut String, step: &Step) -> Result<(), AllocError> {
    match step {
        Step::Key(key) if is_plain(key.as_str()) => {
            out.push('.')?;
            out.push_str(key.as_str())
        }
        Step::Key(key) => {
            out.push_str(".\"")?;
            push_name(out, key.as_str())?;
            out.push('"')
        }
        Step::Index(item) => {
            let item = format!(in alloc; "[{item}]")?;
            out.push_str(item.as_str())
        }
    }
}

/// Adds a path as an expression has it.
fn push_path(alloc: Global, out: &mut String, steps: &[Step]) -> Result<(), AllocError> {
    match steps.first() {
        Some(Step::Key(_)) => {}
        _ => out.push('.')?,
    }
    'steps: for step in steps {
        push_step(alloc, out, step)?;
    }
    Ok(())
}

/// Adds what a node is, in words.
fn push_kind(alloc: Global, out: &mut String, node: &Node<'_, '_>) -> Result<(), AllocError> {
    let words = match node.kind() {
        NodeKind::Alias => "an alias",
        NodeKind::Map => "a mapping",
        NodeKind::Scalar(Kind::Text) => "a text",
        NodeKind::Scalar(Kind::Int | Kind::Float) => "a number",
        NodeKind::Scalar(Kind::Bool) => "true or false",
        NodeKind::Scalar(Kind::Null) => "null",
        NodeKind::List => "a sequence of ",
    };
    out.push_str(words)?;
    if node.kind() != NodeKind::List {
        return Ok(());
    }
    let count = node.count();
    let items = if count == 1 { "item" } else { "items" };
    let words = format!(in alloc; "{count} {items}")?;
    out.push_str(words.as_str())
}

/// The line, from 1, on which the entry, item or root at a path begins.
fn line_of(documents: &Documents<'_>, path: &Path) -> Option<usize> {
    let span = match extent(documents, path, Part::Entry) {
        Some(span) => span,
        None => extent(documents, path, Part::Content)?,
    };
    let before = documents.text().as_bytes().get(..span.start)?;
    Some(memchr_iter(b'\n', before).count().saturating_add(1))
}

/// The line about the value at which a refusal is, on documents that so many updates before made, if it is at one.
fn value_line(
    alloc: Global,
    documents: &Documents<'_>,
    updates: usize,
    refused: Refused,
) -> Result<Option<String>, AllocError> {
    let Some(path) = named_place(alloc, documents, refused)? else {
        return Ok(None);
    };
    let Some(node) = locate(documents, &path) else {
        return Ok(None);
    };
    let mut out = String::new(alloc);
    push_path(alloc, &mut out, &path.steps)?;
    out.push_str(" is ")?;
    push_kind(alloc, &mut out, &node)?;
    if let Some(line) = line_of(documents, &path) {
        let line = format!(in alloc; ", line {line}")?;
        out.push_str(line.as_str())?;
    }
    if updates > 0 {
        let words = format!(in alloc; " of the text after update {updates}")?;
        out.push_str(words.as_str())?;
    }
    out.push('\n')?;
    Ok(Some(out))
}

/// What a read gives on documents, or an update on those that so many before it made; or its refusal, with the line
/// about the value at which it is.
pub fn named<T: Drop>(
    alloc: Global,
    documents: &Documents<'_>,
    updates: usize,
    found: Result<T, ExprError>,
) -> Result<T, EditError>
    ensures { result ≡ found }
{
    match found {
        Err(Failure::Fault(refused)) => {
            let why = refused.why();
            let line = value_line(alloc, documents, updates, refused).unwrap_or(None);
            Err(Failure::Fault(NamedRefusal { why, line }))
        }
        found => unnamed(found),
    }
}
