//! The order in which the rows of a block mapping come whose entries operations give values.
ghost use Rattle.std.specs.Prelude.{◌<◌, ◌≤◌, IfSome, length};

use crate::change::are_same_steps;
use crate::written_keys::{is_key, number_of};
use std::alloc::{AllocError, Global};
use std::collections::BTreeMap;
use yq_core::Step;
use yq_documents::Path;
use yq_edit_laws::last_step;
use yq_edit_rules::is_filled;
use yq_lookup::CutText;
use yq_outline::Stretch;
use yq_row_table::Rows;
use yq_semantics::Op;

/// The key of the mapping at these steps of a document whose value an operation replaces by one on one line.
fn replaced_key<'o>(op: &'o Op, doc: usize, above: &[Step]) -> Option<&'o str> {
    let Op::Replace(path, value) = op else {
        return None;
    };
    let (steps, last) = last_step(&path.steps)?;
    if path.doc != doc || is_filled(value) || !are_same_steps(steps, above) {
        return None;
    }
    match last {
        Step::Key(key) => Some(key.as_str()),
        Step::Index(_) => None,
    }
}

/// Whether an operation puts an entry with a value on one line into the mapping at these steps of a document.
fn adds_entry(op: &Op, doc: usize, above: &[Step]) -> bool {
    match op {
        Op::Append(path, Some(_), value) => {
            path.doc == doc && !is_filled(value) && are_same_steps(&path.steps, above)
        }
        _ => false,
    }
}

/// What operations do to a mapping: the keys whose values some replace, each with its operation's number, and the
/// numbers of those that put entries into it.
#[derive(Drop)]
struct MappingOps<'o> {
    keys: Vec<(&'o str, usize)>,
    added: Vec<usize>,
}

/// What operations do to one mapping, that of the entry at a path, where all values are on one line.
fn mapping_ops<'o>(
    alloc: Global,
    path: &Path,
    ops: &'o [Op],
) -> Result<Option<MappingOps<'o>>, AllocError> {
    let Some((above, _)) = last_step(&path.steps) else {
        return Ok(None);
    };
    let mut found = MappingOps {
        keys: Vec::with_capacity(alloc, ops.len())?,
        added: Vec::new(alloc),
    };
    'operations: for number in 0..ops.len() {
        let op = &ops[number];
        if let Some(key) = replaced_key(op, path.doc, above) {
            found.keys.push((key, number))?;
        } else if adds_entry(op, path.doc, above) {
            found.added.push(number)?;
        } else {
            return Ok(None);
        }
    }
    Ok(Some(found))
}

/// The path of the first of operations that replaces something.
fn first_replaced(ops: &[Op]) -> Option<&Path> {
    'operations: for op in ops {
        if let Op::Replace(path, _) = op {
            return Some(path);
        }
    }
    None
}

/// How deep the key of a row begins, after its dashes.
fn key_level(rows: &Rows<'_>, row: usize) -> usize
    requires { row < length rows.now.rows }
{
    let level = rows.level(row);
    match rows.dashes(row).len() {
        0 => level,
        // A dash is one deeper than a key in its column.
        columns => level
            .saturating_add(columns.saturating_mul(3))
            .saturating_sub(1),
    }
}

/// The first of rows up to one from which on all begin as deep, or have dashes before a key that does.
fn first_as_deep(rows: &Rows<'_>, from: usize, row: usize, level: usize) -> usize
    requires { row ≤ length rows.now.rows }
{
    let mut first = from;
    'rows: for at in from..row {
        if rows.level(at) < level {
            first = if key_level(rows, at) == level {
                at
            } else {
                at + 1
            };
        }
    }
    first
}

/// The first of rows after one that begins less deep.
fn end_as_deep(rows: &Rows<'_>, row: usize, end: usize, level: usize) -> usize
    requires { end ≤ length rows.now.rows }
    ensures { result ≤ end }
{
    'rows: for at in row..end {
        if at != row && rows.level(at) < level {
            return at;
        }
    }
    end
}

/// The rows of the mapping to whose entry a row belongs, among those of a document, and the level at which the keys of
/// its entries begin.
fn mapping_rows(rows: &Rows<'_>, row: usize, document: Stretch) -> Option<(Stretch, usize)>
    ensures { IfSome result (λ x. x.0.end ≤ length rows.now.rows) }
{
    if row >= rows.len() || document.end > rows.len() {
        return None;
    }
    let level = key_level(rows, row);
    let first = first_as_deep(rows, document.first, row, level);
    let end = end_as_deep(rows, row, document.end, level);
    Some((Stretch { first, end }, level))
}

/// Whether keys come in the order of rows that have them.
fn come_in_order(rows: &Rows<'_>, mapping: Stretch, level: usize, keys: &[(&str, usize)]) -> bool
    requires { mapping.end ≤ length rows.now.rows }
{
    let mut left = keys;
    'rows: for at in mapping.first..mapping.end {
        let [key, others @ ..] = left else {
            return true;
        };
        if key_level(rows, at) == level && is_key(rows.key(at), key.0) {
            left = others;
        }
    }
    left.is_empty()
}

/// The number of each key's operation.
fn numbers_by_key<'o>(
    alloc: Global,
    keys: &[(&'o str, usize)],
) -> Result<BTreeMap<&'o str, usize>, AllocError> {
    let mut numbers = BTreeMap::new(alloc);
    'keys: for key in keys {
        numbers.insert(key.0, key.1)?;
    }
    Ok(numbers)
}

/// The numbers of the keys that the rows of a mapping have, in order.
fn numbers_in_rows(
    alloc: Global,
    rows: &Rows<'_>,
    mapping: Stretch,
    level: usize,
    numbers: &BTreeMap<&str, usize>,
) -> Result<Vec<usize>, AllocError>
    requires { mapping.end ≤ length rows.now.rows }
{
    let mut order = Vec::new(alloc);
    'rows: for at in mapping.first..mapping.end {
        if key_level(rows, at) == level {
            if let Some(number) = number_of(alloc, numbers, rows.key(at))? {
                order.push(number)?;
            }
        }
    }
    Ok(order)
}

/// The numbers of operations that replace values of one block mapping by others on one line, in the order of its rows,
/// and of those that put entries into it, after these; nothing, where all replace
/// values in this order, or one of them does something else.
pub(crate) fn in_row_order(
    alloc: Global,
    cut: &CutText<'_, '_>,
    ops: &[Op],
) -> Result<Option<Vec<usize>>, AllocError> {
    let Some(path) = first_replaced(ops) else {
        return Ok(None);
    };
    let Some(at) = cut.again().to_held_row(alloc, path) else {
        return Ok(None);
    };
    if !at.inline {
        return Ok(None);
    }
    let Some(mut found) = mapping_ops(alloc, path, ops)? else {
        return Ok(None);
    };
    let Some(walk) = cut.walk(path.doc) else {
        return Ok(None);
    };
    let rows = walk.rows;
    let Some((mapping, level)) = mapping_rows(rows, at.row, walk.document) else {
        return Ok(None);
    };
    if found.added.is_empty() && come_in_order(rows, mapping, level, &found.keys) {
        return Ok(None);
    }
    let numbers = numbers_by_key(alloc, &found.keys)?;
    let mut order = numbers_in_rows(alloc, rows, mapping, level, &numbers)?;
    order.append(&mut found.added)?;
    Ok(Some(order))
}
