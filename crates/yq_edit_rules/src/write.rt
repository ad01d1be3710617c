//! Values, written in block style.
ghost use Rattle.std.specs.Prelude.{◌≡◌, IfOk, false, true};
ghost use Rattle.yq_flow_edits.specs.Valued.{AreValueTrees, IsValueTree};
ghost use Rattle.yq_core.{specs.Values.{entries_of, items_of, value_node}, specs.Strings.AddsText};
ghost use Rattle.yq_edit_rules.specs.ValuesWritten.{block_items, block_fields, value_block};
ghost use Rattle.yq_edit_rules.specs.BlockReading as spec;
ghost use Rattle.yq_edit_rules.specs.BlockRows as rows;

use crate::layout::Layout;
use crate::pieces::{deeper_column, push_front, push_line};
use std::alloc::{AllocError, Global};
use yq_core::{Place, Value};
use yq_flow_edits::push_scalar;

/// Whether a value is a collection with an item or entry, which is written in rows.
#[tactic(auto, using(crate::proofs::ListLaws::list_agrees, crate::proofs::ListLaws::map_agrees))]
pub fn is_filled(value: &Value) -> bool
    ensures { result ≡ spec.is_filled (value_node value.now) }
{
    match value {
        Value::Scalar(_) => false,
        Value::List(items) => !items.is_empty(),
        Value::Map(entries) => !entries.is_empty(),
    }
}

/// By how many columns a value is deeper than its key.
pub fn indent_step(layout: &Layout, value: &Value) -> usize
    ensures { result ≡ rows.indent_step layout.now (value_node value.now) }
{
    match value {
        Value::Scalar(_) => 0,
        Value::List(_) => layout.sequence,
        Value::Map(_) => layout.mapping,
    }
}

/// Adds a value after the spaces before its first line, up to its last break: a scalar or an empty
/// collection inline, another collection in block style, each scalar and key plain if it can be,
/// else double-quoted (YAML 1.2.2, 8.2). Its lines begin at a column, counted from 0.
///
/// It goes as deep as the value is nested. Before a column is made, room is made for as many spaces, so
/// where that has no place in a `usize`, memory was refused before.
#[cycle(write)]
#[tactic(auto, unfolding(yq_core::specs::Nodes::node_text), using(crate::proofs::ListLaws::list_value, crate::proofs::ListLaws::map_value, yq_flow_edits::proofs::ValuedLaws::map_valid))]
pub fn push_block(
    alloc: Global,
    out: &mut String,
    layout: &Layout,
    column: usize,
    value: &Value,
) -> Result<(), AllocError>
    // It is the text that the style defines.
    ensures text { AddsText result out.old out.new (value_block layout.now column value.now) }
    // It is of a value, of which the laws speak.
    ensures valid { IfOk result (λ x. IsValueTree (value_node value.now)) }
{
    match value {
        Value::Scalar(scalar) => push_scalar(alloc, out, scalar, Place::Block),
        Value::List(items) => push_items(alloc, out, layout, column, items),
        Value::Map(entries) => push_entries(alloc, out, layout, column, entries),
    }
}

/// Adds the items of a list, or `[]` where it has none.
#[cycle(write)]
fn push_items(
    alloc: Global,
    out: &mut String,
    layout: &Layout,
    column: usize,
    items: &Vec<Value>,
) -> Result<(), AllocError>
    ensures text { AddsText result out.old out.new (block_items layout.now column items.now) }
    ensures valid { IfOk result (λ x. AreValueTrees false (items_of items.now.items)) }
{
    if items.is_empty() {
        return out.push_str("[]");
    }
    let below = deeper_column(out, column, 2)?;
    let mut first = true;
    'each: for item in items {
        if first {
            first = false;
        } else {
            push_line(out, layout, column)?;
        }
        out.push_str("- ")?;
        push_block(alloc, out, layout, below, item)?;
    }
    Ok(())
}

/// Adds the entries of a mapping, or `{}` where it has none.
#[cycle(write)]
fn push_entries(
    alloc: Global,
    out: &mut String,
    layout: &Layout,
    column: usize,
    entries: &Vec<(String, Value)>,
) -> Result<(), AllocError>
    ensures text { AddsText result out.old out.new (block_fields layout.now column entries.now) }
    ensures valid { IfOk result (λ x. AreValueTrees true (entries_of entries.now.items)) }
{
    if entries.is_empty() {
        return out.push_str("{}");
    }
    let mut first = true;
    'each: for entry in entries {
        if first {
            first = false;
        } else {
            push_line(out, layout, column)?;
        }
        let below = deeper_column(out, column, indent_step(layout, &entry.1))?;
        push_front(alloc, out, layout, below, &entry.0, is_filled(&entry.1))?;
        push_block(alloc, out, layout, below, &entry.1)?;
    }
    Ok(())
}
