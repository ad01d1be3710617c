//! An item or entry of a collection, written in block style.
ghost use Rattle.yq_edit_rules.specs.ValuesWritten.{entry_block, block_child, item_block};
ghost use Rattle.yq_core.specs.Strings.{AddsText};

use crate::layout::Layout;
use crate::pieces::{deeper_column, push_front};
use crate::write::{indent_step, is_filled, push_block};
use std::alloc::{AllocError, Global};
use yq_core::Value;

/// An item, or an entry with its key, that is written.
#[derive(Clone, Copy)]
pub struct Child<'a> {
    pub key: Option<&'a str>,
    pub value: &'a Value,
}

/// Adds an item, from its dash on.
fn push_item(
    alloc: Global,
    out: &mut String,
    layout: &Layout,
    column: usize,
    value: &Value,
) -> Result<(), AllocError>
    ensures { AddsText result out.old out.new (item_block layout.now column value.now) }
{
    let below = deeper_column(out, column, 2)?;
    out.push_str("- ")?;
    push_block(alloc, out, layout, below, value)
}

/// Adds an entry, from its key on.
fn push_pair(
    alloc: Global,
    out: &mut String,
    layout: &Layout,
    column: usize,
    key: &str,
    value: &Value,
) -> Result<(), AllocError>
    ensures { AddsText result out.old out.new (entry_block layout.now column key.now value.now) }
{
    let below = deeper_column(out, column, indent_step(layout, value))?;
    push_front(alloc, out, layout, below, key, is_filled(value))?;
    push_block(alloc, out, layout, below, value)
}

/// Adds an item, or the entry with a key, after the spaces before its first line, up to its last
/// break (YAML 1.2.2, 8.2). Its lines begin at a column, counted from 0.
#[tactic(auto, using(crate::proofs::ListLaws::item_alone, crate::proofs::ListLaws::pair_alone))]
pub fn push_entry(
    alloc: Global,
    out: &mut String,
    layout: &Layout,
    column: usize,
    child: Child<'_>,
) -> Result<(), AllocError>
    ensures { AddsText result out.old out.new (block_child layout.now column child.entry) }
{
    match child.key {
        Some(key) => push_pair(alloc, out, layout, column, key, child.value),
        None => push_item(alloc, out, layout, column, child.value),
    }
}
