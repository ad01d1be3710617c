//! Values, written in flow style.
ghost use Rattle.std.{specs.Prelude.{IfOk, false, map, string_bytes, true}, specs.Str.IsUtf8};
ghost use Rattle.yq_core.{specs.Values.{entries_of, items_of, value_node}, specs.Strings.{AddsText, GivesText}};
ghost use Rattle.yq_flow_edits.{specs.FlowValues.SpellsEntry, specs.Valued.{AreValueTrees, IsValid, IsValueTree, Spells}};
ghost use Rattle.yq_core.specs.NodesWritten as spec;

use std::alloc::{AllocError, Global};
use yq_core::{Place, Scalar, Style, Value};
use yq_scalar::write_scalar;
use yq_scalar_reader::written_style;

/// Adds a scalar, without quotes if it can be.
#[tactic(auto, unfolding(yq_core::specs::NodesWritten::scalar_text))]
pub fn push_scalar(
    alloc: Global,
    out: &mut String,
    scalar: &Scalar,
    place: Place,
) -> Result<(), AllocError>
    ensures text { AddsText result out.old out.new (spec.scalar_text scalar.now place) }
    ensures valid { IfOk result (λ x. IsValid scalar.now) }
{
    let text = scalar.text();
    match written_style(scalar, place) {
        Style::Plain => out.push_str(text),
        style => {
            let quoted = write_scalar(alloc, scalar, style, place)?;
            out.push_str(&quoted)
        }
    }
}

/// Adds a key with its `:` and a space.
fn push_key(alloc: Global, out: &mut String, key: &str) -> Result<(), AllocError>
    ensures text { AddsText result out.old out.new (spec.key_front key.now) }
    ensures valid { IfOk result (λ x. IsUtf8 key.now) }
{
    let scalar = Scalar::string(String::from_str(alloc, key)?);
    push_scalar(alloc, out, &scalar, Place::FlowKey)?;
    out.push_str(": ")
}

/// Adds a value.
#[cycle(write)]
#[tactic(auto, unfolding(yq_core::specs::NodesWritten::flow_of, yq_core::specs::Nodes::node_text))]
fn push_value(alloc: Global, out: &mut String, value: &Value) -> Result<(), AllocError>
    ensures text { AddsText result out.old out.new (spec.flow_text (value_node value.now)) }
    ensures valid { IfOk result (λ x. IsValueTree (value_node value.now)) }
{
    match value {
        Value::Scalar(scalar) => push_scalar(alloc, out, scalar, Place::Flow),
        Value::List(items) => {
            out.push_str("[")?;
            push_items(alloc, out, items)?;
            out.push_str("]")
        }
        Value::Map(entries) => {
            out.push_str("{")?;
            push_entries(alloc, out, entries)?;
            out.push_str("}")
        }
    }
}

/// Adds the items of a list.
#[cycle(write)]
fn push_items(alloc: Global, out: &mut String, items: &Vec<Value>) -> Result<(), AllocError>
    ensures text { AddsText result out.old out.new
        (spec.comma_separated true (map (λ v. spec.flow_text (value_node v)) items.now.items)) }
    ensures valid { IfOk result (λ x. AreValueTrees false (items_of items.now.items)) }
{
    let mut first = true;
    'each: for item in items {
        if first {
            first = false;
        } else {
            out.push_str(", ")?;
        }
        push_value(alloc, out, item)?;
    }
    Ok(())
}

/// Adds the entries of a mapping.
#[cycle(write)]
fn push_entries(
    alloc: Global,
    out: &mut String,
    entries: &Vec<(String, Value)>,
) -> Result<(), AllocError>
    ensures text { AddsText result out.old out.new
        (spec.comma_separated true
        (map (λ e. spec.entry_text (string_bytes e.0, value_node e.1)) entries.now.items)) }
    ensures valid { IfOk result (λ x. AreValueTrees true (entries_of entries.now.items)) }
{
    let mut first = true;
    'each: for entry in entries {
        if first {
            first = false;
        } else {
            out.push_str(", ")?;
        }
        push_key(alloc, out, &entry.0)?;
        push_value(alloc, out, &entry.1)?;
    }
    Ok(())
}

/// The value in flow style: `[a, b]`, `{k: v}`; each scalar and key plain if it can be, else
/// double-quoted.
#[tactic(auto, using(crate::proofs::SpelledLaws::flow_spells))]
pub fn write_inline(alloc: Global, value: &Value) -> Result<String, AllocError>
    // It is the text that the style defines.
    ensures text { GivesText result (spec.flow_text (value_node value.now)) }
    // It spells the value.
    ensures spells { IfOk result (λ s. Spells (value_node value.now) (string_bytes s)) }
{
    let mut out = String::new(alloc);
    push_value(alloc, &mut out, value)?;
    Ok(out)
}

/// An entry in flow style: `k: v`, the key plain if it can be, else double-quoted.
#[tactic(auto, using(crate::proofs::FlowSpelled::entry_spells))]
pub fn write_entry(alloc: Global, key: &str, value: &Value) -> Result<String, AllocError>
    // It is the text that the style defines.
    ensures text { GivesText result (spec.entry_text (key.now, value_node value.now)) }
    // It spells the entry.
    ensures spells { IfOk result (λ s. SpellsEntry key.now (value_node value.now)
        (string_bytes s)) }
{
    let mut out = String::new(alloc);
    push_key(alloc, &mut out, key)?;
    push_value(alloc, &mut out, value)?;
    Ok(out)
}
