//! Values, as a read prints them.
ghost use Rattle.std.specs.Prelude.{◌≡◌, IfOk, string_bytes};
ghost use Rattle.yq_core.{specs.Values.value_node, specs.Strings.AddsText};
ghost use Rattle.yq_edit_rules.{specs.BlockLaws.ReadsAlone, specs.ValuesWritten.IsTreeIfFilled};
ghost use Rattle.yq_edit_rules.specs.Print as spec;

use crate::layout::Layout;
use crate::write::push_block;
use std::alloc::{AllocError, Global};
use yq_core::{Break, Value};

/// Steps of 2, and LF.
fn print_layout() -> Layout
    ensures { result ≡ spec.print_layout }
{
    Layout {
        br: Break::Lf,
        mapping: 2,
        sequence: 2,
    }
}

/// Adds a scalar's content, or a collection in block style.
fn push_printed(alloc: Global, out: &mut String, value: &Value) -> Result<(), AllocError>
    ensures text { AddsText result out.old out.new (spec.printed_value (value_node value.now)) }
    ensures valid { IfOk result (λ _. IsTreeIfFilled value.now) }
{
    match value {
        Value::Scalar(scalar) => out.push_str(scalar.text()),
        Value::List(_) => push_block(alloc, out, &print_layout(), 0, value),
        Value::Map(_) => push_block(alloc, out, &print_layout(), 0, value),
    }
}

/// The value as a read prints it: a scalar's content, or a collection in block style from column 0
/// with steps of 2, and LF.
///
/// The text grows as it is made, and each of its bytes is moved a few times at most.
#[tactic(auto, unfolding(crate::specs::Print::print_text))]
pub fn print(alloc: Global, value: &Value) -> Result<String, AllocError>
    // It is the text that is defined.
    ensures text { IfOk result (λ s. string_bytes s ≡ spec.print_text (value_node value.now)) }
    // A collection that can be a document's root is read from it as that document, where the text is not too long.
    ensures read { IfOk result (λ s. ReadsAlone (value_node value.now) (string_bytes s)) }
{
    let mut out = String::new(alloc);
    push_printed(alloc, &mut out, value)?;
    out.push_str("\n")?;
    Ok(out)
}
