//! How large values are in sums that are lists or strings.
ghost use Rattle.std.specs.Prelude.{IfSome, None};
ghost use Rattle.yq_core.{specs.Tree.list, specs.Values.value_node};
ghost use Rattle.yq_flow_edits.specs.Valued.{IsValueTree};
ghost use Rattle.yq_planner.specs.ListSizes.{HasSize};
ghost use Rattle.yq_semantics.{specs.Judgement.gives, specs.RightValues.as_items};
ghost use Rattle.yq_expr.{specs.FixedPaths.IfAny, specs.SumSizes.{AddsSized, GivesSized, IsSizeIn}};

use crate::sizes::item_counts::count_in;
use crate::sizes::sum_sizes::SumSize;
use std::alloc::{AllocError, Global};
use yq_core::{Kind, Value};
use yq_flow_edits::value_holds;
use yq_planner::{ListSize, added_size, is_null};

/// How large the list is of what a list gets from a value, as far as that is known.
fn size_of_items(alloc: Global, value: &Value) -> Result<Option<ListSize>, AllocError>
    ensures size { IfAny result (HasSize (list None (as_items (value_node value.now)))) }
    ensures valid { IfAny result (λ _. IsValueTree (value_node value.now)) }
{
    let Some(size) = added_size(alloc, value)? else {
        return Ok(None);
    };
    Ok(Some(ListSize {
        depth: size.depth,
        items: size.items.max(count_in(value)),
    }))
}

/// How long the text of a value is, if that is a string.
#[tactic(auto, using(crate::proofs::SumLaws::start_text))]
fn size_of_string(value: &Value) -> Option<SumSize>
    ensures { IfSome result (GivesSized (gives (value_node value.now))) }
{
    let Value::Scalar(scalar) = value else {
        return None;
    };
    value_holds(value);
    if scalar.kind() == Kind::Text {
        Some(SumSize::Text(scalar.text().len()))
    } else {
        None
    }
}

/// How large a value is with which a sum begins, where that is a list or a string.
#[tactic(auto, using(crate::proofs::SumLaws::start_list, yq_core::proofs::NodesWrittenLaws::node_list))]
fn size_of_first(alloc: Global, value: &Value) -> Result<Option<SumSize>, AllocError>
    ensures { IfAny result (GivesSized (gives (value_node value.now))) }
{
    match value {
        Value::List(_) => match size_of_items(alloc, value)? {
            Some(size) => Ok(Some(SumSize::List(size))),
            None => Ok(None),
        },
        Value::Scalar(_) => Ok(size_of_string(value)),
        Value::Map(_) => Ok(None),
    }
}

/// How large that is which a sum gets from a value, as far as it is known: items of a list, or the end of a string. Nothing,
/// where the value is null, or may not be added.
#[tactic(auto, using(crate::proofs::SumLaws::sized_adds))]
fn size_of_added(alloc: Global, value: &Value, sum: SumSize) -> Result<Option<SumSize>, AllocError>
    ensures { IfAny result (AddsSized (gives (value_node value.now))) }
{
    if is_null(value) {
        return Ok(None);
    }
    match sum {
        SumSize::List(_) => match size_of_items(alloc, value)? {
            Some(size) => Ok(Some(SumSize::List(size))),
            None => Ok(None),
        },
        SumSize::Text(_) => Ok(size_of_string(value)),
    }
}

/// How large a value is in a sum that is so large before it, or that begins with it.
pub(crate) fn size_of_value(
    alloc: Global,
    value: &Value,
    sum: Option<SumSize>,
) -> Result<Option<SumSize>, AllocError>
    ensures { IfAny result (IsSizeIn sum (gives (value_node value.now))) }
{
    match sum {
        None => size_of_first(alloc, value),
        Some(sum) => size_of_added(alloc, value, sum),
    }
}
