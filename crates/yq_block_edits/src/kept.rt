//! Whether a value is the scalar that is at a path: such a Replace leaves the bytes alone.
ghost use Rattle.std.specs.Prelude.{◌≡◌, IfOk, is_some, true};
ghost use Rattle.yq_core.specs.Scalar.{plain_of};
ghost use Rattle.yq_places.{specs.NodesAt.scalar_in, specs.PlacementViews.IsHeldRow};
ghost use Rattle.yq_documents.{specs.Located.steps_of, specs.Reading.cut_of};
ghost use Rattle.yq_block_edits.specs.TextsPut.{is_same_value, keeps_value};
ghost use Rattle.yq_core.specs.Values as values;
ghost use Rattle.yq_edit_rules.specs.Replacing as spec;
ghost use Rattle.yq_edit_rules.specs.Style as style;

use std::alloc::{AllocError, Global};
use yq_core::{Kind, Scalar, Value, resolve};
use yq_documents::Path;
use yq_edit_rules::is_same;
use yq_lookup::CutText;
use yq_places::HeldRow;
use yq_row_heads::is_short_plain;

/// Whether a value is a scalar.
fn holds_scalar(value: &Value) -> bool
    ensures { result ≡ is_some (scalar_in (values.value_node value.now)) }
{
    matches!(value, Value::Scalar(_))
}

/// Whether a value is a scalar of that kind and that text.
fn is_scalar(kind: Kind, text: &str, value: &Value) -> bool
    ensures { result ≡ is_same_value (record { kind = kind; text = text.now }) value.now }
{
    let Value::Scalar(scalar) = value else {
        return false;
    };
    is_same(kind, text, scalar)
}

/// Whether a value is a scalar equal to the node at a path; not where no node is there.
///
/// # Errors
/// [`AllocError`] where memory is refused.
pub fn is_kept(
    alloc: Global,
    text: &CutText<'_, '_>,
    path: &Path,
    value: &Value,
) -> Result<bool, AllocError>
    ensures { IfOk result (λ b. b ≡ keeps_value path.now text.now value.now) }
{
    if !holds_scalar(value) {
        return Ok(false);
    }
    let found = text.scalar_at(alloc, path)?;
    let Some((kind, old)) = found else {
        return Ok(false);
    };
    Ok(is_scalar(kind, old.text(), value))
}

/// Whether a plain text on one line may mean a scalar: that is null, or its text.
fn may_spell(text: &str, scalar: &Scalar) -> bool
    ensures { result ≡ spec.may_spell text.now scalar.now }
{
    scalar.kind() == Kind::Null || text == scalar.text()
}

/// Whether a plain text on one line means a scalar.
fn spells(text: &str, scalar: &Scalar) -> bool
    ensures { result ≡ style.is_same (plain_of text.now) scalar.now }
{
    if !may_spell(text, scalar) {
        return false;
    }
    match resolve(text) {
        Kind::Null => is_same(Kind::Null, "null", scalar),
        kind => is_same(kind, text, scalar),
    }
}

/// Whether a value is the scalar that a plain text on one line means.
fn is_plain(text: &str, value: &Value) -> bool
    ensures { result ≡ is_same_value (plain_of text.now) value.now }
{
    let Value::Scalar(scalar) = value else {
        return false;
    };
    spells(text, scalar)
}

/// Whether a value is a scalar equal to the node at a path, which is inline, in the row of a key or dash.
///
/// # Errors
/// [`AllocError`] where memory is refused.
pub fn is_kept_in_row(
    alloc: Global,
    text: &CutText<'_, '_>,
    path: &Path,
    at: &HeldRow<'_>,
    value: &Value,
) -> Result<bool, AllocError>
    requires row { IsHeldRow path.now.doc (steps_of path.now) (cut_of text.now) at.now }
    requires inline { at.now.inline ≡ true }
    ensures { IfOk result (λ b. b ≡ keeps_value path.now text.now value.now) }
{
    if !is_short_plain(at.head) {
        return is_kept(alloc, text, path, value);
    }
    let _text = text.text();
    Ok(is_plain(at.head, value))
}
