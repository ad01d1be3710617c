//! How a scalar is written in the place of another one.
ghost use Rattle.std.specs.Prelude.{◌≡◌, true};
ghost use Rattle.yq_core.specs.Written.{IsOneLine};
ghost use Rattle.yq_flow_edits.specs.Valued.{IsValid};
ghost use Rattle.yq_core.specs.Writable as writable;
ghost use Rattle.yq_edit_rules.specs.Style as spec;

use yq_core::{Kind, Place, Scalar, Style};
use yq_scalar_reader::{can_write, written_style};

/// Whether a scalar has that kind and that text.
pub fn is_same(kind: Kind, text: &str, scalar: &Scalar) -> bool
    ensures value { result ≡ spec.is_same (record { kind = kind; text = text.now }) scalar.now }
    ensures valid { IsValid scalar.now }
{
    let other = scalar.text();
    kind == scalar.kind() && text == other
}

/// The style in which a scalar is written in the place of one in the style `old`: in that if it can
/// be written so, else plain, else in double quotes.
pub fn style_in(place: Place, scalar: &Scalar, old: Style) -> Style
    requires { IsOneLine old }
    ensures value { result ≡ spec.style_in place scalar.now old }
    ensures can { writable.can_write scalar.now result place ≡ true }
    ensures inline { IsOneLine result }
{
    if can_write(scalar, old, place) {
        old
    } else {
        written_style(scalar, place)
    }
}
