//! Which styles can write a scalar, and where.
ghost use Rattle.std.specs.Prelude.{◌≡◌, true};
ghost use Rattle.yq_core.{specs.Scalar.IsScalar, specs.Written.IsOneLine};
ghost use Rattle.yq_scalar_reader.specs.Held.{begins_literally};
ghost use Rattle.yq_core.specs.NodesWritten as written;
ghost use Rattle.yq_core.specs.Writable as spec;

use crate::plain_text::{Holder, holds_each, is_plain_text};
use yq_core::{Kind, Place, Scalar, Style, is_white, resolve};

/// Whether the kind is that of strings.
fn is_string(kind: Kind) -> bool
    ensures { result ≡ spec.is_string kind }
{
    matches!(kind, Kind::Text)
}

/// Whether the place is in a flow collection.
pub fn in_flow(place: Place) -> bool
    ensures { result ≡ spec.in_flow place }
{
    matches!(place, Place::Flow | Place::FlowKey)
}

/// Whether the scalar can be written plain.
#[tactic(auto, unfolding(yq_core::specs::Writable::can_write_plain))]
fn can_write_plain(scalar: &Scalar, flow: bool) -> bool
    ensures { result ≡ spec.can_write_plain scalar.now flow }
{
    let text = scalar.text();
    !is_string(scalar.kind()) || (is_string(resolve(text)) && is_plain_text(flow, text))
}

/// Whether neither white space nor an LF is in front, nor the end.
fn begins_literally(text: &[u8]) -> bool
    ensures { result ≡ begins_literally text.now }
{
    match text {
        [] => false,
        [first, ..] => !is_white(*first) && *first != b'\n',
    }
}

/// Whether a literal scalar holds the text as it is.
fn is_literal_text(text: &str) -> bool
    ensures { result ≡ spec.is_literal_text text.now }
{
    let bytes = text.as_bytes();
    begins_literally(bytes) && !bytes.ends_with(b"\n\n") && holds_each(Holder::Literal, text)
}

/// Whether the style can write the scalar at the place. No memory is taken.
pub fn can_write(scalar: &Scalar, style: Style, place: Place) -> bool
    ensures { result ≡ spec.can_write scalar.now style place }
{
    let text = scalar.text();
    let string = is_string(scalar.kind());
    match style {
        Style::Plain => can_write_plain(scalar, in_flow(place)),
        Style::Single => string && holds_each(Holder::Single, text),
        Style::Double => string,
        Style::Literal => string && matches!(place, Place::Block) && is_literal_text(text),
        Style::Folded => false,
    }
}

/// The style in which the scalar is written there: plain if it can be, else in double quotes.
#[tactic(auto, using(yq_core::proofs::NodesWrittenLaws::double_when, yq_core::proofs::NodesWrittenLaws::other_plain))]
pub fn written_style(scalar: &Scalar, place: Place) -> Style
    ensures value { result ≡ written.written_style scalar.now place }
    ensures can { spec.can_write scalar.now result place ≡ true }
    ensures inline { IsOneLine result }
    ensures kind { IsScalar scalar.now.kind scalar.now.text }
{
    if scalar.kind() == Kind::Text && !can_write(scalar, Style::Plain, place) {
        Style::Double
    } else {
        Style::Plain
    }
}
