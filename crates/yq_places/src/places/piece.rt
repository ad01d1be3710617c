//! A piece of a text, with what is around it.
use yq_text::Halves;

/// A piece of a text, between the text before it and the text after it.
#[derive(Clone, Copy)]
pub struct TextPiece<'t> {
    pub before: Halves<'t>,
    pub text: &'t str,
    pub after: Halves<'t>,
}
