//! The kinds of scalars.

/// The kind of a scalar, by the core schema (YAML 1.2.2, section 10.3).
#[derive(Clone, Copy, Debug, PartialEq, Eq)]
pub enum Kind {
    /// `null`.
    Null,
    /// `true` or `false`.
    Bool,
    /// A whole number.
    Int,
    /// A number with a point or an exponent, an infinity, or no number.
    Float,
    /// A string.
    Text,
}
