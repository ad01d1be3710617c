//! Types of block scalars.
ghost use Rattle.yq_core.specs.declared.block_types.LineBefore.TheVariants.{Nothing};

/// What comes before a line of folded text.
#[derive(Clone, Copy)]
pub enum LineBefore {
    /// Empty lines alone.
    Nothing,
    /// A line of text.
    Text,
    /// A line that begins with white space after the indentation.
    Spaced,
}

/// The break that is written.
#[derive(Clone, Copy, Debug)]
pub enum Break {
    Lf,
    CrLf,
}
