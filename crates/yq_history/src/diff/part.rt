//! Parts of two texts.

/// Whole lines, one after the other: they are in both texts, and shown or not, or in one of them.
#[derive(Clone, Copy)]
pub(crate) enum Part<'a> {
    Skipped(&'a str),
    Unchanged(&'a str),
    Deleted(&'a str),
    Added(&'a str),
}
