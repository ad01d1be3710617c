//! What is in a text where paths lead, outside flow collections.
use crate::places::held::{EntryMark, Held};
use crate::places::lines_cut::LinesIn;
use crate::places::piece::TextPiece;

/// What is in a text where a path leads, outside flow collections.
#[derive(Clone, Copy)]
pub enum Placement<'t> {
    /// A node alone on its line, without its anchor: it is never nothing.
    Alone(TextPiece<'t>),
    /// An inline node, or nothing, on the line of a key or dash.
    Beside(Held<'t>),
    /// A block collection on the lines under a key or dash, by its column, counted from 0.
    Under(Held<'t>, usize),
    /// A collection that begins on the line of its dash, by that, its column, and the lines from after the
    /// dash on.
    Compact(EntryMark, usize, LinesIn<'t>),
    /// A block scalar, by the indentation of its text, in columns.
    Block(Held<'t>, usize),
    /// A root that is a block collection, by its column.
    Root(usize, LinesIn<'t>),
    /// No rows: nothing after the document's gap.
    NoRows(TextPiece<'t>),
}
