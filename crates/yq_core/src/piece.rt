//! Where a scalar is in a text.
ghost use Rattle.std.specs.Prelude.{◌≡◌};
ghost use Rattle.yq_core.specs.Piece as spec;

use crate::style::{Place, Style};

/// Where a scalar is in a text, and how it is written, by offsets in bytes. A block scalar has its
/// header from `start` to `head_end` and its raw lines from `raw_start` to `end`; `indent` is the
/// indentation of its text, in columns, and `keep` is whether its header has a `+`. In a piece of another
/// style `head_end` and `raw_start` are `end`, `indent` is 0 and `keep` is false.
#[derive(Clone, Copy)]
pub struct Piece {
    pub style: Style,
    pub start: usize,
    pub head_end: usize,
    pub raw_start: usize,
    pub end: usize,
    pub indent: usize,
    pub keep: bool,
}

/// The piece of a plain or quoted scalar.
pub fn inline_piece(style: Style, start: usize, end: usize) -> Piece
    ensures { result ≡ spec.inline_piece style start end }
{
    Piece {
        style,
        start,
        head_end: end,
        raw_start: end,
        end,
        indent: 0,
        keep: false,
    }
}

/// With how many spaces a further line of a plain scalar begins at least, below the indentation of its
/// parent.
pub fn further_spaces(place: Place, indent: i64) -> Option<usize>
    ensures { result ≡ spec.further_spaces place indent }
{
    match place {
        Place::Block if indent < 0 => Some(0),
        Place::Block => Some(indent as usize + 1),
        Place::Flow => Some(0),
        Place::BlockKey | Place::FlowKey => None,
    }
}
