//! The rows of items and entries among those of a text.
ghost use Rattle.std.specs.Prelude.{◌≡◌, map, option_map};
ghost use Rattle.yq_core.specs.Entries.{tree_step};
ghost use Rattle.yq_documents.specs.LinesInRows.{row_line_of};
ghost use Rattle.yq_row_walk.specs.Walk.{IsWalk, OfWalkRows};
ghost use Rattle.yq_places.specs.PlacementReading as reading;

use crate::places::known_end::following_row;
use yq_core::Step;
use yq_row_walk::{Walk, level_at, line_at, lines_before_mark};

/// The rows of an item or entry.
#[derive(Clone, Copy)]
pub struct RowsOfEntry {
    /// How many rows of the text come before the first one.
    pub row: usize,
    /// How many lines of that row come before the one of the key or dash.
    pub line: usize,
    /// How many lines of it come before that of its mark.
    pub dashes: usize,
    /// How many rows of the text come before what is after the last one.
    pub end: usize,
}

/// The rows of the item or entry to which steps lead in a document.
#[inline(always)]
pub fn entry_along(walk: &Walk<'_, '_>, steps: &[Step]) -> Option<RowsOfEntry>
    requires { IsWalk walk.now }
    ensures { OfWalkRows walk.now (λ d rs. option_map reading.as_numbers result ≡
        option_map (reading.numbers_of_entry d.first rs)
        (row_line_of (map tree_step steps.now) rs)) }
{
    let at = line_at(walk, steps)?;
    let level = level_at(walk.rows, at);
    let dashes = lines_before_mark(walk.rows, at.row);
    Some(RowsOfEntry {
        row: at.row,
        line: at.line,
        dashes,
        end: following_row(walk, at, dashes, level),
    })
}
