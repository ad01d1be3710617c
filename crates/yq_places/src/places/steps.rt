//! By how many columns the collections of a document are deeper than their keys.
ghost use Rattle.std.specs.Prelude.{◌≡◌, ◌<◌, ◌≤◌, length, IfSome};
ghost use Rattle.yq_row_table.specs.View.{rows_view};
ghost use Rattle.yq_outline.{specs.Lines.lines_of_rows, specs.Extents.IsRowsView, specs.RowWalk.HasRows};
ghost use Rattle.yq_row_walk.specs.Walk.{IsWalk};
ghost use Rattle.yq_places.specs.StepReading as reading;
ghost use Rattle.yq_places.specs.Steps as spec;

use yq_outline::{Position, Stretch};
use yq_row_table::Rows;
use yq_row_walk::{Walk, level_at, lines_before_mark};

/// How far the rows of a document were searched for the first collection of a kind that is under a key: no
/// row before this one begins one.
#[derive(Clone, Copy)]
pub struct StepSearch {
    /// The document's first row, of those of the text.
    pub first: usize,
    /// The row from which the search goes on.
    pub row: usize,
    /// How deep the line before that row is; 0, where the document begins there.
    pub above: usize,
}

/// Whether of two lines of these levels, one right after the other, the first is a key and the other
/// begins a collection under it, one of dashes or of keys.
fn begins_under(above: usize, level: usize, dashes: bool) -> bool
    ensures { result ≡ reading.begins_under_level dashes above level }
{
    let kind = if dashes { 0 } else { 2 };
    above % 3 == 2 && (level % 3 == kind && above < level)
}

/// Where a search in the rows of a document begins: where another one of the same document ended, else at its
/// first row.
fn search_from(document: Stretch, known: Option<StepSearch>) -> StepSearch
    requires { document.first ≤ document.end }
    ensures first { result.first ≡ document.first }
    ensures order { document.first ≤ result.row }
    ensures within { result.row ≤ document.end }
    ensures searched { reading.GoesOnFrom known result }
{
    if let Some(known) = known
        && known.first == document.first
        && known.first <= known.row
        && known.row <= document.end
    {
        return known;
    }
    StepSearch {
        first: document.first,
        row: document.first,
        above: 0,
    }
}

/// How deep the last line of a row is.
fn last_level(rows: &Rows<'_>, row: usize) -> usize
    requires within { row < length rows.now.rows }
    requires rows_view { IsRowsView rows.now }
    ensures { reading.IsLastLevel rows.now.rows row result }
{
    let line = lines_before_mark(rows, row);
    level_at(rows, Position { row, line })
}

/// Goes on searching the rows of a document for the first sequence, or mapping, that is under a key, up to one
/// of them. Such a one begins a row, since a key ends one.
pub fn search_step(
    walk: &Walk<'_, '_>,
    known: Option<StepSearch>,
    dashes: bool,
    upto: usize,
) -> StepSearch
    requires walk { IsWalk walk.now }
    requires known { IfSome known (reading.IsSearched dashes walk.now.rows.now.rows) }
    ensures first { result.first ≡ walk.now.document.first }
    ensures order { walk.now.document.first ≤ result.row }
    ensures within { result.row ≤ walk.now.document.end }
    ensures searched { reading.IsSearched dashes walk.now.rows.now.rows result }
    ensures stops { reading.EndsSearch upto walk.now.document.end dashes
        walk.now.rows.now.rows result }
{
    let start = search_from(walk.document, known);
    let end = upto.min(walk.document.end).max(start.row);
    let mut above = start.above;
    'rows: for row in start.row..end {
        let first = level_at(walk.rows, Position { row, line: 0 });
        if begins_under(above, first, dashes) {
            return StepSearch {
                first: walk.document.first,
                row,
                above,
            };
        }
        above = last_level(walk.rows, row);
    }
    StepSearch {
        first: walk.document.first,
        row: end,
        above,
    }
}

/// By how many columns the first sequence, or mapping, that is under a key is deeper than that
/// key; 2 where there is none. The search goes on from where another one ended.
pub fn first_step(walk: &Walk<'_, '_>, known: Option<StepSearch>, dashes: bool) -> usize
    requires walk { IsWalk walk.now }
    requires known { IfSome known (reading.IsSearched dashes walk.now.rows.now.rows) }
    ensures { (h : HasRows walk.now.rows.now walk.now.document) →
        result ≡ spec.first_step (spec.is_kind dashes) (lines_of_rows h.rows) }
{
    let found = search_step(walk, known, dashes, walk.document.end);
    if found.row >= walk.document.end {
        return 2;
    }
    let level = level_at(
        walk.rows,
        Position {
            row: found.row,
            line: 0,
        },
    );
    (level - found.above) / 3
}

/// The last row up to one that begins in front of so many bytes, or the text's first one.
fn row_at_front(rows: &Rows<'_>, last: usize, front: usize) -> usize
    ensures { result ≤ last }
{
    let mut low = 0;
    let mut high = last.min(rows.len());
    'halves: while low < high {
        let middle = high - (high - low) / 2;
        if middle < rows.len() && rows.start(middle) < front {
            low = middle;
        } else {
            high = middle - 1;
        }
    }
    low
}

/// A search of a document's rows, as far as it went in each text that keeps so many bytes in front.
pub fn searched_before(
    rows: &Rows<'_>,
    known: Option<StepSearch>,
    front: usize,
) -> Option<StepSearch>
    requires { IsRowsView rows.now }
    ensures { reading.StaysAfter front rows.now known result }
{
    let known = known?;
    let row = row_at_front(rows, known.row, front);
    if row < known.first || row >= rows.len() || rows.start(row) >= front {
        return None;
    }
    if row == known.row {
        return Some(known);
    }
    let above = if row == known.first {
        0
    } else {
        last_level(rows, row - 1)
    };
    Some(StepSearch {
        first: known.first,
        row,
        above,
    })
}
