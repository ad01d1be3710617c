//! What a row asks of the next one.
ghost use Rattle.std.specs.Prelude.{◌≡◌};
ghost use Rattle.yq_rows.specs.ReadPieces.{limit_view};
ghost use Rattle.yq_row_table.specs.Grammar as grammar;
ghost use Rattle.yq_row_table.specs.Slicing as slicing;

use yq_core::{Place, further_spaces};

/// What a row asks of the next one.
#[derive(Clone, Copy)]
pub(crate) struct Limit {
    /// Below which column that row is, if this is asked.
    column: Option<usize>,
}

impl Limit {
    /// What is asked of the first row: nothing.
    pub(crate) fn none() -> Limit
        ensures { limit_view result ≡ grammar.unlimited }
    {
        Limit { column: None }
    }

    /// What a row asks of the next one, below a parent of this indentation.
    pub(crate) fn after(parent: i64, is_plain: bool) -> Limit
        ensures { limit_view result ≡ slicing.limit_by parent is_plain }
    {
        Limit {
            column: if is_plain {
                further_spaces(Place::Block, parent)
            } else {
                None
            },
        }
    }

    /// Whether a row may be at a column.
    pub(crate) fn allows(self, column: usize) -> bool
        ensures { result ≡ grammar.allows (limit_view self) column }
    {
        match self.column {
            None => true,
            Some(bound) => column < bound,
        }
    }
}
