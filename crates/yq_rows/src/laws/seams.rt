//! Laws of seams: what a row asks of the text after it, and rows that take the place of others.
ghost use Rattle.std.specs.Prelude.{◌≡◌, ℕ, Bool, List, [], ◌∷◌, ◌++◌, false, true};
ghost use Rattle.yq_core.{specs.BlockRepair.repair, specs.Characters.pairs_returns, specs.Text.{is_empty, joined, text_lines}};
ghost use Rattle.yq_row_table.{specs.Gap.IsGap, specs.Grammar.{IsRow, AreRows, Limit}};
ghost use Rattle.yq_row_table.specs.Joined.{CompactFits, DashFits, Joins, compact_row, dashed_row, joined_row};
ghost use Rattle.yq_row_table.specs.Rows.{Content, Row, mark_column, parent_indent, print_row, rows_text};
ghost use Rattle.yq_row_table.specs.Seams.{MayFollowRows, TailFits, TakesPlace, retail};
ghost use Rattle.yq_rows.specs.RowLaws.{AskAlike};

/// A row before one text is a row before another one that may come after it: rows that begin where
/// the row allows, and what its tail or block scalar asks.
pub fn row_seamed()
    ensures { (limit : Limit) (r : Row) (t : List ℕ) (after : List Row) (end rest : List ℕ) →
        IsRow limit r t →
        MayFollowRows limit (r ∷ []) after end rest →
        IsRow limit r (rows_text after (end ++ rest)) }
{}

/// Rows after rows, exchanged for others: what the last row in front asks of the text after it.
pub fn rows_seamed()
    ensures { (front rows new : List Row) (limit : Limit) (end rest new_end new_rest : List ℕ) →
        AreRows limit (front ++ rows) end rest →
        MayFollowRows limit front new new_end new_rest →
        AreRows limit (front ++ new) new_end new_rest }
{}

/// A row with another tail, before another text, takes the place of the row, where that tail fits.
pub fn row_retailed()
    ensures { (limit : Limit) (r : Row) (t new u : List ℕ) → IsRow limit r t →
        pairs_returns (print_row r t) ≡ true →
        TailFits (parent_indent r) new r.content u → TakesPlace limit r t (retail new r) u }
{}

/// What comes after a row's dashes, exchanged for a row that begins in that column.
pub fn row_joined()
    ensures row { (limit other : Limit) (r q : Row) (t u : List ℕ) → IsRow limit r t →
        IsRow other q u → Joins r q → TakesPlace limit r t (joined_row r q) u }
    ensures limit { (r q : Row) → q.column ≡ mark_column r → AskAlike (joined_row r q) q }
{}

/// A row up to one of its dashes, with another content after that; and a row after whose dash
/// is a row in place of its content.
pub fn row_dashed()
    ensures cut { (limit : Limit) (r : Row) (dashes : List ℕ) (n : ℕ) (more : List ℕ)
        (new : Content) (t u : List ℕ) → IsRow limit r t → DashFits r dashes n more new u →
        TakesPlace limit r t (dashed_row dashes new r) u }
    ensures compact { (limit other : Limit) (n : ℕ) (r q : Row) (t u : List ℕ) → IsRow limit r t →
        IsRow other q u → CompactFits n r q →
        TakesPlace limit r t (compact_row n r q) u }
{}

/// A gap after what stays of another one: the lines are those of both, and it is a gap where the
/// second one is; repaired, it is one too.
pub fn gaps_joined()
    ensures lines { (kept next x : List ℕ) → is_empty x ≡ false → IsGap kept x →
        text_lines (kept ++ next) ≡ text_lines kept ++ text_lines next }
    ensures gap { (kept next x y : List ℕ) → is_empty x ≡ false → IsGap kept x → IsGap next y →
        IsGap (kept ++ next) y }
    ensures repaired { (keep : Bool) (m column : ℕ) (gap rest : List ℕ) → IsGap gap rest →
        IsGap (joined (repair keep m column (text_lines gap))) rest }
{}
