//! Laws of splices: a cut, of which other rows are in the place of some.
ghost use Rattle.std.specs.Prelude.{◌≡◌, ◌≤◌, ℕ, List, Some, false, slice_get, true};
ghost use Rattle.yq_row_table.{specs.Counted.RowPlace, specs.Removal.{RepairFits, without_rows}, specs.Rows.{Cut, Row}};
ghost use Rattle.yq_row_table.{specs.Seams.{are_seamed, ends_in_block, ends_in_line}, specs.Splices.CutsItsText, specs.View.rows_of};
ghost use Rattle.yq_rows.specs.RowSplices.{IsCutOfText, MayInsert, MayRemove, MayReplaceRows, MaySplice, RowSplice, cut_inserted};
ghost use Rattle.yq_rows.specs.RowSplices.{cut_removed, cut_spliced};
ghost use Rattle.yq_rows.specs.RowsBetween.{IsRowBetween, RowBetween, ReplacesRow, TailFitsRow, TakesRowPlace};
ghost use Rattle.yq_rows.specs.RowLaws.{HasOldRows, HasNewRows, RowIsTaken, TailIsTaken};

/// A cut, of which other rows are in the place of some, is a cut where they fit and the new text
/// may be. Its text is that before those rows, the new rows with the gap after them, and the
/// rest.
pub fn rows_spliced()
    ensures cut { (x : RowSplice) → IsCutOfText x.cut → MaySplice x → CutsItsText (cut_spliced x) }
    ensures old { (x : RowSplice) → x.start ≤ x.stop → HasOldRows x }
    ensures new { (x : RowSplice) → HasNewRows x }
{}

/// Rows exchanged for others whose text begins like theirs: nothing is asked of the rows in front.
pub fn rows_replaced()
    ensures { (x : RowSplice) → IsCutOfText x.cut → MayReplaceRows x → CutsItsText (cut_spliced x) }
{}

/// One row exchanged for another one that takes its place, after which the next row may be.
pub fn row_replaced()
    ensures { (x : RowBetween) (new : Row) → IsRowBetween x → TakesRowPlace new x → RowIsTaken new x }
{}

/// One row exchanged for another one after the same gap and at the same column: the rows in front
/// ask no more of it.
pub fn row_exchanged()
    ensures { (x : RowBetween) (new : Row) → IsRowBetween x → ReplacesRow new x → RowIsTaken new x }
{}

/// A cut, of which a row has another tail that fits, is a cut where the new text may be.
pub fn tail_replaced()
    ensures { (x : RowBetween) (new : List ℕ) → IsRowBetween x → TailFitsRow new x → TailIsTaken new x }
{}

/// Rows put in after a row: what that row asks of the text after it, and where the next row
/// is. After a tail with a break any text may be.
pub fn rows_inserted()
    ensures cut { (x : RowSplice) → IsCutOfText x.cut → MayInsert x → CutsItsText (cut_inserted x) }
    ensures line { (front : List Row) (u : List ℕ) → ends_in_line front ≡ true →
        ends_in_block front ≡ false → are_seamed front u ≡ true }
{}

/// A cut, from which rows are taken away, is a cut where a gap is in their place, the next row
/// may be there, and after a block scalar is what ends it. So is the cut whose gap is
/// repaired.
pub fn rows_removed()
    ensures any { (x : RowSplice) → IsCutOfText x.cut → MayRemove x → CutsItsText (cut_removed x) }
    ensures repaired { (c : Cut) (k i j : ℕ) (kept run : List (List ℕ)) → IsCutOfText c →
        RepairFits k i j kept run c → CutsItsText (without_rows k i j kept c) }
{}

/// A row counted through all parts is in one of them between other rows.
#[tactic(auto, using(yq_row_table::proofs::splices::ContentPlaces::row_placed))]
pub fn row_placed()
    ensures { (c : Cut) (i : ℕ) (r : Row) → slice_get (rows_of c) i ≡ Some r → RowPlace i r c }
{}
