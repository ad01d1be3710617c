//! Laws of what is put after a text that has no final break.
ghost use Rattle.std.specs.Prelude.{ℕ, List};
ghost use Rattle.yq_row_table.{specs.Appending.{PartFits, with_last_part}, specs.Grammar.{IsCut, Limit}, specs.Rows.{Cut, Part}};
ghost use Rattle.yq_row_table.specs.Splices.{CutsItsText};
ghost use Rattle.yq_rows.{specs.RowsBetween.{AppendedRows, MayAppendIn, MayAppendTo}, specs.RowLaws.{AreAppended, IsClosedCut}};

/// Rows after the last one of a text without a final break: that one gets a break, and the rows
/// come after it.
pub fn rows_appended()
    ensures { (limit : Limit) (x : AppendedRows) → MayAppendTo limit x → AreAppended limit x }
{}

/// The same in a cut.
pub fn end_appended()
    ensures { (k : ℕ) (c : Cut) (x : AppendedRows) → MayAppendIn k c x → IsClosedCut k c x }
{}

/// A part after the last marker of a text, which has no break: the marker gets one.
#[tactic(auto, using(yq_row_table::proofs::splices::MarkerLaws::marker_appended))]
pub fn marker_appended()
    ensures { (t : List ℕ) (c : Cut) (break : List ℕ) (new : Part) → IsCut t c →
        PartFits break new c → CutsItsText (with_last_part break new c) }
{}
