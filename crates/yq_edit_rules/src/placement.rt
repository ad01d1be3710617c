//! Laws on the rows in which items and entries are.
ghost use Rattle.yq_edit_rules.specs.PlacementLaws.{RowsAreFound};

/// The rows of an item or entry are those of its line, with the lines under it.
#[tactic(auto, using(crate::proofs::PlacementRows::rows_located))]
pub fn rows_located()
    ensures { RowsAreFound }
{}
