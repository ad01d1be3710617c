//! Items and entries taken out of a text.
ghost use Rattle.yq_edit_rules.specs.RemovalChanges.{FirstIsThere, RemovalIsThere};

/// One of several items or entries, with whole rows, taken out of a text.
#[tactic(auto, using(crate::proofs::RemovalChangeLaws::removal_is_there))]
pub fn taken_out()
    ensures { RemovalIsThere }
{}

/// The first of several items or entries of a compact collection taken out of a text.
#[tactic(auto, using(crate::proofs::FirstOutLaws::first_is_there))]
pub fn first_taken_out()
    ensures { FirstIsThere }
{}
