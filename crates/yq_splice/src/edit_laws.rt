//! Laws on what operations exchange.
ghost use Rattle.yq_edit_rules.specs.EditLaws.{EditsCarryOut, FittingHasEdit};

/// What an operation exchanges are segments of the text; where it fits, they make of it a text that
/// reads as the documents after it, and exchange the rows and ends of parts that they touch, and no
/// others, or all bytes stay.
pub fn edits_carry_out()
    ensures { EditsCarryOut }
{}

/// For every operation that fits the documents of a text, it is defined what it replaces.
pub fn fitting_has_edit()
    ensures { FittingHasEdit }
{}
