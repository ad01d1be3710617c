//! Laws of values that are put at items and entries.
ghost use Rattle.yq_edit_laws.specs.MarkedValues.{MarkedValuesArePut};

/// A value put at an item or entry, or in the place of a node alone on its line, carries out
/// Replace.
pub fn values_are_put()
    ensures { MarkedValuesArePut }
{}
