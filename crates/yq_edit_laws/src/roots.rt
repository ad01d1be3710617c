//! Laws on values in the place of the roots of documents.
ghost use Rattle.yq_edit_laws.specs.RootEdits as spec;

/// A value put in the place of a root that is a block collection, or where none is written, carries
/// out its operation.
pub fn roots_are_put()
    ensures block { spec.RootsArePut }
    ensures first { spec.NoRowsArePut }
{}
