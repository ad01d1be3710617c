//! Which rows and ends of parts a document has.
ghost use Rattle.yq_edit_rules.specs.DocumentItems.{DocumentHasItems};

/// Each document of a cut is among its rows and ends of parts.
#[tactic(auto, using(crate::proofs::DocumentItemLaws::document_has_items))]
pub fn documents_have_items()
    ensures { DocumentHasItems }
{}
