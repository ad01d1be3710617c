//! A document, places in it, and what an update does at each of them.
ghost use Rattle.std.specs.Prelude.{◌≡◌};

use crate::plans::effect::Action;
use yq_documents::Documents;
use yq_eval::FoundPlaces;
use yq_nodes::Node;
use yq_planner::Aliases;

/// A document of a text, by its number, counted from 0, with its root.
#[derive(Clone, Copy)]
pub(crate) struct DocumentRoot<'a, 't> {
    pub(crate) documents: &'a Documents<'t>,
    pub(crate) doc: usize,
    pub(crate) root: Node<'a, 't>,
}

impl DocumentRoot<'_, '_> {
    /// How many bytes the text of its documents has.
    pub(crate) fn text_length(&self) -> usize {
        self.documents.text().len()
    }
}

/// Places of a document that a pipe found.
#[derive(Drop)]
pub(crate) struct DocumentPlaces<'a, 't> {
    pub(crate) document: DocumentRoot<'a, 't>,
    pub(crate) places: FoundPlaces<'a, 't>,
}

/// What an update does at each place of a document of that number, which has those aliases.
#[derive(Clone, Copy)]
pub(crate) struct DocumentEffect<'a, 'v, 'n> {
    pub(crate) doc: usize,
    pub(crate) aliases: &'v Aliases<'n>,
    pub(crate) action: Action<'a, 'v>,
}

impl<'a, 'v, 'n> DocumentEffect<'a, 'v, 'n> {
    /// An action at each place of a document of that number, which has those aliases.
    pub(crate) fn of(
        doc: usize,
        aliases: &'v Aliases<'n>,
        action: Action<'a, 'v>,
    ) -> DocumentEffect<'a, 'v, 'n>
        ensures doc { result.doc ≡ doc }
        ensures aliases { result.aliases.now ≡ aliases.now }
        ensures action { result.action ≡ action.entry }
    {
        DocumentEffect {
            doc,
            aliases,
            action,
        }
    }
}
