//! Why a program can't be carried out on a document, and where.
ghost use Rattle.std.specs.Prelude.{◌≡◌};
ghost use Rattle.yq_failure.specs.declared.failure.Failure.TheVariants.{Fault};

use std::marker::Model;
use yq_core::Step;
use yq_documents::Path;
use yq_failure::Failure;

/// Why a program can't be carried out on a document.
#[derive(Clone, Copy, PartialEq, Eq, Debug)]
pub enum Refusal {
    /// X1: a key step on what is no mapping.
    NotAMap,
    /// X2: an index step, or one to all items, on what has no items.
    NotASequence,
    /// X3: an index outside a sequence.
    IndexOutOfRange,
    /// X4: a step, a comparison or a copy through an alias.
    ThroughAlias,
    /// X5: an alias names an anchor that would go.
    AnchorInUse,
    /// X6: a term found no value, or more than one.
    NotOneValue,
    /// X7: values of these kinds have no sum.
    KindMismatch,
    /// X8: an integer outside 64 bits.
    IntegerRange,
    /// X9: a sum of a float.
    FloatArithmetic,
    /// X10: a comment has no place there.
    NoPlaceForComment,
    /// X11: a comment's text holds what a comment can't.
    BadCommentText,
    /// X12: a root can't be deleted.
    RootDelete,
    /// X13: more than 64 nested collections.
    TooDeep,
    /// X14: a text of more than 16,777,216 bytes.
    TooLarge,
    /// X15: a read where an update is wanted.
    NotAnUpdate,
    /// X16: a key of more than 1,024 characters as written.
    KeyTooLong,
}

/// A refusal with the path to the value at which it was found, if it was found at one. Clauses see the refusal
/// alone.
#[derive(Debug, Drop)]
pub struct Refused {
    why: Refusal,
    place: Option<Path>,
}

impl Model for Refused {
    ghost use Rattle.yq_semantics.specs.declared.refusal.Refusal.{Refusal as Why};

    ghost Value = { Why };

    ghost view = { λ r. r.why };
}

/// Why an expression has no matches, or why no operations are planned for it.
pub type ExprError = Failure<Refused>;

impl Refusal {
    /// The error of a refusal whose place isn't known yet.
    pub fn error(self) -> ExprError
        ensures { result ≡ Fault self }
    {
        let (why, place) = (self, None);
        Failure::Fault(Refused { why, place })
    }
}

impl Refused {
    /// Why.
    pub fn why(&self) -> Refusal
        ensures { result ≡ self.now }
    {
        self.why
    }

    /// The path to the value at which it was found.
    pub fn into_place(self) -> Option<Path> {
        self.place
    }

    /// The same, at the value to which steps lead from a root, where its place isn't known.
    pub fn or_at(self, steps: Option<Vec<Step>>) -> Refused
        ensures { result ≡ self }
    {
        let Refused { why, place } = self;
        let place = match (place, steps) {
            (None, Some(steps)) => Some(Path { doc: 0, steps }),
            (place, _) => place,
        };
        Refused { why, place }
    }

    /// The same, in a document.
    fn inside(self, doc: usize) -> Refused
        ensures { result ≡ self }
    {
        let Refused { why, place } = self;
        let place = match place {
            None => None,
            Some(Path { steps, .. }) => Some(Path { doc, steps }),
        };
        Refused { why, place }
    }
}

/// What something gives in a document, or its refusal there.
pub fn in_document<T: Drop>(doc: usize, found: Result<T, ExprError>) -> Result<T, ExprError>
    ensures { result ≡ found }
{
    match found {
        Err(Failure::Fault(refused)) => Err(Failure::Fault(refused.inside(doc))),
        found => found,
    }
}
