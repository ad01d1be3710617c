//! A refusal with what a person reads about the value that refuses.
ghost use Rattle.std.specs.Prelude.{◌≡◌};
ghost use Rattle.yq_failure.specs.declared.failure.Failure.TheVariants.{Fault};

use std::marker::Model;
use yq_failure::Failure;
use yq_semantics::{ExprError, Refusal};

/// A refusal with the line that says at which value it is, if it is at one. Clauses see the refusal alone.
#[derive(Debug, Drop)]
pub struct NamedRefusal {
    pub why: Refusal,
    pub line: Option<String>,
}

impl Model for NamedRefusal {
    ghost use Rattle.yq_semantics.specs.declared.refusal.Refusal.{Refusal as Why};

    ghost Value = { Why };

    ghost view = { λ r. r.why };
}

/// Why a program isn't carried out on a text.
pub type EditError = Failure<NamedRefusal>;

/// What something gives, or its refusal with no line.
pub fn unnamed<T: Drop>(found: Result<T, ExprError>) -> Result<T, EditError>
    ensures { result ≡ found }
{
    match found {
        Ok(found) => Ok(found),
        Err(ExprError::Memory) => Err(Failure::Memory),
        Err(ExprError::Fault(refused)) => {
            let (why, line) = (refused.why(), None);
            Err(Failure::Fault(NamedRefusal { why, line }))
        }
    }
}
