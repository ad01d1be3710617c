//! Why a call fails.

use std::alloc::{AllocError, AllocFailed};

/// Why a call fails.
#[derive(Clone, Copy, Debug, PartialEq, Eq)]
pub enum Failure<E> {
    /// Memory ran out.
    Memory,
    /// What is at fault.
    Fault(E),
}

impl<E> From<AllocError> for Failure<E> {
    ghost use Rattle.std.specs.Prelude.{◌≡◌};
    ghost use Rattle.yq_failure.specs.declared.failure.Failure.TheVariants.{Memory};

    ghost from_gives = { λ _ e. e ≡ Memory };

    fn from(_refused: AllocError) -> Failure<E> {
        Failure::Memory
    }
}

impl<E, T: Drop> From<AllocFailed<T>> for Failure<E> {
    ghost use Rattle.std.specs.Prelude.{◌≡◌};
    ghost use Rattle.yq_failure.specs.declared.failure.Failure.TheVariants.{Memory};

    ghost from_gives = { λ _ e. e ≡ Memory };

    fn from(_refused: AllocFailed<T>) -> Failure<E> {
        Failure::Memory
    }
}
