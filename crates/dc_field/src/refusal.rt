//! Out of memory, alone or beside a fault.

ghost use Rattle.std.specs.Prelude.{◌≡◌};
ghost use Rattle.dc_field.specs.declared.refusal.Refusal.TheVariants.{NoMemory as no_memory};

use std::alloc::{AllocError, AllocFailed};

/// Memory ran out.
#[derive(Clone, Copy, Debug, PartialEq, Eq)]
pub struct NoMemory;

impl From<AllocError> for NoMemory {
    fn from(_e: AllocError) -> NoMemory {
        NoMemory
    }
}

impl<T: Drop> From<AllocFailed<T>> for NoMemory {
    fn from(_e: AllocFailed<T>) -> NoMemory {
        NoMemory
    }
}

/// Why a call that takes memory refused: memory ran out, or what it was given has a fault.
#[derive(Debug, Drop)]
pub enum Refusal<F> {
    /// Memory ran out.
    NoMemory,
    /// The fault.
    Bad(F),
}

impl<F> From<NoMemory> for Refusal<F> {
    ghost from_gives = { λ _ e. e ≡ no_memory };

    fn from(_e: NoMemory) -> Refusal<F> {
        Refusal::NoMemory
    }
}

impl<F> From<AllocError> for Refusal<F> {
    ghost from_gives = { λ _ e. e ≡ no_memory };

    fn from(_e: AllocError) -> Refusal<F> {
        Refusal::NoMemory
    }
}

impl<F, T: Drop> From<AllocFailed<T>> for Refusal<F> {
    ghost from_gives = { λ _ e. e ≡ no_memory };

    fn from(_e: AllocFailed<T>) -> Refusal<F> {
        Refusal::NoMemory
    }
}
