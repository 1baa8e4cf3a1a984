//! Why a call of the outside failed.

ghost use Rattle.std.specs.Prelude.{◌≡◌};
ghost use Rattle.dc_edge.specs.declared.fault.ShelfFault.TheVariants.{NoMemory as no_memory};
ghost use Rattle.dc_edge.specs.declared.fault.WriteFault.TheVariants.{NoMemory as write_no_memory};
ghost use Rattle.dc_edge.specs.declared.fault.LinkFault.TheVariants.{NoMemory as link_no_memory};

use dc_field::NoMemory;
use std::alloc::{AllocError, AllocFailed};
use thiserror::Error;

/// A call of an object of the outside failed; the object's count of faults rose.
#[derive(Clone, Copy, Debug, PartialEq, Eq)]
pub struct Failed;

/// Why a shelf gave no bytes.
#[derive(Clone, Copy, Debug, PartialEq, Eq, Error)]
pub enum ShelfFault {
    /// There is no file of the name.
    #[error("missing")]
    Missing,
    /// The file has more bytes than the limit.
    #[error("too long")]
    TooLong,
    /// The shelf failed.
    #[error("file fault")]
    Failed,
    /// Memory ran out.
    #[error("no memory")]
    NoMemory,
}

impl From<AllocError> for ShelfFault {
    ghost from_gives = { λ _ e. e ≡ no_memory };

    fn from(_e: AllocError) -> ShelfFault {
        ShelfFault::NoMemory
    }
}

impl<T: Drop> From<AllocFailed<T>> for ShelfFault {
    ghost from_gives = { λ _ e. e ≡ no_memory };

    fn from(_e: AllocFailed<T>) -> ShelfFault {
        ShelfFault::NoMemory
    }
}

/// Why a shelf did not write a file.
#[derive(Clone, Copy, Debug, PartialEq, Eq, Error)]
pub enum WriteFault {
    /// The shelf failed. The name may hold anything from here on.
    #[error("file fault")]
    Failed,
    /// Memory ran out, and nothing was written.
    #[error("no memory")]
    NoMemory,
}

impl From<AllocError> for WriteFault {
    ghost from_gives = { λ _ e. e ≡ write_no_memory };

    fn from(_e: AllocError) -> WriteFault {
        WriteFault::NoMemory
    }
}

impl<T: Drop> From<AllocFailed<T>> for WriteFault {
    ghost from_gives = { λ _ e. e ≡ write_no_memory };

    fn from(_e: AllocFailed<T>) -> WriteFault {
        WriteFault::NoMemory
    }
}

/// Why a wire has no new peer, or does not listen.
#[derive(Clone, Copy, Debug, PartialEq, Eq, Error)]
pub enum LinkFault {
    /// The wire failed.
    #[error("wire fault")]
    Failed,
    /// Memory ran out, and nothing was asked.
    #[error("no memory")]
    NoMemory,
}

impl From<AllocError> for LinkFault {
    ghost from_gives = { λ _ e. e ≡ link_no_memory };

    fn from(_e: AllocError) -> LinkFault {
        LinkFault::NoMemory
    }
}

impl<T: Drop> From<AllocFailed<T>> for LinkFault {
    ghost from_gives = { λ _ e. e ≡ link_no_memory };

    fn from(_e: AllocFailed<T>) -> LinkFault {
        LinkFault::NoMemory
    }
}

impl From<NoMemory> for LinkFault {
    ghost from_gives = { λ _ e. e ≡ link_no_memory };

    fn from(_e: NoMemory) -> LinkFault {
        LinkFault::NoMemory
    }
}
