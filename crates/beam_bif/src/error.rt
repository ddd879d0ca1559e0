//! Why a native has no value.

ghost use Rattle.beam_bif.specs.declared.error.NativeError.TheVariants.{NoMemory};
ghost use Rattle.std.specs.Prelude.{◌≡◌};

use beam_model::exception::{Class, Exception, Fault};
use beam_term::{Term, TermError};
use std::alloc::{AllocError, AllocFailed};
use thiserror::Error;

/// Why the call of a native has no value.
#[derive(Debug, Drop, Error)]
pub enum NativeError {
    /// The allocator refused memory.
    #[error("NoMemory")]
    NoMemory,
    /// The native raised this.
    #[error("Raised")]
    Raised(Exception),
}

impl From<AllocError> for NativeError {
    ghost from_gives = { λ _ e. e ≡ NoMemory };

    fn from(_e: AllocError) -> NativeError {
        NativeError::NoMemory
    }
}

impl<T: Drop> From<AllocFailed<T>> for NativeError {
    ghost from_gives = { λ _ e. e ≡ NoMemory };

    fn from(_e: AllocFailed<T>) -> NativeError {
        NativeError::NoMemory
    }
}

/// Why `call_bif` has no value.
#[derive(Debug, Drop, Error)]
pub enum BifError {
    /// The allocator refused memory.
    #[error("NoMemory")]
    NoMemory,
    /// An exception of this class and value.
    #[error("Raise")]
    Raise(Class, Term),
}
