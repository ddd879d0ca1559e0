//! Why a record isn't written or read.
ghost use Rattle.std.specs.Prelude.{◌≡◌};
ghost use Rattle.beam_records.specs.declared.error.RecordError.TheVariants.{NoMemory};

use std::alloc::{AllocError, AllocFailed};
use thiserror::Error;

/// Why a record isn't written or read.
#[derive(Clone, Copy, Debug, PartialEq, Eq, Error)]
pub enum RecordError {
    /// It has no record: the number of its seat is 4,096 or above; no body spells its command; or the body has 2^32 bytes or more.
    #[error("Unspelled")]
    Unspelled,
    /// The bytes begin with no record. With more bytes they may.
    #[error("NoRecord")]
    NoRecord,
    /// Memory was refused.
    #[error("NoMemory")]
    NoMemory,
}

impl From<AllocError> for RecordError {
    ghost from_gives = { λ _ e. e ≡ NoMemory };

    fn from(_refused: AllocError) -> RecordError {
        RecordError::NoMemory
    }
}

impl<T: Drop> From<AllocFailed<T>> for RecordError {
    ghost from_gives = { λ _ e. e ≡ NoMemory };

    fn from(_refused: AllocFailed<T>) -> RecordError {
        RecordError::NoMemory
    }
}
