ghost use Rattle.std.specs.Prelude.{◌≡◌};
ghost use Rattle.beam_tables.specs.Readings.{number_of};
ghost use Rattle.beam_tables.specs.declared.error.TablesError.TheVariants.{NoMemory};

use std::alloc::{AllocError, AllocFailed};
use thiserror::Error;

/// Why the chunks of a file spell no tables.
#[derive(Clone, Copy, Debug, PartialEq, Eq, Error)]
pub enum TablesError {
    /// A chunk that has to be there isn't.
    #[error("MissingChunk")]
    MissingChunk,
    /// A chunk isn't the table that it should be.
    #[error("BadTable")]
    BadTable,
    /// The literals are compressed.
    #[error("CompressedLiterals")]
    CompressedLiterals,
    /// A literal is no term, or doesn't fill its size.
    #[error("BadLiteral")]
    BadLiteral,
    /// Memory was refused.
    #[error("NoMemory")]
    NoMemory,
}

impl TablesError {
    /// The number of the error, from 1.
    pub fn number(&self) -> u8
        ensures { result ≡ number_of self.now }
    {
        match self {
            TablesError::MissingChunk => 1,
            TablesError::BadTable => 2,
            TablesError::CompressedLiterals => 3,
            TablesError::BadLiteral => 4,
            TablesError::NoMemory => 5,
        }
    }
}

impl From<AllocError> for TablesError {
    ghost from_gives = { λ _ e. e ≡ NoMemory };

    fn from(_error: AllocError) -> TablesError {
        TablesError::NoMemory
    }
}

impl<T: Drop> From<AllocFailed<T>> for TablesError {
    ghost from_gives = { λ _ e. e ≡ NoMemory };

    fn from(_error: AllocFailed<T>) -> TablesError {
        TablesError::NoMemory
    }
}
