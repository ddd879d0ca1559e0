ghost use Rattle.std.specs.Prelude.{◌≡◌};
ghost use Rattle.beam_iff.specs.Chunks.{number_of};
ghost use Rattle.beam_iff.specs.declared.error.IffError.TheVariants.{NoMemory};

use std::alloc::AllocError;
use thiserror::Error;

/// Why a file has no chunks to read, or could not be written.
#[derive(Clone, Copy, Debug, PartialEq, Eq, Error)]
pub enum IffError {
    /// The file is no form of type `BEAM`.
    #[error("NotForm")]
    NotForm,
    /// The file, the form or a chunk ends too early.
    #[error("Truncated")]
    Truncated,
    /// The file is compressed.
    #[error("CompressedFile")]
    CompressedFile,
    /// A chunk that is read stands there twice.
    #[error("DuplicateChunk")]
    DuplicateChunk,
    /// Memory was refused.
    #[error("NoMemory")]
    NoMemory,
}

impl IffError {
    /// The number of the error, from 1.
    pub fn number(&self) -> u8
        ensures { result ≡ number_of self.now }
    {
        match self {
            IffError::NotForm => 1,
            IffError::Truncated => 2,
            IffError::CompressedFile => 3,
            IffError::DuplicateChunk => 4,
            IffError::NoMemory => 5,
        }
    }
}

impl From<AllocError> for IffError {
    ghost from_gives = { λ _ e. e ≡ NoMemory };

    fn from(_error: AllocError) -> IffError {
        IffError::NoMemory
    }
}
