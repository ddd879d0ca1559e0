ghost use Rattle.std.specs.Prelude.{◌≡◌};
ghost use Rattle.beam_term.specs.declared.error.TermError.TheVariants.{NoMemory};

use std::alloc::{AllocError, AllocFailed};
use thiserror::Error;

/// Why a term can't be made.
#[derive(Clone, Copy, Debug, PartialEq, Eq, Error)]
pub enum TermError {
    /// The allocator refused memory.
    #[error("NoMemory")]
    NoMemory,
    /// Pairs and tuples would nest deeper than 4,096, or a tuple would have 2^32 elements.
    #[error("TooDeep")]
    TooDeep,
}

impl TermError {
    /// The error's number: 1 for NoMemory, 2 for TooDeep.
    pub fn number(&self) -> u8
        ensures no_memory { self.now ≡ TermError.NoMemory → result ≡ 1 }
        ensures too_deep { self.now ≡ TermError.TooDeep → result ≡ 2 }
    {
        match self {
            TermError::NoMemory => 1,
            TermError::TooDeep => 2,
        }
    }
}

impl From<AllocError> for TermError {
    ghost from_gives = { λ _ e. e ≡ NoMemory };

    fn from(_e: AllocError) -> TermError {
        TermError::NoMemory
    }
}

impl<T: Drop> From<AllocFailed<T>> for TermError {
    ghost from_gives = { λ _ e. e ≡ NoMemory };

    fn from(_e: AllocFailed<T>) -> TermError {
        TermError::NoMemory
    }
}

/// Why an atom can't be made.
#[derive(Clone, Copy, Debug, PartialEq, Eq, Error)]
pub enum AtomError {
    /// The allocator refused memory.
    #[error("NoMemory")]
    NoMemory,
    /// The text has more than 255 characters.
    #[error("TooLong")]
    TooLong,
}

impl From<AllocError> for AtomError {
    ghost use Rattle.std.specs.Prelude.{◌≡◌};
    ghost use Rattle.beam_term.specs.declared.error.AtomError.TheVariants.{NoMemory};

    ghost from_gives = { λ _ e. e ≡ NoMemory };

    fn from(_e: AllocError) -> AtomError {
        AtomError::NoMemory
    }
}
