//! Why a module isn't loaded.

use beam_machine::event::Refused;
use std::alloc::AllocError;
use thiserror::Error;

/// Why a module isn't loaded.
#[derive(Clone, Copy, Debug, PartialEq, Eq, Error)]
pub enum CodeError {
    /// The module `erlang` can't be loaded.
    #[error("Sticky")]
    Sticky,
    /// The module has old code.
    #[error("NotPurged")]
    NotPurged,
    /// A module stands twice in an upgrade list.
    #[error("Duplicated")]
    Duplicated,
    /// Memory was refused.
    #[error("NoMemory")]
    NoMemory,
    /// There can't be more instances.
    #[error("TooMany")]
    TooMany,
}

impl CodeError {
    ghost use Rattle.std.specs.Prelude.{◌≡◌};
    ghost use Rattle.beam_codesrv.specs.Refusal.{number_of};

    /// The number of the refusal: 1 to 5.
    pub fn number(&self) -> u8
        ensures { result ≡ number_of self.now }
    {
        match self {
            CodeError::Sticky => 1,
            CodeError::NotPurged => 2,
            CodeError::Duplicated => 3,
            CodeError::NoMemory => 4,
            CodeError::TooMany => 5,
        }
    }
}

impl From<AllocError> for CodeError {
    ghost use Rattle.std.specs.Prelude.{◌≡◌};
    ghost use Rattle.beam_codesrv.specs.declared.error.CodeError.TheVariants.{NoMemory};

    ghost from_gives = { λ _ e. e ≡ NoMemory };

    fn from(_refused: AllocError) -> CodeError {
        CodeError::NoMemory
    }
}

impl From<CodeError> for Refused {
    ghost use Rattle.std.specs.Prelude.{◌≡◌};
    ghost use Rattle.beam_codesrv.specs.Refusal.{refusal_of};

    ghost from_gives = { λ e refusal. refusal ≡ refusal_of e };

    fn from(refused: CodeError) -> Refused {
        match refused {
            CodeError::Sticky => Refused::Sticky,
            CodeError::NotPurged => Refused::NotPurged,
            CodeError::Duplicated => Refused::Duplicated,
            CodeError::NoMemory => Refused::NoMemory,
            CodeError::TooMany => Refused::TooMany,
        }
    }
}
