//! Why a listing can't be assembled.

use beam_check::error::CheckError;
use std::alloc::AllocError;
use thiserror::Error;

/// Why a listing can't be assembled.
#[derive(Clone, Copy, Debug, PartialEq, Eq, Error)]
pub enum AsmError {
    /// It can't be loaded, its file would be too large, or memory was refused.
    #[error(transparent)]
    Check(CheckError),
    /// It has more than 65,535 atoms.
    #[error("TooManyAtoms")]
    TooManyAtoms,
    /// An atom has more than 255 bytes.
    #[error("AtomTooLong")]
    AtomTooLong,
}

impl AsmError {
    ghost use Rattle.std.specs.Prelude.{◌≡◌};
    ghost use Rattle.beam_asm.specs.Refusals.{number_of};

    /// The number of the refusal: 1 to 7 those of the check, 8 and 9.
    pub fn number(&self) -> u8
        ensures { result ≡ number_of self.now }
    {
        match self {
            AsmError::Check(error) => error.number(),
            AsmError::TooManyAtoms => 8,
            AsmError::AtomTooLong => 9,
        }
    }
}

impl From<CheckError> for AsmError {
    ghost use Rattle.std.specs.Prelude.{◌≡◌};
    ghost use Rattle.beam_asm.specs.declared.error.AsmError.TheVariants.{Check};

    ghost from_gives = { λ given made. made ≡ Check given };

    fn from(error: CheckError) -> AsmError {
        AsmError::Check(error)
    }
}

impl From<AllocError> for AsmError {
    ghost use Rattle.std.specs.Prelude.{◌≡◌};
    ghost use Rattle.beam_check.specs.declared.error.CheckError.TheVariants.{NoMemory};
    ghost use Rattle.beam_asm.specs.declared.error.AsmError.TheVariants.{Check};

    ghost from_gives = { λ _ made. made ≡ Check NoMemory };

    fn from(_refused: AllocError) -> AsmError {
        AsmError::Check(CheckError::NoMemory)
    }
}
