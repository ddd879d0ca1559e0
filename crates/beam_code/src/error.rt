//! Why a Code chunk can't be read.

ghost use Rattle.std.specs.Prelude.{◌≡◌};
ghost use Rattle.beam_term.specs.declared.error.TermError.{TermError};
ghost use Rattle.beam_code.specs.declared.error.CodeError.TheVariants.{NoMemory};
ghost use Rattle.beam_code.specs.Faults.{number_of};

use beam_term::TermError;
use std::alloc::{AllocError, AllocFailed};
use thiserror::Error;

/// Why a Code chunk can't be read. Positions count the chunk's bytes.
#[derive(Clone, Copy, Debug, PartialEq, Eq, Error)]
pub enum CodeError {
    /// An opcode outside the profile: its number, and where it stands.
    #[error("UnsupportedOpcode")]
    UnsupportedOpcode(u8, usize),
    /// An operand that can't be read, isn't of its opcode's kind or is outside its table: where it begins.
    #[error("BadOperand")]
    BadOperand(usize),
    /// The chunk ends before int_code_end.
    #[error("Truncated")]
    Truncated,
    #[error("NoMemory")]
    NoMemory,
}

impl CodeError {
    /// The number of the error, from 1.
    pub fn number(&self) -> u8
        ensures { result ≡ number_of self.now }
    {
        match self {
            CodeError::UnsupportedOpcode(_, _) => 1,
            CodeError::BadOperand(_) => 2,
            CodeError::Truncated => 3,
            CodeError::NoMemory => 4,
        }
    }
}

impl From<AllocError> for CodeError {
    ghost from_gives = { λ _ e. e ≡ NoMemory };

    fn from(_e: AllocError) -> CodeError {
        CodeError::NoMemory
    }
}

impl<T: Drop> From<AllocFailed<T>> for CodeError {
    ghost from_gives = { λ _ e. e ≡ NoMemory };

    fn from(_e: AllocFailed<T>) -> CodeError {
        CodeError::NoMemory
    }
}
