//! Why an operand can't be read or written.

ghost use Rattle.std.specs.Prelude.{◌≡◌};
ghost use Rattle.beam_operand.specs.declared.error.OperandError.TheVariants.{NoMemory};
ghost use Rattle.beam_operand.specs.Faults.{number_of};

use std::alloc::{AllocError, AllocFailed};
use thiserror::Error;

/// Why an operand can't be read or written.
#[derive(Clone, Copy, Debug, PartialEq, Eq, Error)]
pub enum OperandError {
    #[error("Truncated")]
    Truncated,
    #[error("UnsupportedOperand")]
    UnsupportedOperand,
    #[error("IntegerTooLarge")]
    IntegerTooLarge,
    #[error("BadSign")]
    BadSign,
    #[error("NoMemory")]
    NoMemory,
}

impl OperandError {
    /// The number of the error, from 1.
    pub fn number(&self) -> u8
        ensures { result ≡ number_of self.now }
    {
        match self {
            OperandError::Truncated => 1,
            OperandError::UnsupportedOperand => 2,
            OperandError::IntegerTooLarge => 3,
            OperandError::BadSign => 4,
            OperandError::NoMemory => 5,
        }
    }
}

impl From<AllocError> for OperandError {
    ghost from_gives = { λ _ e. e ≡ NoMemory };

    fn from(_e: AllocError) -> OperandError {
        OperandError::NoMemory
    }
}

impl<T: Drop> From<AllocFailed<T>> for OperandError {
    ghost from_gives = { λ _ e. e ≡ NoMemory };

    fn from(_e: AllocFailed<T>) -> OperandError {
        OperandError::NoMemory
    }
}
