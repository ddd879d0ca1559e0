ghost use Rattle.std.specs.Prelude.{◌≡◌};
ghost use Rattle.beam_etf.specs.declared.error.EtfError.TheVariants.{NoMemory};
ghost use Rattle.beam_etf.specs.Faults.{from_term_error};

use beam_term::TermError;
use std::alloc::{AllocError, AllocFailed};
use thiserror::Error;

/// Why bytes can't be read as a term.
#[derive(Clone, Copy, Debug, PartialEq, Eq, Error)]
pub enum EtfError {
    /// The bytes end inside a field.
    #[error("Truncated")]
    Truncated,
    /// No such tag, a first byte other than 131, or a sign other than 0 and 1.
    #[error("BadTag")]
    BadTag,
    /// A form of the format that the profile leaves out, or an atom of more than 255 characters.
    #[error("OutOfProfile")]
    OutOfProfile,
    /// An integer outside -2^59..2^59-1.
    #[error("IntegerTooLarge")]
    IntegerTooLarge,
    /// Pairs and tuples nest deeper than 4,096.
    #[error("TooDeep")]
    TooDeep,
    /// An atom isn't UTF-8.
    #[error("BadUtf8")]
    BadUtf8,
    /// The allocator refused memory.
    #[error("NoMemory")]
    NoMemory,
}

impl EtfError {
    ghost use Rattle.std.specs.Prelude.{◌≡◌};
    ghost use Rattle.beam_etf.specs.Faults.{number_of};

    /// The error's number: 1 Truncated, 2 BadTag, 3 OutOfProfile, 4 IntegerTooLarge, 5 TooDeep, 6 BadUtf8, 7 NoMemory.
    pub fn number(&self) -> u8
        ensures { result ≡ number_of self.now }
    {
        match self {
            EtfError::Truncated => 1,
            EtfError::BadTag => 2,
            EtfError::OutOfProfile => 3,
            EtfError::IntegerTooLarge => 4,
            EtfError::TooDeep => 5,
            EtfError::BadUtf8 => 6,
            EtfError::NoMemory => 7,
        }
    }
}

impl From<AllocError> for EtfError {
    ghost from_gives = { λ _ e. e ≡ NoMemory };

    fn from(_e: AllocError) -> EtfError {
        EtfError::NoMemory
    }
}

impl<T: Drop> From<AllocFailed<T>> for EtfError {
    ghost from_gives = { λ _ e. e ≡ NoMemory };

    fn from(_e: AllocFailed<T>) -> EtfError {
        EtfError::NoMemory
    }
}

impl From<TermError> for EtfError {
    ghost from_gives = { λ t e. e ≡ from_term_error t };

    fn from(e: TermError) -> EtfError {
        match e {
            TermError::NoMemory => EtfError::NoMemory,
            TermError::TooDeep => EtfError::TooDeep,
        }
    }
}
