//! Why an event isn't entered.

use std::alloc::AllocError;
use thiserror::Error;

/// Why an event isn't entered. The journal then stays as it was.
#[derive(Clone, Copy, Debug, PartialEq, Eq, Error)]
pub enum JournalError {
    /// Memory was refused. Never where capacity is left.
    #[error("NoMemory")]
    NoMemory,
    /// The journal has as many entries as it can have.
    #[error("JournalFull")]
    JournalFull,
}

impl JournalError {
    ghost use Rattle.std.specs.Prelude.{◌≡◌};
    ghost use Rattle.beam_journal.specs.Refusal.{number_of};

    /// The number of the refusal: 1 or 2.
    pub fn number(&self) -> u8
        ensures { result ≡ number_of self.now }
    {
        match self {
            JournalError::NoMemory => 1,
            JournalError::JournalFull => 2,
        }
    }
}

impl From<AllocError> for JournalError {
    ghost use Rattle.std.specs.Prelude.{◌≡◌};
    ghost use Rattle.beam_journal.specs.declared.error.JournalError.TheVariants.{NoMemory};

    ghost from_gives = { λ _ e. e ≡ NoMemory };

    fn from(_refused: AllocError) -> JournalError {
        JournalError::NoMemory
    }
}
