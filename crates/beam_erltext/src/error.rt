ghost use Rattle.std.specs.Prelude.{◌≡◌, ℕ};
ghost use Rattle.beam_erltext.specs.declared.error.TextError.TheVariants.{NoMemory};

use std::alloc::{AllocError, AllocFailed};
use thiserror::Error;

/// Why a text is not read, or a term not printed.
#[derive(Clone, Copy, Debug, PartialEq, Eq, Error)]
pub enum TextError {
    /// The text is not one term's: the line of the first fault, from 1.
    #[error("Syntax")]
    Syntax(usize),
    /// The allocator refused memory.
    #[error("NoMemory")]
    NoMemory,
}

impl TextError {
    /// The error's number: 1 for Syntax, 2 for NoMemory.
    pub fn number(&self) -> u8
        ensures syntax { (line : ℕ) → self.now ≡ TextError.Syntax line → result ≡ 1 }
        ensures no_memory { self.now ≡ TextError.NoMemory → result ≡ 2 }
    {
        match self {
            TextError::Syntax(_) => 1,
            TextError::NoMemory => 2,
        }
    }
}

impl From<AllocError> for TextError {
    ghost from_gives = { λ _ e. e ≡ NoMemory };

    fn from(_e: AllocError) -> TextError {
        TextError::NoMemory
    }
}

impl<T: Drop> From<AllocFailed<T>> for TextError {
    ghost from_gives = { λ _ e. e ≡ NoMemory };

    fn from(_e: AllocFailed<T>) -> TextError {
        TextError::NoMemory
    }
}
