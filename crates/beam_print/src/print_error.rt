ghost use Rattle.std.specs.Prelude.{◌≡◌};
ghost use Rattle.beam_erltext.specs.declared.error.TextError.{TextError as TheTextError};
ghost use Rattle.beam_print.specs.declared.print_error.PrintError.TheVariants.{NoMemory};

use beam_erltext::TextError;
use std::alloc::{AllocError, AllocFailed};
use thiserror::Error;

/// Why a text isn't written whole.
#[derive(Clone, Copy, Debug, PartialEq, Eq, Error)]
pub enum PrintError {
    /// The allocator refused memory.
    #[error("NoMemory")]
    NoMemory,
    /// The writer failed, or takes no more bytes.
    #[error("Unwritten")]
    Unwritten,
}

impl From<AllocError> for PrintError {
    ghost from_gives = { λ _ e. e ≡ NoMemory };

    fn from(_error: AllocError) -> PrintError {
        PrintError::NoMemory
    }
}

impl<T: Drop> From<AllocFailed<T>> for PrintError {
    ghost from_gives = { λ _ e. e ≡ NoMemory };

    fn from(_error: AllocFailed<T>) -> PrintError {
        PrintError::NoMemory
    }
}

// Printing fails only for memory.
impl From<TextError> for PrintError {
    ghost from_gives = { λ _ e. e ≡ NoMemory };

    fn from(_error: TextError) -> PrintError {
        PrintError::NoMemory
    }
}
