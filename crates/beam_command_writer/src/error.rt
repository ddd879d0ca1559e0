//! Why a command isn't written.
ghost use Rattle.std.specs.Prelude.{◌≡◌};
ghost use Rattle.beam_command_writer.specs.declared.error.CommandError.TheVariants.{NoMemory};

use std::alloc::{AllocError, AllocFailed};
use thiserror::Error;

/// Why a command isn't written.
#[derive(Clone, Copy, Debug, PartialEq, Eq, Error)]
pub enum CommandError {
    /// No body spells it: its terms nest too deep once they stand in a tuple, its message goes to no pid and no name, or it has 2^32 files
    /// or a file of 2^32 bytes.
    #[error("Unspelled")]
    Unspelled,
    /// Memory was refused.
    #[error("NoMemory")]
    NoMemory,
}

impl From<AllocError> for CommandError {
    ghost from_gives = { λ _ e. e ≡ NoMemory };

    fn from(_refused: AllocError) -> CommandError {
        CommandError::NoMemory
    }
}

impl<T: Drop> From<AllocFailed<T>> for CommandError {
    ghost from_gives = { λ _ e. e ≡ NoMemory };

    fn from(_refused: AllocFailed<T>) -> CommandError {
        CommandError::NoMemory
    }
}
