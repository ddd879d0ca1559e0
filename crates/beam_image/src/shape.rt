//! Why operands make no action.
ghost use Rattle.std.specs.Prelude.{◌≡◌};

use std::alloc::{AllocError, AllocFailed};
use thiserror::Error;

/// Why operands make no action.
#[derive(Clone, Copy, Debug, PartialEq, Eq, Error)]
pub enum ShapeError {
    /// An operand hasn't the shape that its opcode asks for.
    #[error("WrongShape")]
    WrongShape,
    /// Memory was refused.
    #[error("NoMemory")]
    NoMemory,
}

impl From<AllocError> for ShapeError {
    ghost use Rattle.beam_image.specs.declared.shape.ShapeError.TheVariants.{NoMemory};

    ghost from_gives = { λ _ e. e ≡ NoMemory };

    fn from(_e: AllocError) -> ShapeError {
        ShapeError::NoMemory
    }
}

impl<T: Drop> From<AllocFailed<T>> for ShapeError {
    ghost use Rattle.beam_image.specs.declared.shape.ShapeError.TheVariants.{NoMemory};

    ghost from_gives = { λ _ e. e ≡ NoMemory };

    fn from(_e: AllocFailed<T>) -> ShapeError {
        ShapeError::NoMemory
    }
}
