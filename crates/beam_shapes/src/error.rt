//! Why the search for shapes fails.

use std::alloc::AllocError;

/// A fault of a listing, or want of memory.
#[derive(Clone, Copy)]
pub enum FrameCheckError {
    /// A row doesn't find its y registers or the frame that it needs.
    FrameMismatch,
    /// Memory was refused.
    NoMemory,
}

impl From<AllocError> for FrameCheckError {
    ghost use Rattle.std.specs.Prelude.{◌≡◌};
    ghost use Rattle.beam_shapes.specs.declared.error.FrameCheckError.TheVariants.{NoMemory};

    ghost from_gives = { λ _ e. e ≡ NoMemory };

    fn from(_refused: AllocError) -> FrameCheckError {
        FrameCheckError::NoMemory
    }
}
