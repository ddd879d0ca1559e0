//! Errors of frames.
ghost use Rattle.std.specs.Prelude.{◌≡◌};
ghost use Rattle.beam_frame.specs.Faults.{error_of, fault_of, number_of};
ghost use Rattle.beam_frame.specs.declared.error.FrameError.TheVariants.{NoMemory};

use beam_machine::command::FrameFault;
use std::alloc::{AllocError, AllocFailed};
use thiserror::Error;

/// Why a frame isn't read or written.
#[derive(Clone, Copy, Debug, PartialEq, Eq, Error)]
pub enum FrameError {
    /// The length of kind and body is above 8,388,608.
    #[error("TooLong")]
    TooLong,
    /// The length is 0, or there is no such kind.
    #[error("BadKind")]
    BadKind,
    /// The body doesn't spell a command of its kind.
    #[error("BadCommand")]
    BadCommand,
    /// Memory was refused.
    #[error("NoMemory")]
    NoMemory,
    /// The session had an error before.
    #[error("Failed")]
    Failed,
}

impl FrameError {
    /// Its number: 1 TooLong, 2 BadKind, 3 BadCommand, 4 NoMemory, 5 Failed.
    pub fn number(&self) -> u8
        ensures { result ≡ number_of self.now }
    {
        match self {
            FrameError::TooLong => 1,
            FrameError::BadKind => 2,
            FrameError::BadCommand => 3,
            FrameError::NoMemory => 4,
            FrameError::Failed => 5,
        }
    }

    /// The fault of the frame; none of `NoMemory` and `Failed`, which no frame has.
    pub fn fault(&self) -> Option<FrameFault>
        ensures { result ≡ fault_of self.now }
    {
        match self {
            FrameError::TooLong => Some(FrameFault::TooLong),
            FrameError::BadKind => Some(FrameFault::BadKind),
            FrameError::BadCommand => Some(FrameFault::BadCommand),
            FrameError::NoMemory | FrameError::Failed => None,
        }
    }
}

impl From<FrameFault> for FrameError {
    ghost from_gives = { λ f e. e ≡ error_of f };

    fn from(fault: FrameFault) -> FrameError {
        match fault {
            FrameFault::TooLong => FrameError::TooLong,
            FrameFault::BadKind => FrameError::BadKind,
            FrameFault::BadCommand => FrameError::BadCommand,
        }
    }
}

impl From<AllocError> for FrameError {
    ghost from_gives = { λ _ e. e ≡ NoMemory };

    fn from(_refused: AllocError) -> FrameError {
        FrameError::NoMemory
    }
}

impl<T: Drop> From<AllocFailed<T>> for FrameError {
    ghost from_gives = { λ _ e. e ≡ NoMemory };

    fn from(_refused: AllocFailed<T>) -> FrameError {
        FrameError::NoMemory
    }
}
