//! Why a listing can't be loaded.

use beam_term::TermError;
use std::alloc::AllocError;
use thiserror::Error;

/// A fault of a listing, or want of memory.
#[derive(Clone, Copy, Debug, PartialEq, Eq, Error)]
pub enum CheckError {
    /// A label is defined twice, isn't below the label count, or is named and not defined.
    #[error("BadLabel")]
    BadLabel,
    /// The instructions aren't functions one after the other, as many as the function count says and each once.
    #[error("BadHead")]
    BadHead,
    /// An export doesn't name a function's entry label, or two have one name and arity.
    #[error("BadExport")]
    BadExport,
    /// An instruction calls a native that it can't call.
    #[error("UnknownBif")]
    UnknownBif,
    /// A register number is above 1,023 (x) or 1,022 (y), or an arity is above 255.
    #[error("LimitExceeded")]
    LimitExceeded,
    /// A row could miss a y register or the frame that it names, or read a catch tag as a value.
    #[error("FrameMismatch")]
    FrameMismatch,
    /// Memory was refused.
    #[error("NoMemory")]
    NoMemory,
}

impl CheckError {
    ghost use Rattle.std.specs.Prelude.{◌≡◌};
    ghost use Rattle.beam_check.specs.Fault.{number_of};

    /// The number of the refusal, 1 to 6, and 7 for want of memory.
    pub fn number(&self) -> u8
        ensures { result ≡ number_of self.now }
    {
        match self {
            CheckError::BadLabel => 1,
            CheckError::BadHead => 2,
            CheckError::BadExport => 3,
            CheckError::UnknownBif => 4,
            CheckError::LimitExceeded => 5,
            CheckError::FrameMismatch => 6,
            CheckError::NoMemory => 7,
        }
    }
}

impl From<AllocError> for CheckError {
    ghost use Rattle.std.specs.Prelude.{◌≡◌};
    ghost use Rattle.beam_check.specs.declared.error.CheckError.TheVariants.{NoMemory};

    ghost from_gives = { λ _ e. e ≡ NoMemory };

    fn from(_refused: AllocError) -> CheckError {
        CheckError::NoMemory
    }
}

impl From<TermError> for CheckError {
    ghost use Rattle.std.specs.Prelude.{◌≡◌};
    ghost use Rattle.beam_check.specs.declared.error.CheckError.TheVariants.{NoMemory};

    ghost from_gives = { λ _ e. e ≡ NoMemory };

    /// Atoms are shared here and no term is made, so a term's only error is want of memory.
    fn from(_refused: TermError) -> CheckError {
        CheckError::NoMemory
    }
}
