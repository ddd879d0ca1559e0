ghost use Rattle.std.specs.Prelude.{◌≡◌};
ghost use Rattle.beam_listing.specs.declared.miss.Miss.TheVariants.{NoMemory};

use std::alloc::{AllocError, AllocFailed};

/// Why a text hasn't the value that a reader looks for.
#[derive(Clone, Copy, Debug, PartialEq, Eq)]
pub enum Miss {
    /// The text is something else.
    Unknown,
    /// The allocator refused memory.
    NoMemory,
}

impl From<AllocError> for Miss {
    ghost from_gives = { λ _ e. e ≡ NoMemory };

    fn from(_error: AllocError) -> Miss {
        Miss::NoMemory
    }
}

impl<T: Drop> From<AllocFailed<T>> for Miss {
    ghost from_gives = { λ _ e. e ≡ NoMemory };

    fn from(_error: AllocFailed<T>) -> Miss {
        Miss::NoMemory
    }
}
