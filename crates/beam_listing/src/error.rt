ghost use Rattle.std.specs.Prelude.{◌≡◌, ℕ};
ghost use Rattle.beam_listing.specs.declared.error.ListingError.TheVariants.{NoMemory};

use std::alloc::{AllocError, AllocFailed};
use thiserror::Error;

/// Why a text is not read as a listing, or a listing not printed. Lines count from 1.
#[derive(Clone, Copy, Debug, PartialEq, Eq, Error)]
pub enum ListingError {
    /// The form that begins on this line isn't Erlang terms with a full stop.
    #[error("line {0}: Syntax")]
    Syntax(usize),
    /// The form on this line isn't one of a listing, or stands out of its place.
    #[error("line {0}: UnknownForm")]
    UnknownForm(usize),
    /// The allocator refused memory.
    #[error("NoMemory")]
    NoMemory,
}

impl ListingError {
    /// The error's number: 1 for Syntax, 2 for UnknownForm, 3 for NoMemory.
    pub fn number(&self) -> u8
        ensures syntax { (line : ℕ) → self.now ≡ ListingError.Syntax line → result ≡ 1 }
        ensures unknown { (line : ℕ) → self.now ≡ ListingError.UnknownForm line → result ≡ 2 }
        ensures no_memory { self.now ≡ ListingError.NoMemory → result ≡ 3 }
    {
        match self {
            ListingError::Syntax(_) => 1,
            ListingError::UnknownForm(_) => 2,
            ListingError::NoMemory => 3,
        }
    }
}

impl From<AllocError> for ListingError {
    ghost from_gives = { λ _ e. e ≡ NoMemory };

    fn from(_error: AllocError) -> ListingError {
        ListingError::NoMemory
    }
}

impl<T: Drop> From<AllocFailed<T>> for ListingError {
    ghost from_gives = { λ _ e. e ≡ NoMemory };

    fn from(_error: AllocFailed<T>) -> ListingError {
        ListingError::NoMemory
    }
}
