ghost use Rattle.std.specs.Prelude.{◌≡◌};
ghost use Rattle.beam_listing.specs.declared.refusal.FormRefusal.TheVariants.{NoMemory};

use std::alloc::{AllocError, AllocFailed};

/// Why no listing is read. The place is how many bytes of the text are left where the form begins.
#[derive(Clone, Copy, Debug, PartialEq, Eq)]
pub enum FormRefusal {
    Syntax(usize),
    Unknown(usize),
    NoMemory,
}

impl From<AllocError> for FormRefusal {
    ghost from_gives = { λ _ e. e ≡ NoMemory };

    fn from(_error: AllocError) -> FormRefusal {
        FormRefusal::NoMemory
    }
}

impl<T: Drop> From<AllocFailed<T>> for FormRefusal {
    ghost from_gives = { λ _ e. e ≡ NoMemory };

    fn from(_error: AllocFailed<T>) -> FormRefusal {
        FormRefusal::NoMemory
    }
}
