//! Why a node doesn't come back.
ghost use Rattle.std.specs.Prelude.{◌≡◌};

use beam_receipts::refusal::Refusal;
use std::alloc::AllocError;

/// Why a recorded event isn't entered again. Those before it were entered. `number` is how many entries the node's journal has then, which is
/// the number of the event in a journal that the node has from its beginning.
#[derive(Drop)]
pub enum RecallError<F> {
    /// The node refuses the event, for this reason, which isn't memory.
    Refused { number: u64, refusal: Refusal },
    /// The event is of a seat that no node has: its number is 4,096 or more.
    TooManySeats { number: u64 },
    /// Memory was refused. The journal's last entry may have fewer rows than were recorded.
    NoMemory,
    /// The next event can't be had.
    Unread(F),
}

impl<F> From<AllocError> for RecallError<F> {
    ghost use Rattle.std.specs.Prelude.{◌≡◌};
    ghost use Rattle.beam_recall.specs.declared.error.RecallError.TheVariants.{NoMemory};

    ghost from_gives = { λ _ e. e ≡ NoMemory };

    fn from(_refused: AllocError) -> RecallError<F> {
        RecallError::NoMemory
    }
}
