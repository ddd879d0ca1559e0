//! Why a call of a shared node is refused.

use beam_machine::event::Refused;
use std::alloc::AllocError;
use thiserror::Error;

/// Why a call is refused. The node then stays as it was.
#[derive(Clone, Copy, Debug, PartialEq, Eq, Error)]
pub enum Refusal {
    /// The node refuses the call, for this reason.
    #[error("{0}")]
    Node(Refused),
    /// The process is checked out.
    #[error("Busy")]
    Busy,
    /// As many of the journal's entries are in memory as can be.
    #[error("JournalFull")]
    JournalFull,
}

impl Refusal {
    ghost use Rattle.std.specs.Prelude.{◌≡◌};
    ghost use Rattle.beam_receipts.specs.Refused.{number_of};

    /// Its number: that of the node's refusal, 6 for `Busy`, 10 for `JournalFull`.
    pub fn number(&self) -> u8
        ensures { result ≡ number_of self.now }
    {
        match self {
            Refusal::Node(refused) => refused.number(),
            Refusal::Busy => 6,
            Refusal::JournalFull => 10,
        }
    }
}

impl From<Refused> for Refusal {
    ghost use Rattle.std.specs.Prelude.{◌≡◌};
    ghost use Rattle.beam_receipts.specs.declared.refusal.Refusal.TheVariants as TheRefusal;

    ghost from_gives = { λ refused e. e ≡ TheRefusal.Node refused };

    fn from(refused: Refused) -> Refusal {
        Refusal::Node(refused)
    }
}

impl From<AllocError> for Refusal {
    ghost use Rattle.std.specs.Prelude.{◌≡◌};
    ghost use Rattle.beam_machine.specs.declared.event.Refused.TheVariants.{NoMemory};
    ghost use Rattle.beam_receipts.specs.declared.refusal.Refusal.TheVariants as TheRefusal;

    ghost from_gives = { λ _ e. e ≡ TheRefusal.Node NoMemory };

    fn from(_refused: AllocError) -> Refusal {
        Refusal::Node(Refused::NoMemory)
    }
}
