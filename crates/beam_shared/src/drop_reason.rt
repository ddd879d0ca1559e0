//! Why rows of a process that was checked out aren't committed.

use crate::finished_slice::FinishedSlice;
use beam_receipts::brand::NodeBrand;
use thiserror::Error;

/// Why rows don't take effect in the node.
#[derive(Clone, Copy, Debug, PartialEq, Eq, Error)]
pub enum DropReason {
    /// They are of no checkout that is open.
    #[error("Stranger")]
    Stranger,
    /// The process has ended.
    #[error("Gone")]
    Gone,
    /// Code or break spots aren't those of the checkout.
    #[error("StaleCode")]
    StaleCode,
    /// The journal has as many entries as it can have.
    #[error("JournalFull")]
    JournalFull,
    /// Memory is refused.
    #[error("NoMemory")]
    NoMemory,
}

impl DropReason {
    ghost use Rattle.std.specs.Prelude.{◌≡◌};
    ghost use Rattle.beam_shared.specs.Committing.{number_of};

    /// Its number: 1 for `StaleCode`, 2 for `Gone`, 3 for `Stranger`, 4 for `NoMemory`, 5 for `JournalFull`.
    pub fn number(&self) -> u8
        ensures { result ≡ number_of self.now }
    {
        match self {
            DropReason::StaleCode => 1,
            DropReason::Gone => 2,
            DropReason::Stranger => 3,
            DropReason::NoMemory => 4,
            DropReason::JournalFull => 5,
        }
    }
}

/// Rows that weren't committed, and why.
pub struct NotCommitted<B: NodeBrand> {
    pub dropped: DropReason,
    /// The rows, which come back if the reason is `Stranger`.
    pub back: Option<FinishedSlice<B>>,
}

impl<B: NodeBrand> Drop for NotCommitted<B> {
    fn drop(self) {
        let NotCommitted {
            dropped: _dropped,
            back: _back,
        } = self;
    }
}
