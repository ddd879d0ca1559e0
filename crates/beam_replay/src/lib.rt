//! The file of a node's journal, read again: by a node that comes back from it, and by `beamnode replay`.
#![tactic(auto)]

mod journal_fault;
mod journal_opening;
mod journal_recovery;
mod read_progress;
mod replay_report;
mod replaying;

pub use journal_fault::write_fault;
pub use journal_opening::{OpenJournal, open_journal};
pub use journal_recovery::{Recovered, recover};
pub use read_progress::{ReadProgress, ReadSoFar};
pub use replaying::replay;
