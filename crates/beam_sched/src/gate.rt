//! What workers report of the processes that they run, and of the journal.

use crate::journal_threshold::JournalThreshold;
use beam_debug::outcome::Outcome;
use beam_term::Term;

/// An observer to which workers report the processes that they run, and how full the journal is. They call it under no lock.
pub trait Gate {
    /// A process was checked out. Its rows are run after the call returns.
    fn out(&self, pid: u32);

    /// Whether a process that was checked out is to wait. Then none of its rows are run, and it is tried again as if memory had been refused.
    fn must_wait(&self, pid: u32) -> bool;

    /// The rows of a process were run. They are committed after the call returns.
    fn back(&self, pid: u32);

    /// The rows of a process took effect, and the node gave this outcome.
    fn ran(&self, pid: u32, outcome: &Outcome);

    /// Processes had short turns under the node's lock, and this is the greatest number of one of them. Only the ends of these are reported,
    /// by `ran` and `ended`.
    fn ran_in_place(&self, pid: u32);

    /// A process was ended, with that reason, by a signal that arrived before rows of it were to be run.
    fn ended(&self, pid: u32, reason: &Term);

    /// Memory was refused to a process: it wasn't checked out, or its rows were dropped, or none could be run. It is tried again some time
    /// after the call returns.
    fn refused(&self, pid: u32);

    /// The journal has reached this threshold of the entries that it can have. Each threshold is reported at most once, and none after a
    /// greater one: by a worker, unless `Shared::crossed` has given it to another thread.
    fn filled(&self, threshold: JournalThreshold);
}

/// An observer that does nothing.
#[derive(Clone, Copy, Debug)]
pub struct NoGate;

impl Gate for NoGate {
    fn out(&self, _pid: u32) {}

    fn must_wait(&self, _pid: u32) -> bool {
        false
    }

    fn back(&self, _pid: u32) {}

    fn ran(&self, _pid: u32, _outcome: &Outcome) {}

    fn ran_in_place(&self, _pid: u32) {}

    fn ended(&self, _pid: u32, _reason: &Term) {}

    fn refused(&self, _pid: u32) {}

    fn filled(&self, _threshold: JournalThreshold) {}
}
