//! When the node is to be scanned for processes that are runnable.
ghost use Rattle.std.specs.Prelude.{◌≡◌, ◌≢◌, ◌↔◌, ◌⊎◌, ◌+◌, ◌-◌, ◌^◌, ◌||◌, true, false, min, None, Some, IsTrue};
ghost use Rattle.beam_sched.specs.Deadlines.{earlier, is_earlier};

use crate::scan::ScanResult;

/// How many milliseconds after an allocation failure the node is scanned again.
const RETRY: u64 = 100;

/// When the node is to be scanned, and from which process on.
#[derive(Clone, Copy, Debug)]
pub struct ScanState {
    /// Whether the node changed since a scan began at its first process.
    pub is_changed: bool,
    /// The number above which the next scan begins: 0 for all.
    pub after: u32,
    /// The least deadline of a waiting process.
    pub due: Option<u64>,
    /// When to scan again after an allocation failure.
    pub retry: Option<u64>,
}

/// The earlier of two moments.
pub fn earlier(a: Option<u64>, b: Option<u64>) -> Option<u64>
    ensures { result ≡ earlier a b }
{
    match (a, b) {
        (Some(a), Some(b)) => Some(if a <= b { a } else { b }),
        (Some(a), None) => Some(a),
        (None, b) => b,
    }
}

/// Whether a moment is earlier than another one; none is later than all.
pub fn is_earlier(a: Option<u64>, b: Option<u64>) -> bool
    ensures { result ≡ is_earlier a b }
{
    match (a, b) {
        (Some(a), Some(b)) => a < b,
        (Some(_), None) => true,
        (None, _) => false,
    }
}

impl ScanState {
    /// No scan is needed.
    pub fn new() -> ScanState {
        ScanState {
            is_changed: false,
            after: 0,
            due: None,
            retry: None,
        }
    }

    /// Whether a scan is wanted, whatever the moment.
    pub fn is_wanted(&self) -> bool
        ensures { IsTrue result ↔ ((self.now.is_changed ≡ true) ⊎ (self.now.after ≢ 0)) }
    {
        self.is_changed || self.after != 0
    }

    /// Notes that a process may have become runnable.
    pub fn note_change(&mut self)
        ensures { self.new ≡ record self.old { is_changed = true } }
    {
        self.is_changed = true;
    }

    /// Notes the deadline of a process that waits, if it has one.
    pub fn note_deadline(&mut self, deadline: Option<u64>)
        ensures { self.new ≡ record self.old { due = earlier self.old.due deadline } }
    {
        self.due = earlier(self.due, deadline);
    }

    /// Notes an allocation failure: the node is scanned again after some time.
    pub fn retry_later(&mut self, moment: u64)
        ensures { self.new ≡ record self.old { retry = Some (min (moment + 100) (2 ^ 64 - 1)) } }
    {
        self.retry = Some(moment.saturating_add(RETRY));
    }

    /// Begins a scan where the last one ended. Only a scan that begins at the first process finds all that changed or is to be retried.
    pub fn begin(&mut self)
        ensures after { self.new.after ≡ self.old.after }
        ensures changed { self.old.after ≢ 0 → self.new.is_changed ≡ self.old.is_changed }
        ensures retry_later { self.old.after ≢ 0 → self.new.retry ≡ self.old.retry }
        ensures due { self.new.due ≡ None }
        ensures all { self.old.after ≡ 0 → (self.new.is_changed ≡ false) × (self.new.retry ≡ None) }
    {
        self.due = None;
        if self.after == 0 {
            self.is_changed = false;
            self.retry = None;
        }
    }

    /// Ends a scan: it left deadlines to come, it may have skipped a process that is runnable now, and memory may have been refused.
    pub fn end(&mut self, found: ScanResult, moment: u64)
        ensures after { self.new.after ≡ found.after }
        ensures due { self.new.due ≡ earlier self.old.due found.due }
        ensures changed { self.new.is_changed ≡ self.old.is_changed || found.has_skipped }
        ensures kept { self.new.retry ≡ None → self.old.retry ≡ None }
        ensures retry_later { found.lacks_memory ≡ true → self.new.retry ≢ None }
    {
        self.after = found.after;
        self.note_deadline(found.due);
        self.is_changed = self.is_changed || found.has_skipped;
        if found.lacks_memory {
            self.retry_later(moment);
        }
    }
}
