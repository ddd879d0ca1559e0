//! When the node is to be scanned, for threads that don't hold its lock.

use crate::scan_state::{ScanState, earlier, is_earlier};
use std::sync::atomic::{AtomicBool, AtomicU64, Ordering};

/// The word that stands for no moment.
const NEVER: u64 = u64::MAX;

/// A copy of when to scan, as `ScanState` has it, written under the node's lock and read without it.
#[derive(Drop)]
pub struct ScanHint {
    is_wanted: AtomicBool,
    due: AtomicU64,
    retry: AtomicU64,
}

fn moment_of(shown: u64) -> Option<u64> {
    if shown == NEVER { None } else { Some(shown) }
}

/// Writes a moment into a word. A word that has it already isn't written, which would cost other threads more than reading it does.
fn publish(word: &AtomicU64, moment: Option<u64>) {
    let shown = moment.unwrap_or(NEVER);
    if word.load(Ordering::SeqCst) != shown {
        word.store(shown, Ordering::SeqCst);
    }
}

impl ScanHint {
    /// No scan is wanted.
    pub fn new() -> ScanHint {
        ScanHint {
            is_wanted: AtomicBool::new(false),
            due: AtomicU64::new(NEVER),
            retry: AtomicU64::new(NEVER),
        }
    }

    /// Writes when to scan. It is called under the node's lock. Tells whether the node is to be scanned earlier than was known: a worker
    /// that waits knows what was written when it began to.
    pub fn publish(&self, scan_state: &ScanState) -> bool {
        let known = self.next_time();
        publish(&self.due, scan_state.due);
        publish(&self.retry, scan_state.retry);
        if self.is_wanted() != scan_state.is_wanted() {
            self.is_wanted
                .store(scan_state.is_wanted(), Ordering::SeqCst);
        }
        is_earlier(earlier(scan_state.due, scan_state.retry), known)
    }

    /// Whether a scan is wanted, whatever the moment.
    pub fn is_wanted(&self) -> bool {
        self.is_wanted.load(Ordering::SeqCst)
    }

    /// When to scan again after an allocation failure.
    pub fn retry(&self) -> Option<u64> {
        moment_of(self.retry.load(Ordering::SeqCst))
    }

    /// The moment at which the node is to be scanned, even if no worker is woken before.
    pub fn next_time(&self) -> Option<u64> {
        earlier(moment_of(self.due.load(Ordering::SeqCst)), self.retry())
    }
}
