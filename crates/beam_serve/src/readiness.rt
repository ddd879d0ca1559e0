//! Whether a node serves.

use std::sync::atomic::{AtomicBool, Ordering};

/// What keeps a node from serving, as far as threads noted it.
#[derive(Drop)]
pub struct Readiness {
    is_full: AtomicBool,
}

impl Readiness {
    /// Nothing is noted.
    pub fn new() -> Readiness {
        Readiness {
            is_full: AtomicBool::new(false),
        }
    }

    /// Notes that the journal in memory is full.
    pub fn note_full(&self) {
        self.is_full.store(true, Ordering::SeqCst);
    }

    /// Whether the journal in memory was full.
    pub fn is_full(&self) -> bool {
        self.is_full.load(Ordering::SeqCst)
    }
}
