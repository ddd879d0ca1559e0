//! How many entries the journal has, which thresholds those in memory have reached, and which of these were reported.

use crate::journal_threshold::{JournalThreshold, threshold_at, threshold_of};
use beam_receipts::brand::NodeBrand;
use beam_shared::node::Node;
use std::sync::atomic::{AtomicU32, AtomicU64, Ordering};

/// How many entries a node's journal has, and the ranks of the greatest threshold that those in memory have reached and of the greatest one
/// that was reported. All three only grow.
#[derive(Drop)]
pub struct JournalUsage {
    entered: AtomicU64,
    reached: AtomicU32,
    reported: AtomicU32,
}

impl JournalUsage {
    /// No entries are known, and no threshold is reached.
    pub fn new() -> JournalUsage {
        JournalUsage {
            entered: AtomicU64::new(0),
            reached: AtomicU32::new(0),
            reported: AtomicU32::new(0),
        }
    }

    /// Notes how many entries the journal of a node has, and the threshold that it has reached. Tells whether that is greater than the one
    /// noted before. It is called under the node's lock.
    pub fn note<B: NodeBrand>(&self, node: &Node<B>) -> bool {
        self.entered.store(node.entered(), Ordering::Release);
        let Some(threshold) = threshold_of(node.in_memory(), node.limit()) else {
            return false;
        };
        let rank = threshold.rank();
        self.reached.fetch_max(rank, Ordering::SeqCst) < rank
    }

    /// How many entries the journal had when it was noted last.
    pub fn entered(&self) -> u64 {
        self.entered.load(Ordering::Acquire)
    }

    /// The greatest threshold that was reached, if neither it nor a greater one was reported. It counts as reported from then on.
    pub fn take_reached(&self) -> Option<JournalThreshold> {
        let reached = self.reached.load(Ordering::SeqCst);
        if reached <= self.reported.load(Ordering::SeqCst) {
            return None;
        }
        if reached <= self.reported.fetch_max(reached, Ordering::SeqCst) {
            return None;
        }
        threshold_at(reached)
    }
}
