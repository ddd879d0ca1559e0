//! What one holder did with a queue.

use std::collections::LinkedList;

/// The pids that one holder, the owner or a stealer, put into a queue and took from it, and how many it has of the 1,024 parts of the right
/// to know the whole. It exists in proofs alone.
pub struct Contribution {
    pub parts: u64,
    pub put: LinkedList<u32>,
    pub taken: LinkedList<u32>,
}
