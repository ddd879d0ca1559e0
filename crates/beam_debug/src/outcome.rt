//! The answers of a node with a debugger.

use crate::view::RenderedView;
use beam_machine::event::Reply;

/// The answer to an event that isn't refused.
#[derive(Drop)]
pub enum Outcome {
    /// An answer of the node.
    Node(Reply),
    /// `count` rows were executed, and the process is held.
    Held { count: u32 },
    /// The view of a process, and its text.
    Viewed(RenderedView),
}
