//! Events of the debugger.

use crate::event::{Event, Reply};
use beam_term::Atom;

/// Which of a module's two instances.
#[derive(Clone, Copy, Debug, PartialEq, Eq)]
pub enum Version {
    Current,
    Old,
}

/// A break spot by names: in the current or the old instance of a module, the row that is `rows` rows after the first row of a label.
/// Labels and lines are no rows, and no spot names the end of the code.
#[derive(Drop)]
pub struct Spot {
    pub version: Version,
    pub module: Atom,
    pub label: u32,
    pub rows: u32,
}

/// What happens to a node that has a debugger. `I` is a prepared image.
#[derive(Drop)]
pub enum DebugEvent<I> {
    /// An event of the node.
    Node(Event<I>),
    /// Processes are to stop before a row.
    SetBreak(Spot),
    /// Processes no longer stop before a row.
    ClearBreak(Spot),
    /// A held process is let go, and may pass the row before which it stopped.
    Resume { pid: u32 },
    /// A held process runs one row, also at a break spot, and stays held.
    StepOne { pid: u32 },
    /// A process is looked at.
    Inspect { pid: u32 },
}

/// The answer to an event that isn't refused. `V` is what is seen of a process.
#[derive(Drop)]
pub enum DebugReply<V> {
    /// An answer of the node.
    Node(Reply),
    /// `count` rows were done, and the process is held.
    Held { count: u32 },
    /// A view of a process.
    Viewed(V),
}
