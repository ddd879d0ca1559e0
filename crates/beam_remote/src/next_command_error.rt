//! Why no further command is read.

use beam_machine::command::FrameFault;

/// Why no further command is read.
#[derive(Clone, Copy, Debug, PartialEq, Eq)]
pub(crate) enum NextCommandError {
    ReadFailed,
    /// The input ended inside a frame.
    CutFrame,
    Fault(FrameFault),
    NoMemory,
}
