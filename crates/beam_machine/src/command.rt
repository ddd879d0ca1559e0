//! Commands of a session, and the responses to them.

use crate::debug::DebugEvent;
use crate::event::{Refused, Reply};
use crate::text_parts::TextParts;
use std::marker::Model;

/// Bytes of a file or of a text.
#[derive(Drop)]
pub struct Bytes {
    items: Vec<u8>,
}

impl Model for Bytes {
    ghost use Rattle.std.specs.Prelude.{List, ℕ};

    ghost Value = { List ℕ };

    ghost view = { λ b. b.items.items };
}

impl Bytes {
    ghost use Rattle.std.specs.Prelude.{◌≡◌};

    /// These bytes.
    pub fn new(items: Vec<u8>) -> Bytes
        ensures { result ≡ items.items }
    {
        Bytes { items }
    }

    /// The bytes, in their order.
    pub fn as_slice(&self) -> &[u8]
        ensures { result.now ≡ self.now }
    {
        &self.items
    }

    /// The vector of the bytes.
    pub fn into_vec(self) -> Vec<u8>
        ensures { result.items ≡ self }
    {
        self.items
    }
}

/// The kinds of commands, in the order of their numbers from 1.
#[derive(Clone, Copy, Debug, PartialEq, Eq)]
pub enum CommandKind {
    Load,
    LoadStrict,
    Delete,
    SoftPurge,
    Purge,
    Spawn,
    Send,
    Steps,
    Deliver,
    Clock,
    Timeout,
    SetBreak,
    ClearBreak,
    Resume,
    StepOne,
    Inspect,
    Versions,
    AtomicLoad,
}

/// A client's command to a node that has a debugger: an event, whose images are the bytes of their files.
pub type Command = DebugEvent<Bytes>;

/// Why a frame holds no command. A session ends with its first fault.
#[derive(Clone, Copy, Debug, PartialEq, Eq)]
pub enum FrameFault {
    /// The length is above 8,388,608.
    TooLong,
    /// The length is 0, or there is no such kind.
    BadKind,
    /// The body doesn't spell a command of its kind.
    BadCommand,
}

/// The response to a command.
#[derive(Drop)]
pub enum Response {
    /// An answer of the node.
    Node(Reply),
    /// `count` rows were done, and the process is held.
    Held { count: u32 },
    /// The text of a view of a process.
    Viewed(TextParts),
    /// A refusal of the event.
    Refused(Refused),
    /// The process is checked out by a scheduler.
    Busy,
    /// The journal is full.
    JournalFull,
    /// A file that isn't loaded: the layer that refuses it, and the number of its fault there.
    BadFile { layer: u8, number: u8 },
}
