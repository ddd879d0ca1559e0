//! How sessions and loads end.
ghost use Rattle.std.specs.Prelude.{◌≡◌};
ghost use Rattle.beam_remote.specs.Numbers.{load_number, why_number};

use beam_machine::event::Refused;
use thiserror::Error;

/// What a session did that ended with the input, between two frames.
#[derive(Clone, Copy, Debug, PartialEq, Eq)]
pub struct Served {
    /// How many commands were answered, refused ones too.
    pub done: u64,
    /// How many replies were written whole.
    pub told: u64,
}

/// Why a session stopped.
#[derive(Clone, Copy, Debug, PartialEq, Eq, Error)]
pub enum SessionFailure {
    /// A read failed.
    #[error("ReadFailed")]
    ReadFailed,
    /// A write failed.
    #[error("WriteFailed")]
    WriteFailed,
    /// The input ended inside a frame.
    #[error("CutFrame")]
    CutFrame,
    /// A frame has a fault: 1 too long, 2 no such kind, 3 no command of its kind. Or a reply is too long to be written: 1.
    #[error("BadFrame")]
    BadFrame(u8),
    /// Memory was refused for a frame.
    #[error("NoMemory")]
    NoMemory,
}

impl SessionFailure {
    /// Its number: 1 ReadFailed, 2 WriteFailed, 3 CutFrame, 4 BadFrame, 5 NoMemory.
    pub fn number(&self) -> u8
        ensures { result ≡ why_number self.now }
    {
        match self {
            SessionFailure::ReadFailed => 1,
            SessionFailure::WriteFailed => 2,
            SessionFailure::CutFrame => 3,
            SessionFailure::BadFrame(_) => 4,
            SessionFailure::NoMemory => 5,
        }
    }
}

/// A session that stopped, and what it did.
#[derive(Clone, Copy, Debug, PartialEq, Eq, Error)]
#[error("{why}")]
pub struct ServeError {
    /// Why it stopped.
    pub why: SessionFailure,
    /// How many commands were answered, refused ones too.
    pub done: u64,
    /// How many replies were written whole.
    pub told: u64,
}

/// Why a file isn't loaded.
#[derive(Clone, Copy, Debug, PartialEq, Eq, Error)]
pub enum LoadError {
    /// A read failed.
    #[error("ReadFailed")]
    ReadFailed,
    /// The file has more than 8,388,608 bytes.
    #[error("TooLong")]
    TooLong,
    /// The load is refused.
    #[error("{0}")]
    Refused(Refused),
    /// The load is refused: a process is out, to be run on a scheduler.
    #[error("Busy")]
    Busy,
    /// The load is refused: the journal is full.
    #[error("JournalFull")]
    JournalFull,
    /// The file can't be loaded: the layer that refuses it, and the number of its fault there.
    #[error("BadFile")]
    BadFile { layer: u8, number: u8 },
    /// Memory was refused for the file's bytes.
    #[error("NoMemory")]
    NoMemory,
}

impl LoadError {
    /// Its number: 1 ReadFailed, 2 TooLong, 3 a refusal, of which Busy, JournalFull and BadFile are some, 4 NoMemory.
    pub fn number(&self) -> u8
        ensures { result ≡ load_number self.now }
    {
        match self {
            LoadError::ReadFailed => 1,
            LoadError::TooLong => 2,
            LoadError::Refused(_) => 3,
            LoadError::Busy | LoadError::JournalFull => 3,
            LoadError::BadFile { .. } => 3,
            LoadError::NoMemory => 4,
        }
    }
}
