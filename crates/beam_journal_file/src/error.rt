//! Why entries aren't written to a journal's file, or a file isn't read.

use beam_block_file::{FileFault, ReadFault, ShelfFailed};
use beam_records::{HeadError, RecordError};
use thiserror::Error;

/// Why entries aren't written.
#[derive(Clone, Copy, Debug, PartialEq, Eq, Error)]
pub enum WriteFailed {
    /// The device refused, and the blocks in the file are as they were. It can be tried again.
    #[error("WriteFailed")]
    Unwritten(ShelfFailed),
    /// What was written can't be put on the device. Nothing is to be written any more: the system may have lost what it hadn't put there.
    #[error("SyncFailed")]
    Unsynced(ShelfFailed),
    /// An event has no record, or the file would have 2^64 bytes. Nothing can be written any more.
    #[error("Unspelled")]
    Unspelled,
    /// Records of the last page weren't read, so the file can't go on behind them. Nothing was cut off.
    #[error("Unread")]
    Unread,
    /// Memory was refused. It can be tried again.
    #[error("NoMemory")]
    NoMemory,
}

impl WriteFailed {
    /// Whether nothing is to be written any more.
    pub fn is_final(&self) -> bool {
        matches!(self, WriteFailed::Unsynced(_) | WriteFailed::Unspelled)
    }
}

impl From<RecordError> for WriteFailed {
    fn from(error: RecordError) -> WriteFailed {
        match error {
            RecordError::NoMemory => WriteFailed::NoMemory,
            RecordError::Unspelled | RecordError::NoRecord => WriteFailed::Unspelled,
        }
    }
}

impl From<FileFault> for WriteFailed {
    fn from(fault: FileFault) -> WriteFailed {
        match fault {
            FileFault::ShelfFailed(failed) => WriteFailed::Unwritten(failed),
            FileFault::TooLong => WriteFailed::Unspelled,
            FileFault::NoMemory => WriteFailed::NoMemory,
        }
    }
}

/// Why a file isn't read to its end.
#[derive(Clone, Copy, Debug, PartialEq, Eq, Error)]
pub enum ReadFailed {
    /// The file doesn't begin as a journal does.
    #[error("NoJournal")]
    NoJournal,
    /// The file is a journal of another version.
    #[error("OtherVersion")]
    OtherVersion,
    /// No node wrote what stands from this byte on: no block, a page that doesn't go on where the one before it ended, or no record.
    #[error("BadJournal")]
    Bad {
        /// The byte at which the block begins.
        at: u64,
    },
    /// The device failed.
    #[error("ReadFailed")]
    Unread(ShelfFailed),
    /// Memory was refused.
    #[error("NoMemory")]
    NoMemory,
}

impl From<HeadError> for ReadFailed {
    fn from(error: HeadError) -> ReadFailed {
        match error {
            HeadError::NoJournal => ReadFailed::NoJournal,
            HeadError::OtherVersion => ReadFailed::OtherVersion,
        }
    }
}
