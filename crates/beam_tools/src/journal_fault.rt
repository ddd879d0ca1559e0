//! Why a journal's file isn't read or written.
ghost use Rattle.std.specs.Prelude.{◌≡◌};

use crate::os_error::OsError;

/// Why a journal's file isn't read or written.
#[derive(Clone, Copy, Debug, PartialEq, Eq)]
pub enum JournalFaultKind {
    /// The file can't be opened or read: the operating system's error.
    Unread(OsError),
    /// Another program has the file.
    InUse,
    /// The file doesn't begin as a journal does.
    NoJournal,
    /// The file is a journal of another version.
    OtherVersion,
    /// No node wrote what stands in the block at byte `at`, or the node refuses the entry of that number.
    Bad { at: u64, entry: u64 },
    /// The journal has more entries than the node may have.
    Full,
    /// The file can't be written: the operating system's error.
    Unwritten(OsError),
    /// What was written can't be put on the device: the operating system's error.
    Unsynced(OsError),
    /// No record spells an event.
    Unspelled,
}

impl JournalFaultKind {
    ghost use Rattle.beam_tools.specs.Names.{journal_fault_name};

    /// The refusal's name.
    pub fn name(&self) -> &'static str
        ensures { result.now ≡ journal_fault_name self.now }
    {
        match self {
            JournalFaultKind::Unread(_) => "ReadFailed",
            JournalFaultKind::InUse => "JournalInUse",
            JournalFaultKind::NoJournal => "NoJournal",
            JournalFaultKind::OtherVersion => "OtherVersion",
            JournalFaultKind::Bad { .. } => "BadJournal",
            JournalFaultKind::Full => "JournalFull",
            JournalFaultKind::Unwritten(_) => "WriteFailed",
            JournalFaultKind::Unsynced(_) => "SyncFailed",
            JournalFaultKind::Unspelled => "Unspelled",
        }
    }
}

/// A journal's file that can't be read or written, by its name, and why.
#[derive(Clone, Copy)]
pub struct JournalFault<'a> {
    pub name: &'a str,
    pub why: JournalFaultKind,
}
