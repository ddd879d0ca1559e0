//! Faults of a journal's file, as the program reports them.
ghost use Rattle.std.specs.Prelude.{ℕ, Option};
ghost use Rattle.beam_tools.specs.Job.{IsOfPort};

use beam_block_file::{OpenFault, ShelfFailed};
use beam_journal_file::{ReadFailed, WriteFailed};
use beam_recall::RecallError;
use beam_receipts::refusal::Refusal;
use beam_tools::job::JobFault;
use beam_tools::journal_fault::{JournalFault, JournalFaultKind};
use beam_tools::os_error::OsError;

/// Where a reader of a journal's file stands.
#[derive(Clone, Copy)]
pub(crate) struct ReadPlace {
    /// The byte at which the block of the next record begins.
    pub byte: u64,
    /// The number of the next entry.
    pub entry: u64,
}

fn os_error(failed: ShelfFailed) -> OsError {
    let code = match failed.code {
        Some(code) => code.unsigned_abs(),
        None => 0,
    };
    OsError {
        kind: failed.kind,
        code,
    }
}

fn fault<'l>(name: &'l str, why: JournalFaultKind) -> JobFault<'l>
    ensures { (port : Option ℕ) → IsOfPort port result }
{
    JobFault::Journal(JournalFault { name, why })
}

/// The fault of a file that can't be opened, read or made.
pub(crate) fn unread_fault<'l>(name: &'l str, failed: ShelfFailed) -> JobFault<'l>
    ensures { (port : Option ℕ) → IsOfPort port result }
{
    fault(name, JournalFaultKind::Unread(os_error(failed)))
}

/// The fault of a file that can't be opened.
pub(crate) fn open_fault<'l>(name: &'l str, why: OpenFault) -> JobFault<'l>
    ensures { (port : Option ℕ) → IsOfPort port result }
{
    match why {
        OpenFault::InUse => fault(name, JournalFaultKind::InUse),
        OpenFault::ShelfFailed(failed) => unread_fault(name, failed),
    }
}

/// The fault of a file that can't be read to its end.
pub(crate) fn read_fault<'l>(name: &'l str, why: ReadFailed, place: ReadPlace) -> JobFault<'l>
    ensures { (port : Option ℕ) → IsOfPort port result }
{
    match why {
        ReadFailed::NoJournal => fault(name, JournalFaultKind::NoJournal),
        ReadFailed::OtherVersion => fault(name, JournalFaultKind::OtherVersion),
        ReadFailed::Bad { at } => fault(
            name,
            JournalFaultKind::Bad {
                at,
                entry: place.entry,
            },
        ),
        ReadFailed::Unread(failed) => unread_fault(name, failed),
        ReadFailed::NoMemory => JobFault::NoMemory,
    }
}

/// The fault of a file that can't be written.
pub fn write_fault<'l>(name: &'l str, why: WriteFailed) -> JobFault<'l>
    ensures { (port : Option ℕ) → IsOfPort port result }
{
    match why {
        WriteFailed::Unwritten(failed) => {
            fault(name, JournalFaultKind::Unwritten(os_error(failed)))
        }
        WriteFailed::Unsynced(failed) => fault(name, JournalFaultKind::Unsynced(os_error(failed))),
        WriteFailed::Unspelled | WriteFailed::Unread => fault(name, JournalFaultKind::Unspelled),
        WriteFailed::NoMemory => JobFault::NoMemory,
    }
}

/// The fault of a file that has more entries than a node can have.
pub(crate) fn full_fault<'l>(name: &'l str) -> JobFault<'l>
    ensures { (port : Option ℕ) → IsOfPort port result }
{
    fault(name, JournalFaultKind::Full)
}

/// The fault of a file whose entries the node doesn't enter again.
pub(crate) fn recall_fault<'l>(
    name: &'l str,
    why: RecallError<ReadFailed>,
    place: ReadPlace,
) -> JobFault<'l>
    ensures { (port : Option ℕ) → IsOfPort port result }
{
    match why {
        RecallError::Refused {
            refusal: Refusal::JournalFull,
            ..
        } => full_fault(name),
        RecallError::Refused { number, .. } | RecallError::TooManySeats { number } => fault(
            name,
            JournalFaultKind::Bad {
                at: place.byte,
                entry: number,
            },
        ),
        RecallError::Unread(why) => read_fault(name, why, place),
        RecallError::NoMemory => JobFault::NoMemory,
    }
}
