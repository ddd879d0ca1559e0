//! A node's journal file, opened or made.
ghost use Rattle.std.specs.Prelude.{ℕ, [], Option, IfErr, IfOk};
ghost use Rattle.beam_journal_file.specs.JournalRead.{HasRead};
ghost use Rattle.beam_tools.specs.Job.{IsOfPort};

use crate::journal_fault::{ReadPlace, open_fault, read_fault, unread_fault, write_fault};
use beam_block_file::{FileShelf, OpenFault, Shelf, ShelfFailed, rename};
use beam_journal_file::{JournalReader, write_head};
use beam_tools::job::JobFault;
use std::alloc::Global;
use std::fs::File;
use std::io::{self, ErrorKind, Read};
use std::time::{Clock, Duration};
use std::{fs, rt};

/// A journal's file that is read from its first entry on, and another handle of it, by which it is put on the device.
#[derive(Drop)]
pub struct OpenJournal {
    pub reader: JournalReader<FileShelf>,
    pub handle: FileShelf,
    /// How many bytes the file has.
    pub size: u64,
}

/// The folder of a path.
fn folder_of(path: &str) -> &str {
    match path.rsplit_once('/') {
        None => ".",
        Some(("", _)) => "/",
        Some((folder, _)) => folder,
    }
}

fn read_random<R: rt::Files>(rt: &R, id: &mut [u8; 16]) -> io::Result<()> {
    let mut source = fs::open(rt, "/dev/urandom")?;
    source.read_exact(id)
}

/// 16 bytes that no other file has: drawn at random or, where the system has no source of that, made of the time.
fn new_id<R: rt::Files + Clock>(rt: &R) -> [u8; 16] {
    let mut id = [0u8; 16];
    if read_random(rt, &mut id).is_err() {
        let now = rt.since_1970().unwrap_or(Duration::ZERO);
        id[..8].copy_from_slice(&now.as_secs().to_be_bytes());
        id[8..12].copy_from_slice(&now.subsec_nanos().to_be_bytes());
    }
    id
}

/// Writes the head of a journal without entries to a file without bytes.
fn with_head<'l, R: rt::Files + Clock>(
    rt: &R,
    alloc: Global,
    path: &'l str,
    shelf: FileShelf,
) -> Result<FileShelf, JobFault<'l>>
    ensures { IfErr result (λ f. (port : Option ℕ) → IsOfPort port f) }
{
    match write_head(alloc, shelf, &new_id(rt)) {
        Ok(shelf) => Ok(shelf),
        Err(why) => Err(write_fault(path, why)),
    }
}

/// Makes the file of a journal without entries. It gets its name once it is on the device as a whole, so no program sees a part of it.
/// Where another program makes it at the same time it is in use.
fn create<'l, R: rt::Files<File = File> + Clock>(
    rt: &R,
    alloc: Global,
    path: &'l str,
) -> Result<FileShelf, JobFault<'l>>
    ensures { IfErr result (λ f. (port : Option ℕ) → IsOfPort port f) }
{
    let Ok(new_path) = format!(in alloc; "{path}.new") else {
        return Err(JobFault::NoMemory);
    };
    let shelf = match FileShelf::create(rt, &new_path) {
        Ok(shelf) => shelf,
        Err(why) => return Err(open_fault(path, why)),
    };
    if rt.metadata(path).is_ok() {
        return Err(open_fault(path, OpenFault::InUse));
    }
    let shelf = with_head(rt, alloc, path, shelf)?;
    match rename(rt, &new_path, path, folder_of(path)) {
        Ok(()) => Ok(shelf),
        Err(failed) => Err(unread_fault(path, failed)),
    }
}

/// How many bytes a file has: 0 where the system doesn't tell.
pub(crate) fn size_of<R: rt::Files>(rt: &R, path: &str) -> u64 {
    match rt.metadata(path) {
        Ok(found) => found.len(),
        Err(_) => 0,
    }
}

/// Whether a file has no bytes.
fn is_empty(shelf: &mut FileShelf) -> Result<bool, ShelfFailed> {
    let mut first = [0u8; 1];
    Ok(shelf.read_at(0, &mut first)? == 0)
}

/// The file of a journal. It is made where it isn't there, and gets its head where it has no bytes.
fn open_or_create<'l, R: rt::Files<File = File> + Clock>(
    rt: &R,
    alloc: Global,
    path: &'l str,
) -> Result<FileShelf, JobFault<'l>>
    ensures { IfErr result (λ f. (port : Option ℕ) → IsOfPort port f) }
{
    let mut shelf = match FileShelf::open(rt, path) {
        Ok(shelf) => shelf,
        Err(OpenFault::ShelfFailed(failed)) if failed.kind == ErrorKind::NotFound => {
            return create(rt, alloc, path);
        }
        Err(why) => return Err(open_fault(path, why)),
    };
    match is_empty(&mut shelf) {
        Ok(true) => with_head(rt, alloc, path, shelf),
        Ok(false) => Ok(shelf),
        Err(failed) => Err(unread_fault(path, failed)),
    }
}

/// Reads the head of a journal's file, of which the entries before that of the number `upto` are to be read.
pub(crate) fn read_head<'l>(
    alloc: Global,
    path: &'l str,
    shelf: FileShelf,
    upto: u64,
) -> Result<JournalReader<FileShelf>, JobFault<'l>>
    ensures at_first { IfOk result (λ r. HasRead r []) }
    ensures fault { IfErr result (λ f. (port : Option ℕ) → IsOfPort port f) }
{
    match JournalReader::open(alloc, shelf, upto) {
        Ok(reader) => Ok(reader),
        Err(why) => Err(read_fault(path, why, ReadPlace { byte: 0, entry: 0 })),
    }
}

/// Opens the file of a node's journal, for this program alone, and reads its head. A file that isn't there is made, and one without bytes
/// gets a head. `JournalInUse` where another program has it, `NoJournal` and `OtherVersion` by its head, `ReadFailed` where it can't be
/// opened, made or read, `WriteFailed` and `SyncFailed` where the head can't be written; and `NoMemory`.
pub fn open_journal<'l, R: rt::Files<File = File> + Clock>(
    rt: &R,
    alloc: Global,
    path: &'l str,
) -> Result<OpenJournal, JobFault<'l>>
    ensures at_first { IfOk result (λ o. HasRead o.reader []) }
    ensures fault { IfErr result (λ f. (port : Option ℕ) → IsOfPort port f) }
{
    let shelf = open_or_create(rt, alloc, path)?;
    let handle = match shelf.try_clone() {
        Ok(handle) => handle,
        Err(failed) => return Err(unread_fault(path, failed)),
    };
    let reader = read_head(alloc, path, shelf, u64::MAX)?;
    Ok(OpenJournal {
        reader,
        handle,
        size: size_of(rt, path),
    })
}
