//! A journal's file that is read.
ghost use Rattle.std.specs.Prelude.{◌≡◌, ◌≢◌, ◌<◌, ◌↔◌, ◌++◌, ◌∷◌, [], ℕ, List, false, length, true, IfOk, IfSome, IsErrOf, OnOk, option_map};
ghost use Rattle.beam_block_file.specs.StoredBlocks.{with_rest};
ghost use Rattle.beam_machine.specs.Journal.{SentEvent as Sent};
ghost use Rattle.beam_records.specs.JournalFile.{head_of};
ghost use Rattle.beam_journal_file.specs.JournalRead.{GivesRecord, HasRead, HasReadFirst, IsAtEnd, ReadsPage, gives, with_next_event};
ghost use Rattle.beam_journal_file.specs.WrittenJournal.{HasWritten};

use crate::error::{ReadFailed, WriteFailed};
use crate::writer::JournalWriter;
use beam_block_file::{BlockReader, ReadFault, Shelf};
use beam_records::{RecordError, SentEvent, head_in, page_in, record_in};
use std::alloc::Global;
use std::marker::Model;

/// The torn end of a file: what stands after its last whole block.
#[derive(Clone, Copy, Debug, PartialEq, Eq)]
pub struct TornEnd {
    /// The byte at which it begins.
    pub at: u64,
    /// How many bytes it has.
    pub bytes: u64,
}

/// A journal's file that is read from its first entry on. It takes memory for a block of the file, twice. Contracts see the blocks that were
/// read, the records that are still to be given of the last of them, and the number of the next entry.
#[derive(Drop)]
pub struct JournalReader<S: Shelf + Drop> {
    blocks: BlockReader<S>,
    /// Where the block begins in which the next record stands.
    block_at: u64,
    /// The records of the last page.
    page: Vec<u8>,
    /// How many bytes of them were read.
    used: usize,
    /// How many entries were read.
    entries: u64,
    /// The number of the entry before which it ends.
    upto: u64,
    torn: Option<TornEnd>,
}

impl<S: Shelf + Drop> Model for JournalReader<S> {
    ghost use Rattle.std.specs.Prelude.{◌≤◌, drop, length};
    ghost use Rattle.beam_journal_file.specs.JournalRead.{JournalRead};

    ghost Value = { JournalRead };

    ghost view = { λ r. record { known = r.blocks.known; rest = drop r.used r.page.items; number = r.entries; upto = r.upto } };

    ghost invariant = { λ r. r.used ≤ length r.page.items };
}

/// What a fault of the blocks means for the journal. A torn end is none.
fn read_failed(fault: ReadFault) -> ReadFailed {
    match fault {
        ReadFault::CutFile { at, .. } | ReadFault::BadFile { at } => ReadFailed::Bad { at },
        ReadFault::ShelfFailed(failed) => ReadFailed::Unread(failed),
        ReadFault::NoMemory => ReadFailed::NoMemory,
    }
}

impl<S: Shelf + Drop> JournalReader<S> {
    /// Reads the head of a file, of which the entries before that of the number `upto` are to be read. `NoJournal` where the file doesn't
    /// begin with a whole head, `OtherVersion` where it is of another version.
    pub fn open(alloc: Global, shelf: S, upto: u64) -> Result<JournalReader<S>, ReadFailed>
        ensures head { IfOk result (λ r. (id : List ℕ) × (length id ≡ 16) × IfSome r.known (λ k. k.contents ≡ head_of id ∷ [])) }
        ensures read { IfOk result (λ r. HasReadFirst (S.bytes shelf) r.known) }
        ensures begins { IfOk result (λ r. (r.rest ≡ []) × (r.number ≡ 0) × (r.upto ≡ upto)) }
        ensures none { IfOk result (λ r. HasRead r []) }
    {
        let mut blocks = BlockReader::new(alloc, shelf);
        match blocks.next() {
            Ok(true) => {
                head_in(blocks.content())?;
            }
            Ok(false) | Err(ReadFault::CutFile { .. } | ReadFault::BadFile { .. }) => {
                return Err(ReadFailed::NoJournal);
            }
            Err(fault) => return Err(read_failed(fault)),
        }
        Ok(JournalReader {
            blocks,
            block_at: 0,
            page: Vec::new(alloc),
            used: 0,
            entries: 0,
            upto,
            torn: None,
        })
    }

    /// How many entries were read.
    pub fn entries(&self) -> u64
        ensures { result ≡ self.now.number }
    {
        self.entries
    }

    /// The byte at which the block of the next record begins.
    pub fn block_at(&self) -> u64 {
        self.block_at
    }

    /// The byte behind the blocks that were read.
    pub fn at(&self) -> u64 {
        self.blocks.end()
    }

    /// The torn end of the file, if the reader came to one.
    pub fn torn(&self) -> Option<TornEnd> {
        self.torn
    }

    /// Reads the next page. False where the file has no more. A page without a record is `Bad`: no node writes one.
    fn next_page(&mut self) -> Result<bool, ReadFailed>
        requires { self.old.rest ≡ [] }
        ensures page { IfOk result (λ found. found ≡ true → ReadsPage self.old self.new) }
        ensures same { IfOk result (λ found. found ≡ false → self.new ≡ self.old) }
        ensures end { IfOk result (λ found. found ≡ false → IfSome self.old.known IsAtEnd) }
    {
        let at = self.blocks.end();
        match self.blocks.next() {
            Ok(true) => {}
            Ok(false) => return Ok(false),
            Err(ReadFault::CutFile { at, bytes }) => {
                self.torn = Some(TornEnd { at, bytes });
                return Ok(false);
            }
            Err(fault) => return Err(read_failed(fault)),
        }
        let Some((first, records)) = page_in(self.blocks.content()) else {
            return Err(ReadFailed::Bad { at });
        };
        if first != self.entries {
            return Err(ReadFailed::Bad { at });
        }
        let Ok(page) = records.to_vec(*self.page.allocator()) else {
            return Err(ReadFailed::NoMemory);
        };
        self.page = page;
        self.used = 0;
        self.block_at = at;
        Ok(true)
    }

    /// Reads the next record of the page.
    fn next_record(&mut self, alloc: Global) -> Result<SentEvent, ReadFailed>
        requires { self.old.number < self.old.upto }
        ensures { IfOk result (λ sent. GivesRecord self.old sent self.new) }
    {
        match record_in(alloc, &self.page[self.used..]) {
            Ok((sent, rest)) => {
                self.used = self.page.len() - rest.len();
                self.entries += 1;
                Ok(sent)
            }
            Err(RecordError::NoMemory) => Err(ReadFailed::NoMemory),
            Err(_) => Err(ReadFailed::Bad { at: self.block_at }),
        }
    }

    /// The next entry; `None` before the one at which it ends, and at the end of the file. A torn end is none: it is told by `torn`.
    /// After `Unread` it can be tried again. After another error nothing more is to be read, and the file isn't to be written.
    pub fn next(&mut self, alloc: Global) -> Result<Option<SentEvent>, ReadFailed>
        ensures gives { IfOk result (λ next. gives self.old next self.new) }
        ensures read { IfOk result (λ next. (ss : List Sent) → HasRead self.old ss → HasRead self.new (with_next_event ss next)) }
    {
        if self.entries >= self.upto {
            return Ok(None);
        }
        if self.used == self.page.len() && !self.next_page()? {
            return Ok(None);
        }
        let sent = self.next_record(alloc)?;
        Ok(Some(sent))
    }

    /// The file, to be written behind the blocks that were read: it keeps the entries that were given. What stands behind these blocks is
    /// cut off, and the cut is on the device. `Unread` exactly where records of the last page weren't read; nothing is cut off then.
    pub fn into_writer(self, alloc: Global) -> Result<JournalWriter<S>, WriteFailed>
        ensures known { IfOk result (λ w. w.file.known ≡ option_map (with_rest []) self.known) }
        ensures counts { IfOk result (λ w. (w.written ≡ self.number) × (w.taken ≡ 0)) }
        ensures kept { IfOk result (λ w. (ss : List Sent) → HasRead self ss → HasWritten w ss) }
        ensures whole { OnOk result (self.rest ≡ []) }
        ensures unread { IsErrOf result WriteFailed.Unread ↔ (self.rest ≢ []) }
    {
        if self.used < self.page.len() {
            return Err(WriteFailed::Unread);
        }
        let JournalReader {
            blocks,
            entries,
            ..
        } = self;
        match blocks.into_file() {
            Ok(file) => {
                let _short = file.shelf();
                Ok(JournalWriter::new(alloc, file, entries))
            }
            Err(failed) => Err(WriteFailed::Unwritten(failed)),
        }
    }
}
