//! The file of a journal that is written.
ghost use Rattle.std.specs.Prelude.{◌≡◌, ◌<◌, ◌+◌, ◌-◌, ◌^◌, ◌++◌, ◌∷◌, [], false, true, min, List, IfOk, IfSome, OnErr, OnOk, option_map};
ghost use Rattle.beam_blocks.specs.Blocks.{block};
ghost use Rattle.beam_block_file.specs.StoredBlocks.{all_bytes};
ghost use Rattle.beam_machine.specs.Journal.{SentEvent};
ghost use Rattle.beam_records.specs.JournalFile.{IsPage, head_of};
ghost use Rattle.beam_journal_file.specs.WrittenJournal.{HasTaken, HasWritten};

use crate::error::WriteFailed;
use beam_block_file::{BlockFile, Shelf};
use beam_image::Image;
use beam_machine::debug::DebugEvent;
use beam_records::{begin_page, put_head, put_record};
use std::alloc::Global;
use std::marker::Model;

/// How many entries a page has at most.
const MOST_TAKEN: u32 = 512;

/// How many bytes a page has before no more entries are taken.
const FULL_PAGE: usize = 65_536;

/// The file of a journal that is written: first entries are taken into a page, which needs the journal; then the page is written, which
/// needs nothing but the device. Contracts see the file, the page, and how many entries stand in each.
#[derive(Drop)]
pub struct JournalWriter<S: Shelf + Drop> {
    file: BlockFile<S>,
    page: Vec<u8>,
    written: u64,
    taken: u32,
}

impl<S: Shelf + Drop> Model for JournalWriter<S> {
    ghost use Rattle.beam_journal_file.specs.WrittenJournal.{WrittenJournal};

    ghost Value = { WrittenJournal };

    ghost view = { λ j. record { file = j.file; page = j.page.items; written = j.written; taken = j.taken } };
}

/// Writes the head of a journal, with an identifier, to a device that has no bytes. It is on the device once this returns Ok. The device is
/// dropped where that fails.
pub fn write_head<S: Shelf + Drop>(alloc: Global, shelf: S, id: &[u8; 16]) -> Result<S, WriteFailed>
    requires empty { IfSome (S.bytes shelf) (λ b. b ≡ []) }
    ensures head { IfOk result (λ made. S.bytes made ≡ option_map (λ _. block (head_of id.now)) (S.bytes shelf)) }
{
    let mut head = Vec::new(alloc);
    put_head(&mut head, id)?;
    let mut file = BlockFile::create(alloc, shelf, &head)?;
    match file.sync() {
        Ok(()) => Ok(file.into_shelf()),
        Err(failed) => Err(WriteFailed::Unsynced(failed)),
    }
}

impl<S: Shelf + Drop> JournalWriter<S> {
    /// The writer of a file that has that many entries.
    pub(crate) fn new(alloc: Global, file: BlockFile<S>, written: u64) -> JournalWriter<S>
        ensures { result ≡ record { file = file; page = []; written = written; taken = 0 } }
    {
        JournalWriter {
            file,
            page: Vec::new(alloc),
            written,
            taken: 0,
        }
    }

    /// How many entries stand in the file.
    pub fn written(&self) -> u64
        ensures { result ≡ self.now.written }
    {
        self.written
    }

    /// How many bytes the file has.
    pub fn bytes(&self) -> u64
        ensures { result ≡ self.now.file.end }
    {
        self.file.end()
    }

    /// How many entries stand in the file and in the page.
    pub fn has(&self) -> u64
        ensures { result ≡ min (self.now.written + self.now.taken) (2 ^ 64 - 1) }
    {
        self.written.saturating_add(u64::from(self.taken))
    }

    /// Whether the page takes no more entries before it is written: it has 512, or 65,536 bytes or more.
    pub fn is_full(&self) -> bool
        ensures few { result ≡ false → self.now.taken < 512 }
        ensures some { result ≡ true → 0 < self.now.taken }
    {
        self.taken > 0 && (self.taken >= MOST_TAKEN || self.page.len() >= FULL_PAGE)
    }

    /// Begins a page, if there is none.
    fn begin(&mut self) -> Result<(), WriteFailed>
        ensures page { OnOk result ((ss : List SentEvent) → HasTaken self.old ss → IsPage self.old.written self.new.page ss) }
        ensures same { self.new ≡ record self.old { page = self.new.page } }
        ensures taken { (ss : List SentEvent) → HasTaken self.old ss → HasTaken self.new ss }
    {
        if self.taken == 0 {
            self.page.clear();
            begin_page(&mut self.page, self.written)?;
        }
        Ok(())
    }

    /// Takes the entry that follows those that it has, into a page that isn't full. If that fails the writer has what it had.
    pub fn add(&mut self, event: &DebugEvent<Image>, seat: Option<u32>) -> Result<(), WriteFailed>
        requires few { self.old.taken < 512 }
        ensures taken { OnOk result ((ss : List SentEvent) → HasTaken self.old ss → HasTaken self.new (ss ++ record { event = event.now; seat = seat } ∷ [])) }
        ensures count { OnOk result (self.new.taken ≡ self.old.taken + 1) }
        ensures file { (self.new.file ≡ self.old.file) × (self.new.written ≡ self.old.written) }
        ensures kept { OnErr result ((self.new.taken ≡ self.old.taken) × ((ss : List SentEvent) → HasTaken self.old ss → HasTaken self.new ss)) }
    {
        self.begin()?;
        put_record(&mut self.page, event, seat)?;
        self.taken += 1;
        Ok(())
    }

    /// Writes the page as a block. If that fails the file has the entries that it had, and the page stays, to be tried again.
    pub fn write(&mut self) -> Result<(), WriteFailed>
        ensures written { OnOk result ((kept taken : List SentEvent) → HasWritten self.old kept → HasTaken self.old taken → HasWritten self.new (kept ++ taken)) }
        ensures count { OnOk result ((self.new.written ≡ self.old.written + self.old.taken) × (self.new.taken ≡ 0)) }
        ensures kept { OnErr result ((kept : List SentEvent) → HasWritten self.old kept → HasWritten self.new kept) }
        ensures page { OnErr result ((self.new.page ≡ self.old.page) × (self.new.taken ≡ self.old.taken) × (self.new.written ≡ self.old.written)) }
    {
        if self.taken == 0 {
            return Ok(());
        }
        let Some(written) = self.written.checked_add(u64::from(self.taken)) else {
            return Err(WriteFailed::Unspelled);
        };
        if self.page.len() >= 1 << 32 {
            return Err(WriteFailed::Unspelled);
        }
        self.file.put(&self.page)?;
        self.written = written;
        self.taken = 0;
        Ok(())
    }

    /// Everything that was written is on the device once this returns Ok.
    pub fn sync(&mut self) -> Result<(), WriteFailed>
        ensures same { self.new ≡ record self.old { file = self.new.file } }
        ensures file { (self.new.file.known ≡ self.old.file.known) × (self.new.file.end ≡ self.old.file.end) }
    {
        match self.file.sync() {
            Ok(()) => Ok(()),
            Err(failed) => Err(WriteFailed::Unsynced(failed)),
        }
    }

    /// The device, which the writer gives back. Entries of a page that isn't written aren't on it.
    pub fn into_shelf(self) -> S
        ensures { S.bytes result ≡ option_map all_bytes self.file.known }
    {
        let JournalWriter { file, .. } = self;
        file.into_shelf()
    }
}
