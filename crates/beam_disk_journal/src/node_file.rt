//! The entries that leave a node's memory, and the file to which they are written.
ghost use Rattle.std.specs.Prelude.{◌≡◌, ◌+◌, ◌≤◌, [], List, drop, length, map, IfOk, OnOk};
ghost use Rattle.beam_journal_file.specs.WrittenJournal.{HasWritten};
ghost use Rattle.beam_machine.specs.Journal.{SentEvent, sent_event_of};
ghost use Rattle.beam_disk_journal.specs.WrittenEntries.{HasAllBut, HasFirst, TakesMore};

use beam_block_file::Shelf;
use beam_journal::entry::Entry;
use beam_journal_file::{JournalWriter, WriteFailed};
use beam_receipts::brand::NodeBrand;
use beam_receipts::drain::DrainReceipt;
use beam_sched::shared::Shared;
use std::alloc::Global;
use std::marker::Model;
use std::mem;
use std::sync::Wait;

/// For how many entries a list has room at least that the node gets for its next ones.
const LEAST_ROOM: usize = 4_096;

/// For how many entries a list has room at most that is used again.
const MOST_ROOM: usize = 65_536;

/// The file of a node's journal, and the entries that left the node's memory last. In every state the file and its page have the first of
/// all entries that left memory, in their order, and the list has the others. So the entries in memory are those in the list, and those
/// that the node entered since. Contracts see the entries that left memory, the file with its page, and the events of the entries that
/// neither has.
pub struct NodeFile<B: NodeBrand, S: Shelf + Drop> {
    alloc: Global,
    writer: JournalWriter<S>,
    receipt: DrainReceipt<B>,
    /// The entries that left the node's memory last.
    left: Vec<Entry>,
    /// How many of them were taken into a page.
    next: usize,
}

impl<B: NodeBrand, S: Shelf + Drop> Drop for NodeFile<B, S> {
    fn drop(self) {
        let NodeFile {
            alloc: _alloc,
            writer: _writer,
            receipt: _receipt,
            left: _left,
            next: _next,
        } = self;
    }
}

impl<B: NodeBrand, S: Shelf + Drop> Model for NodeFile<B, S> {
    ghost use Rattle.std.specs.Prelude.{drop, map};
    ghost use Rattle.std.specs.Coded.{codes};
    ghost use Rattle.beam_term.specs.Coding.{term_code};
    ghost use Rattle.beam_machine.specs.Journal.{sent_event_of};
    ghost use Rattle.beam_disk_journal.specs.WrittenEntries.{HasAllBut, NodeFile as TheFile};

    ghost Value = { TheFile };

    ghost coded = { Prim.hlevel (codes, term_code) };

    ghost view = { λ f. record { drained = f.receipt; writer = f.writer; rest = drop f.next f.left.items } };

    ghost invariant = { λ f. HasAllBut (map sent_event_of f.receipt) f.writer (drop f.next f.left.items) };
}

/// Takes entries into the writer's page, from that of the number `next` on, until the page is full or none are left. `next` is then the
/// number of the first one that isn't taken. `NoMemory` and `Unspelled` where an entry has no record: those before it are taken.
fn take_entries<S: Shelf + Drop>(
    entries: &[Entry],
    next: &mut usize,
    writer: &mut JournalWriter<S>,
) -> Result<(), WriteFailed>
    ensures taken { (sent : List SentEvent) → HasAllBut sent writer.old (drop next.old entries.now) → HasAllBut sent writer.new (drop next.new entries.now) }
    ensures file { (writer.new.file ≡ writer.old.file) × (writer.new.written ≡ writer.old.written) }
{
    while *next < entries.len() {
        if writer.is_full() {
            return Ok(());
        }
        let entry = &entries[*next];
        writer.add(entry.event(), entry.seat())?;
        *next += 1;
    }
    Ok(())
}

impl<B: NodeBrand, S: Shelf + Drop> NodeFile<B, S> {
    /// The file of a writer whose file has the entries that have left a node's memory, by the receipt of who takes them out of it.
    pub fn new(alloc: Global, writer: JournalWriter<S>, receipt: DrainReceipt<B>) -> NodeFile<B, S>
        requires written { HasWritten writer (map sent_event_of receipt) }
        requires fresh { writer.taken ≡ 0 }
        ensures { result ≡ record { drained = receipt; writer = writer; rest = [] } }
    {
        NodeFile {
            alloc,
            writer,
            receipt,
            left: Vec::new(alloc),
            next: 0,
        }
    }

    /// How many entries stand in the file.
    pub(crate) fn written(&self) -> u64
        ensures is { result ≡ self.now.writer.written }
        ensures first { HasFirst (map sent_event_of self.now.drained) self.now.writer }
    {
        self.writer.written()
    }

    /// How many bytes the file has.
    pub(crate) fn bytes(&self) -> u64
        ensures { result ≡ self.now.writer.file.end }
    {
        self.writer.bytes()
    }

    /// A list without entries, in which a node enters its next ones: that of the entries that left memory last, all of which were taken
    /// into a page, if it has room for enough and not for too many. They are dropped. Otherwise a new one, or `NoMemory`.
    fn room(&mut self) -> Result<Vec<Entry>, WriteFailed>
        requires { self.old.rest ≡ [] }
        ensures empty { IfOk result (λ room. room.items ≡ []) }
        ensures same { self.new ≡ self.old }
    {
        let mut used = mem::replace(&mut self.left, Vec::new(self.alloc));
        used.clear();
        if used.capacity() >= LEAST_ROOM && used.capacity() <= MOST_ROOM {
            return Ok(used);
        }
        drop(used);
        match Vec::with_capacity(self.alloc, LEAST_ROOM) {
            Ok(room) => Ok(room),
            Err(_) => Err(WriteFailed::NoMemory),
        }
    }

    /// Lets the entries in the node's memory leave it, where all that left it before were taken into a page; the node's lock is held for
    /// one exchange of two lists. `NoMemory` where there is no memory for a list in which the node enters its next ones, or where the node
    /// doesn't take that list: then no entry leaves its memory.
    pub(crate) fn take<R: Wait>(&mut self, rt: &R, shared: &Shared<B>) -> Result<(), WriteFailed>
        ensures { TakesMore self.old self.new }
    {
        if self.next < self.left.len() {
            return Ok(());
        }
        let room = self.room()?;
        match shared.drain(rt, &mut self.receipt, room) {
            Ok(left) => {
                self.left = left;
                self.next = 0;
                Ok(())
            }
            Err(_room) => Err(WriteFailed::NoMemory),
        }
    }

    /// Takes entries that left memory into the writer's page, until that is full or it has all. `NoMemory` and `Unspelled` where an entry
    /// has no record: those before it are taken.
    pub(crate) fn fill(&mut self) -> Result<(), WriteFailed>
        ensures drained { self.new.drained ≡ self.old.drained }
        ensures file { (self.new.writer.file ≡ self.old.writer.file) × (self.new.writer.written ≡ self.old.writer.written) }
    {
        take_entries(&self.left, &mut self.next, &mut self.writer)
    }

    /// Writes the page as a block. If that fails the file has the entries that it had, and the page stays, to be tried again.
    pub(crate) fn write(&mut self) -> Result<(), WriteFailed>
        ensures count { OnOk result ((self.new.writer.written ≡ self.old.writer.written + self.old.writer.taken) × (self.new.writer.taken ≡ 0)) }
        ensures rest { (self.new.drained ≡ self.old.drained) × (self.new.rest ≡ self.old.rest) }
    {
        self.writer.write()
    }

    /// Everything that was written is on the device once this returns Ok.
    pub(crate) fn sync(&mut self) -> Result<(), WriteFailed>
        ensures same { self.new ≡ record self.old { writer = record self.old.writer { file = self.new.writer.file } } }
        ensures known { self.new.writer.file.known ≡ self.old.writer.file.known }
    {
        self.writer.sync()
    }
}
