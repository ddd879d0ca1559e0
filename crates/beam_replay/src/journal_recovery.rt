//! A node that comes back from its journal's file.
ghost use Rattle.std.specs.Prelude.{◌≡◌, ℕ, [], map, true, Option, IfErr, IfOk, OnOk};
ghost use Rattle.beam_journal_file.specs.JournalRead.{HasRead, IsOver, JournalRead, ReadsOn};
ghost use Rattle.beam_journal_file.specs.WrittenJournal.{HasWritten};
ghost use Rattle.beam_machine.specs.Journal.{sent_event_of};
ghost use Rattle.beam_recall.specs.Recalling.{AreNumbered};
ghost use Rattle.beam_tools.specs.Job.{IsOfPort};

use crate::journal_fault::{ReadPlace, full_fault, recall_fault, write_fault};
use crate::read_progress::ReadProgress;
use beam_block_file::Shelf;
use beam_journal::entry::Entry;
use beam_journal_file::{JournalReader, JournalWriter, TornEnd};
use beam_recall::recall;
use beam_receipts::brand::NodeBrand;
use beam_receipts::drain::DrainReceipt;
use beam_receipts::seat::SeatReceipt;
use beam_shared::node::Node;
use beam_tools::job::JobFault;
use log::{Log, info, warn};
use std::alloc::Global;
use std::mem;
use std::time::Clock;

/// How many entries are entered at most before they leave memory.
const PIECE: u32 = 65_536;

/// What a node gets from its journal's file: the seats of the lives before, the file, to be written further, and the receipt of who takes
/// entries out of the node's memory, by which all those in the file have left it.
#[derive(Drop)]
pub struct Recovered<B: NodeBrand, S: Shelf + Drop> {
    pub seats: Vec<SeatReceipt<B>>,
    pub writer: JournalWriter<S>,
    pub receipt: DrainReceipt<B>,
}

/// Enters the next entries of a journal's file, at most 65,536, with these seats, which are all of the node's, and those that the node
/// gives further. Tells whether the file has no more. Where the reader has given just what the node's journal has, it has so afterwards
/// too.
fn enter_some<'l, B: NodeBrand, S: Shelf + Drop>(
    alloc: Global,
    node: &mut Node<B>,
    seats: &mut Vec<SeatReceipt<B>>,
    reader: &mut JournalReader<S>,
    name: &'l str,
) -> Result<bool, JobFault<'l>>
    requires { AreNumbered node.old.seats seats.old.items }
    ensures numbered { AreNumbered node.new.seats seats.new.items }
    ensures read { OnOk result (HasRead reader.old (map sent_event_of node.old.journal) → HasRead reader.new (map sent_event_of node.new.journal)) }
    ensures on { OnOk result (ReadsOn reader.old reader.new) }
    ensures over { IfOk result (λ is_over. is_over ≡ true → IsOver reader.new) }
    ensures fault { IfErr result (λ f. (port : Option ℕ) → IsOfPort port f) }
{
    match recall(alloc, node, seats, reader, PIECE) {
        Ok(is_over) => Ok(is_over),
        Err(why) => {
            let place = ReadPlace {
                byte: reader.block_at(),
                entry: reader.entries(),
            };
            Err(recall_fault(name, why, place))
        }
    }
}

/// Enters the next entries of a journal's file, as `enter_some` does; then all entries that are in memory leave it, by that receipt, into
/// the list `left`, which forgets those that it had. `JournalFull` where the node has as many entries as it can have.
pub(crate) fn enter_piece<'l, B: NodeBrand, S: Shelf + Drop>(
    alloc: Global,
    node: &mut Node<B>,
    seats: &mut Vec<SeatReceipt<B>>,
    reader: &mut JournalReader<S>,
    receipt: &mut DrainReceipt<B>,
    left: &mut Vec<Entry>,
    name: &'l str,
) -> Result<bool, JobFault<'l>>
    requires { AreNumbered node.old.seats seats.old.items }
    ensures numbered { AreNumbered node.new.seats seats.new.items }
    ensures read { OnOk result (HasRead reader.old (map sent_event_of node.old.journal) → HasRead reader.new (map sent_event_of node.new.journal)) }
    ensures on { OnOk result (ReadsOn reader.old reader.new) }
    ensures over { IfOk result (λ is_over. is_over ≡ true → IsOver reader.new) }
    ensures receipt { OnOk result (receipt.new ≡ node.new.journal) }
    ensures fault { IfErr result (λ f. (port : Option ℕ) → IsOfPort port f) }
{
    let is_over = match enter_some(alloc, node, seats, reader, name) {
        Ok(is_over) => is_over,
        Err(fault) => return Err(fault),
    };
    let mut room = mem::replace(left, Vec::new(alloc));
    room.clear();
    match node.drain(receipt, room) {
        Ok(entries) => {
            *left = entries;
            Ok(is_over)
        }
        Err(_room) => Err(full_fault(name)),
    }
}

/// Enters the entries that are left in a journal's file, piece by piece; they leave memory. So it takes the memory of the state to which
/// they lead, and of one piece. A terminal is shown how far it is.
#[tactic(auto, using(beam_journal_file::proofs::ReadOn::reads_same, beam_journal_file::proofs::ReadOn::reads_further))]
fn enter_all<'l, B: NodeBrand, S: Shelf + Drop, T: Eprint + Clock>(
    alloc: Global,
    node: &mut Node<B>,
    seats: &mut Vec<SeatReceipt<B>>,
    reader: &mut JournalReader<S>,
    receipt: &mut DrainReceipt<B>,
    progress: &mut ReadProgress<'_, T>,
    name: &'l str,
) -> Result<(), JobFault<'l>>
    requires { AreNumbered node.old.seats seats.old.items }
    ensures numbered { AreNumbered node.new.seats seats.new.items }
    ensures read { OnOk result (HasRead reader.old (map sent_event_of node.old.journal) → HasRead reader.new (map sent_event_of node.new.journal)) }
    ensures on { OnOk result (ReadsOn reader.old reader.new) }
    ensures over { OnOk result (IsOver reader.new) }
    ensures receipt { OnOk result (receipt.new ≡ node.new.journal) }
    ensures fault { IfErr result (λ f. (port : Option ℕ) → IsOfPort port f) }
{
    let mut left = Vec::new(alloc);
    for _ in 0..u64::MAX {
        match enter_piece(alloc, node, seats, reader, receipt, &mut left, name) {
            Ok(true) => return Ok(()),
            Ok(false) => progress.show(reader.entries(), reader.block_at()),
            Err(fault) => return Err(fault),
        }
    }
    Err(full_fault(name))
}

/// Logs how a file ended, and how many entries it had.
fn log_recovery<R: Log>(rt: &R, name: &str, entries: u64, torn: Option<TornEnd>) {
    if let Some(TornEnd { at, bytes }) = torn {
        warn!(rt; "{name}: CutJournal at byte {at}: {bytes} bytes are cut off");
    }
    if entries > 0 {
        info!(rt; "{name}: {entries} entries, files and start of the command line are left out");
    }
}

/// Brings a node back that has no entries and gave no seats: it enters the entries of a journal's file, in their order, and they leave
/// memory. Then the file keeps just the node's journal, which is all that it kept, and what is written further goes on from there. What
/// stands after the last whole block is cut off, and a warning tells it. `BadJournal` where no node wrote the file, and `JournalFull` where
/// it has more entries than a node can have, which no file has: then the file is as it was.
pub fn recover<'l, B: NodeBrand, S: Shelf + Drop, R: Log, T: Eprint + Clock>(
    rt: &R,
    alloc: Global,
    node: &mut Node<B>,
    reader: JournalReader<S>,
    progress: ReadProgress<'_, T>,
    name: &'l str,
) -> Result<Recovered<B, S>, JobFault<'l>>
    requires no_seats { node.old.seats ≡ 0 }
    requires no_entries { node.old.journal ≡ [] }
    requires at_first { HasRead reader [] }
    ensures numbered { IfOk result (λ r. AreNumbered node.new.seats r.seats.items) }
    ensures kept { IfOk result (λ r. HasWritten r.writer (map sent_event_of node.new.journal)) }
    ensures fresh { IfOk result (λ r. r.writer.taken ≡ 0) }
    ensures drained { IfOk result (λ r. r.receipt ≡ node.new.journal) }
    ensures whole { IfOk result (λ r. (last : JournalRead) × ReadsOn reader last × IsOver last × HasRead last (map sent_event_of node.new.journal)) }
    ensures fault { IfErr result (λ f. (port : Option ℕ) → IsOfPort port f) }
{
    let mut seats = Vec::new(alloc);
    let mut reader = reader;
    let mut receipt = node.drain_receipt();
    let mut progress = progress;
    let entered = enter_all(
        alloc,
        node,
        &mut seats,
        &mut reader,
        &mut receipt,
        &mut progress,
        name,
    );
    progress.end();
    match entered {
        Ok(()) => {}
        Err(fault) => return Err(fault),
    }
    let (entries, torn) = (reader.entries(), reader.torn());
    let writer = match reader.into_writer(alloc) {
        Ok(writer) => writer,
        Err(why) => return Err(write_fault(name, why)),
    };
    log_recovery(rt, name, entries, torn);
    Ok(Recovered {
        seats,
        writer,
        receipt,
    })
}
