//! What `beamnode replay` does: it runs the entries of a journal's file again, and says what they are and what they lead to.
ghost use Rattle.std.specs.Prelude.{◌≡◌, ◌<◌, ◌⊎◌, [], None, Option, Some, IfErr, IfOk, IsErrOf, OnOk, length, option_map, true};
ghost use Rattle.beam_journal.specs.Entering.{most_entries};
ghost use Rattle.beam_machine.specs.Prelude.{View, is_among, process_of, view_of, view_text};
ghost use Rattle.beam_recall.specs.Recalling.{AreNumbered};
ghost use Rattle.beam_remote.specs.DeviceHistory.{EachRead};
ghost use Rattle.beam_remote.specs.Found.{failures_after};
ghost use Rattle.beam_remote.specs.Serving.{AllAnswered, IsServed, IsStopped};
ghost use Rattle.beam_remote.specs.declared.error.SessionFailure.{SessionFailure as TheFailure};
ghost use Rattle.beam_tools.specs.declared.os_error.OsError.{OsError};

mod entry_lines;

use crate::journal_fault::{full_fault, open_fault};
use crate::journal_opening::{read_head, size_of};
use crate::journal_recovery::enter_piece;
use crate::read_progress::ReadProgress;
use crate::replay_report::{EntryCounts, ReplayReport};
use crate::replaying::entry_lines::EntryLines;
use beam_block_file::FileShelf;
use beam_debug::debugger::Debugger;
use beam_desk::NodeDesk;
use beam_journal::entry::Entry;
use beam_journal::journal::MOST_ENTRIES;
use beam_journal_file::{JournalReader, TornEnd};
use beam_lengths::{parts_length, write_parts};
use beam_machine::event::Refused;
use beam_receipts::brand::NodeBrand;
use beam_receipts::keeper::UnbrandedKeeper;
use beam_receipts::seat::SeatReceipt;
use beam_remote::{Desk, ServeError, Served, SessionFailure, serve};
use beam_shared::node::Node;
use beam_streams::Streams;
use beam_tools::entry_range::EntryRange;
use beam_tools::job::JobFault;
use beam_tools::line::{Replay, ReplayGoal};
use std::alloc::Global;
use std::fs::File;
use std::io::{Read, Write};
use std::marker::Brand;
use std::time::Clock;
use std::{io, rt};

/// How many bytes of lines are made before they are printed.
const ENOUGH: usize = 65_536;

/// The most bytes of a process's text, which are those of a frame.
const LONGEST_VIEW: usize = 8_388_608;

/// What is told of entries: how many there are of each kind, and a line of each one in a range, on a console.
struct ToldEntries<'c, C: Print> {
    console: &'c C,
    print: Option<EntryRange>,
    lines: EntryLines,
    counts: EntryCounts,
    /// The number of the next entry.
    next: u64,
}

impl<'c, C: Print> Drop for ToldEntries<'c, C> {
    fn drop(self) {
        let ToldEntries {
            console: _console,
            print: _print,
            lines: _lines,
            counts: _counts,
            next: _next,
        } = self;
    }
}

impl<'c, C: Print> ToldEntries<'c, C> {
    /// No entry was told yet, and those in this range are to be printed, if there is one.
    fn new(alloc: Global, console: &'c C, print: Option<EntryRange>) -> ToldEntries<'c, C> {
        ToldEntries {
            console,
            print,
            lines: EntryLines::new(alloc),
            counts: EntryCounts::none(),
            next: 0,
        }
    }

    /// Prints the lines that were made.
    fn flush<'l>(&mut self) -> Result<(), JobFault<'l>> {
        if self.lines.as_bytes().is_empty() {
            return Ok(());
        }
        match self.console.write_all(self.lines.as_bytes()) {
            Ok(()) => {
                self.lines.clear();
                Ok(())
            }
            Err(_) => Err(JobFault::Unwritten),
        }
    }

    /// Makes the line of the entry of this number, if it is in the range, and prints the lines where they are many.
    fn print_one<'l>(&mut self, number: u64, entry: &Entry) -> Result<(), JobFault<'l>> {
        let Some(range) = self.print else {
            return Ok(());
        };
        if !range.has(number) {
            return Ok(());
        }
        if self.lines.push(number, entry).is_err() {
            return Err(JobFault::NoMemory);
        }
        if self.lines.as_bytes().len() < ENOUGH {
            return Ok(());
        }
        self.flush()
    }

    /// Tells these entries, which come next.
    fn tell<'l>(&mut self, entries: &[Entry]) -> Result<(), JobFault<'l>> {
        self.counts.add(entries);
        for entry in entries {
            let number = self.next;
            self.next = number.saturating_add(1);
            self.print_one(number, entry)?;
        }
        self.flush()
    }
}

/// Enters the entries that are left in a journal's file, piece by piece, and tells each piece. The entries leave memory. Gives the torn end
/// of the file, if it has one. A terminal is shown how far it is.
fn enter_told<'l, B: NodeBrand, C: Print, T: Eprint + Clock>(
    alloc: Global,
    node: &mut Node<B>,
    seats: &mut Vec<SeatReceipt<B>>,
    reader: JournalReader<FileShelf>,
    name: &'l str,
    told: &mut ToldEntries<'_, C>,
    progress: &mut ReadProgress<'_, T>,
) -> Result<Option<TornEnd>, JobFault<'l>>
    requires { AreNumbered node.old.seats seats.old.items }
{
    let mut reader = reader;
    let mut receipt = node.drain_receipt();
    let mut left = Vec::new(alloc);
    for _ in 0..u64::MAX {
        let is_over = enter_piece(
            alloc,
            node,
            seats,
            &mut reader,
            &mut receipt,
            &mut left,
            name,
        )?;
        told.tell(&left)?;
        if is_over {
            return Ok(reader.torn());
        }
        progress.show(reader.entries(), reader.block_at());
    }
    Err(full_fault(name))
}

/// The text of a process, as the reply to `Inspect` has it. `NoProcess` where the process of this number was never started, `LongView`
/// where its text has more than 8,388,608 bytes, and then none of it is made; `NoMemory`.
fn text_of_process<'l>(
    alloc: Global,
    debugger: &Debugger,
    pid: u32,
    name: &'l str,
) -> Result<Vec<u8>, JobFault<'l>>
    ensures text { IfOk result (λ text.
        option_map (λ process. view_text (view_of debugger.now.state.node.code (is_among pid debugger.now.state.held) process))
        (process_of debugger.now.state.node.processes pid) ≡ Some text.items) }
    ensures absent { IsErrOf result (JobFault.NoProcess name.entry) → process_of debugger.now.state.node.processes pid ≡ None }
    ensures long { IsErrOf result (JobFault.LongView name.entry) →
        (view : View) × (8388608 < length (view_text view))
        × (option_map (view_of debugger.now.state.node.code (is_among pid debugger.now.state.held))
        (process_of debugger.now.state.node.processes pid) ≡ Some view) }
    ensures fault { IfErr result (λ f.
        (f ≡ JobFault.NoProcess name.entry) ⊎ ((f ≡ JobFault.LongView name.entry) ⊎ (f ≡ JobFault.NoMemory))) }
{
    let view = match debugger.inspect(pid) {
        Ok(view) => view,
        Err(Refused::NoProcess) => return Err(JobFault::NoProcess(name)),
        Err(_) => return Err(JobFault::NoMemory),
    };
    let Ok(parts) = view.text(alloc) else {
        return Err(JobFault::NoMemory);
    };
    if parts_length(&parts, LONGEST_VIEW).is_none() {
        return Err(JobFault::LongView(name));
    }
    let mut text = Vec::new(alloc);
    match write_parts(&parts, &mut text) {
        Ok(()) => Ok(text),
        Err(_) => Err(JobFault::NoMemory),
    }
}

/// Prints the text of a process.
fn print_process<'l, C: Print>(
    alloc: Global,
    console: &C,
    debugger: &Debugger,
    pid: u32,
    name: &'l str,
) -> Result<(), JobFault<'l>> {
    let text = text_of_process(alloc, debugger, pid, name)?;
    match console.write_all(&text) {
        Ok(()) => Ok(()),
        Err(_) => Err(JobFault::Unwritten),
    }
}

/// A session over an input, an output and a desk, from bytes to bytes. The device comes back, whose contracts say what was read and written.
fn session_on<I: Read + Drop, O: Write + Drop, D: Desk>(
    alloc: Global,
    input: I,
    output: O,
    desk: &mut D,
) -> (Streams<I, O>, Result<Served, ServeError>)
    ensures served { IfOk result.1 (λ served. IsServed D.answers desk.old result.0.read result.0.written served desk.new) }
    ensures end { OnOk result.1 (result.0.ended ≡ true) }
    ensures quiet { OnOk result.1 (result.0.failures ≡ 0) }
    ensures stopped { IfErr result.1 (λ e. IsStopped D.answers desk.old result.0.read result.0.written e desk.new) }
    ensures cut { IfErr result.1 (λ e. e.why ≡ SessionFailure.CutFrame → result.0.ended ≡ true) }
    ensures failures { IfErr result.1 (λ e. result.0.failures ≡ failures_after e.why 0) }
    ensures prompt { EachRead (AllAnswered D.answers desk.old (Some []) (Some [])) (Some []) (Some result.0.moments) }
{
    let mut port = Streams::new(input, output);
    let end = serve(alloc, &mut port, desk);
    (port, end)
}

/// Answers the commands on standard input on standard output, over a node in the state that it has, up to the input's end or a fault.
fn pipe_on<'l, C: Input + Print>(
    alloc: Global,
    console: &C,
    debugger: Debugger,
) -> Result<(), JobFault<'l>>
    ensures fault { IfErr result (λ f. (why : TheFailure) × (os_error : Option OsError) × (f ≡ JobFault.Pipe why os_error)) }
{
    let mut desk = NodeDesk::of(debugger);
    let (port, end) = session_on(alloc, console.reader(), io::writer(console), &mut desk);
    match end {
        Ok(_) => Ok(()),
        Err(error) => Err(JobFault::Pipe(error.why, port.os_error())),
    }
}

/// The entries that are printed, if any.
fn printed(goal: ReplayGoal) -> Option<EntryRange> {
    match goal {
        ReplayGoal::Report { print, .. } => print,
        ReplayGoal::Pipe => None,
    }
}

/// Enters the entries at a new node, and does with them and with its state what the line asks for.
fn replay_on<'l, B: NodeBrand, C: Input + Print + Eprint + Clock>(
    alloc: Global,
    console: &C,
    progress: ReadProgress<'_, C>,
    unbranded: UnbrandedKeeper,
    reader: JournalReader<FileShelf>,
    line: &Replay<'l>,
) -> Result<(), JobFault<'l>>
    requires node { unbranded ≡ B.table }
    requires limit { B.limit ≡ most_entries }
{
    let mut node = Node::<B>::with_limit(alloc, unbranded, MOST_ENTRIES);
    let mut seats = Vec::new(alloc);
    let mut told = ToldEntries::new(alloc, console, printed(line.goal));
    let mut progress = progress;
    let entered = enter_told(
        alloc,
        &mut node,
        &mut seats,
        reader,
        line.file,
        &mut told,
        &mut progress,
    );
    progress.end();
    let torn = entered?;
    let inspect = match line.goal {
        ReplayGoal::Report { inspect, .. } => inspect,
        ReplayGoal::Pipe => return pipe_on(alloc, console, node.into_debugger()),
    };
    let report = ReplayReport::of(&node, told.counts, seats.len(), torn);
    if print!(console; "{report}").is_err() {
        return Err(JobFault::Unwritten);
    }
    match inspect {
        Some(pid) => print_process(alloc, console, node.debugger(), pid, line.file),
        None => Ok(()),
    }
}

/// The number of the entry before which a replay ends: none where the line names no less than 4,294,967,295, as one without `--upto` does.
fn end_of(line: &Replay) -> u64 {
    if line.upto == u32::MAX {
        u64::MAX
    } else {
        u64::from(line.upto)
    }
}

/// Runs the entries of a journal's file again, from the first one to the one before which the line ends. Then it prints on the console what
/// they are: how many of each kind, the seats, the clock, the processes, and where the file ends; before it a line of each entry that is to
/// be printed, and after it the process that is. Or it answers the commands on standard input, over a node in the state to which the entries
/// lead, and prints nothing else. The file isn't changed, and no other program needs to wait for it while commands are answered. A terminal,
/// if there is one, is shown how far the file was read where that takes longer than a second.
///
/// `JournalInUse` where a node has the file, `ReadFailed`, `NoJournal`, `OtherVersion`, `BadJournal` and `JournalFull` as `serve` with that
/// file; then the last entries before the fault, fewer than 65,536, may not be printed. `NoProcess` where the process that is to be printed
/// was never started, and `LongView` where its text has more than 8,388,608 bytes, both after the report. `Pipe` where the session stops,
/// `Unwritten` where something can't be printed, and `NoMemory`.
pub fn replay<'l, R: rt::Files<File = File> + AllocGlobal, C: Input + Print + Eprint + Clock>(
    rt: &R,
    console: &C,
    terminal: Option<&C>,
    line: &Replay<'l>,
) -> Result<(), JobFault<'l>> {
    let alloc = rt.alloc();
    let Ok(unbranded) = UnbrandedKeeper::new(alloc) else {
        return Err(JobFault::NoMemory);
    };
    let shelf = match FileShelf::open_to_read(rt, line.file) {
        Ok(shelf) => shelf,
        Err(why) => return Err(open_fault(line.file, why)),
    };
    let reader = read_head(alloc, line.file, shelf, end_of(line))?;
    let progress = ReadProgress::new(terminal, size_of(rt, line.file));
    replay_on::<Brand, C>(alloc, console, progress, unbranded, reader, line)
}
