//! One process in detail.
ghost use Rattle.std.specs.Prelude.{◌≡◌, IfOk, option_map};
ghost use Rattle.beam_machine.specs.State.{process_of};
ghost use Rattle.beam_looks.specs.Rows.{row_of};

use crate::clip::{TextRoom, clipped};
use crate::copies::process_copy;
use crate::facts::{place_facts, process_facts};
use crate::places::{RowPlace, row_place};
use crate::process_rows::{ProcessRow, row_of};
use beam_codesrv::CodeTable;
use beam_debug::debugger::Debugger;
use beam_genop::name;
use beam_machine::process::Slot;
use beam_page::{ClippedText, FrameFacts, ProcessDetail};
use beam_proc::entry::ProcessEntry;
use beam_proc::process::Process;
use beam_term::Term;
use beam_watches::monitors::own_number;
use std::alloc::{AllocError, Global};

/// How many frames are told.
const MOST_FRAMES: usize = 64;

/// How many registers are told of the x registers, and of the y registers of a frame.
const MOST_REGISTERS: usize = 64;

/// How many messages are told.
const MOST_MESSAGES: usize = 10;

/// How many of the processes are told that a process monitors.
const MOST_MONITORED: usize = 100;

/// How many signals in transit and monitors a process may have of which a copy is made.
const MOST_COPIED: usize = 100_000;

/// How many bytes all texts of an answer have at most.
const TEXT_BYTES: usize = 65_536;

/// What is copied of a process, while the node's lock is held.
pub struct ProcessLook {
    pub row: ProcessRow,
    /// A copy, unless the process has ended, or has more signals in transit and monitors than are copied.
    copy: Option<Process>,
    /// Where its first frames return.
    backs: Vec<Option<RowPlace>>,
    /// The node's clock.
    clock: u64,
}

impl Drop for ProcessLook {
    fn drop(self) {
        let ProcessLook {
            row: _row,
            copy: _copy,
            backs: _backs,
            clock: _clock,
        } = self;
    }
}

/// Where the first frames of a process return.
fn backs_of(
    alloc: Global,
    table: &CodeTable,
    process: &Process,
) -> Result<Vec<Option<RowPlace>>, AllocError> {
    let mut backs = Vec::new(alloc);
    let mut walk = process.walk();
    for _ in 0..MOST_FRAMES {
        if walk.is_done() {
            break;
        }
        backs.push(match walk.back() {
            Some(place) => Some(row_place(table, place)?),
            None => None,
        })?;
        walk.pass();
    }
    Ok(backs)
}

/// Where the first frames of a process return, if it hasn't ended.
fn backs_in(
    alloc: Global,
    table: &CodeTable,
    entry: &ProcessEntry,
) -> Result<Vec<Option<RowPlace>>, AllocError> {
    match entry.living() {
        Some(process) => backs_of(alloc, table, process),
        None => Ok(Vec::new(alloc)),
    }
}

/// Looks at a process, also at one that has ended; `None` where it was never started. It takes time linear in the process's frames, its
/// signals in transit and its monitors, of which at most 100,000 are copied.
pub fn look_at(
    alloc: Global,
    debugger: &Debugger,
    pid: u32,
) -> Result<Option<ProcessLook>, AllocError>
    ensures { IfOk result (λ look. option_map (λ l. l.row) look ≡ option_map (row_of debugger.now.state) (process_of debugger.now.state.node.processes pid)) }
{
    let Some(entry) = debugger.process(pid) else {
        return Ok(None);
    };
    let row = row_of(debugger, entry)?;
    let is_small = row.transit.saturating_add(row.monitors) <= MOST_COPIED;
    let copy = if is_small {
        process_copy(debugger, pid)?
    } else {
        None
    };
    Ok(Some(ProcessLook {
        row,
        copy,
        backs: backs_in(alloc, debugger.table(), entry)?,
        clock: debugger.core().clock(),
    }))
}

/// The texts of terms, as many as are told.
fn texts(
    alloc: Global,
    terms: &[Term],
    room: &mut TextRoom,
) -> Result<Vec<ClippedText>, AllocError> {
    let mut texts = Vec::new(alloc);
    for term in terms.iter().take(MOST_REGISTERS) {
        texts.push(clipped(alloc, term, room)?)?;
    }
    Ok(texts)
}

/// The texts of y registers, as many as are told.
fn slot_texts(
    alloc: Global,
    slots: &[Slot],
    room: &mut TextRoom,
) -> Result<Vec<Option<ClippedText>>, AllocError> {
    let mut texts = Vec::new(alloc);
    for slot in slots.iter().take(MOST_REGISTERS) {
        texts.push(match slot {
            Slot::Value(value) => Some(clipped(alloc, value, room)?),
            Slot::Tag(_) => None,
        })?;
    }
    Ok(texts)
}

/// The first frames, with their places and y registers.
fn frame_facts(
    alloc: Global,
    process: &Process,
    backs: &[Option<RowPlace>],
    room: &mut TextRoom,
) -> Result<Vec<FrameFacts>, AllocError> {
    let mut frames = Vec::new(alloc);
    let mut walk = process.walk();
    for back in backs {
        let slots = walk.y(alloc)?;
        frames.push(FrameFacts {
            back: match back {
                Some(place) => place_facts(place)?,
                None => None,
            },
            y: slot_texts(alloc, &slots.items, room)?,
        })?;
        walk.pass();
    }
    Ok(frames)
}

/// The texts of the first messages. The save pointer of the process is moved behind them.
fn message_texts(
    alloc: Global,
    process: &mut Process,
    room: &mut TextRoom,
) -> Result<Vec<ClippedText>, AllocError> {
    let mut texts = Vec::new(alloc);
    process.start_receive();
    for _ in 0..MOST_MESSAGES {
        let Some(message) = process.message_at() else {
            break;
        };
        texts.push(clipped(alloc, message, room)?)?;
        let _ = process.pass_message();
    }
    Ok(texts)
}

/// The numbers of the first processes that a process monitors.
fn monitored(alloc: Global, process: &Process) -> Result<Vec<u64>, AllocError> {
    let mut numbers = Vec::new(alloc);
    for (_reference, pid) in process.monitors().iter().take(MOST_MONITORED) {
        if let Some(number) = own_number(pid) {
            numbers.push(u64::from(number))?;
        }
    }
    Ok(numbers)
}

/// Whether more of a process is there than is told.
fn is_cut(process: &Process, frames: usize) -> bool {
    let mut walk = process.walk();
    for _ in 0..frames {
        walk.pass();
    }
    !walk.is_done()
        || process.x().len() > MOST_REGISTERS
        || process.message_count() > MOST_MESSAGES
        || process.monitors().len() > MOST_MONITORED
}

/// The name of the instruction with which a process goes on.
fn next_text(alloc: Global, place: &RowPlace) -> Result<Option<String>, AllocError> {
    match place {
        RowPlace::Row {
            place,
            image: Some(image),
            ..
        } if place.at() < image.code().len() => {
            let opcode = image.fetch(*place).opcode();
            Ok(Some(String::from_str(alloc, name(opcode))?))
        }
        _ => Ok(None),
    }
}

/// What is told of a process of which nothing is told but its row.
fn row_detail(
    alloc: Global,
    row: &ProcessRow,
    room: &mut TextRoom,
) -> Result<ProcessDetail, AllocError> {
    Ok(ProcessDetail {
        process: process_facts(alloc, row, room)?,
        save: 0,
        deadline_ms: None,
        next: next_text(alloc, &row.place)?,
        x: Vec::new(alloc),
        frames: Vec::new(alloc),
        first_messages: Vec::new(alloc),
        monitored: Vec::new(alloc),
        is_cut: row.reason.is_none(),
    })
}

impl ProcessLook {
    /// What is told of the process: its first 64 frames, 64 of the x registers and of each frame's y registers, 10 messages and 100 of those that
    /// it monitors, in texts of at most 64 KiB together. It is made without the node's lock.
    pub fn into_detail(self, alloc: Global) -> Result<ProcessDetail, AllocError> {
        let ProcessLook {
            row,
            copy,
            backs,
            clock,
        } = self;
        let mut room = TextRoom::new(TEXT_BYTES);
        let mut detail = row_detail(alloc, &row, &mut room)?;
        let Some(mut process) = copy else {
            return Ok(detail);
        };
        detail.save = process.save_position() as u64;
        detail.deadline_ms = match process.deadline() {
            Some(deadline) => Some(deadline.at.saturating_sub(clock)),
            None => None,
        };
        detail.x = texts(alloc, process.x(), &mut room)?;
        detail.frames = frame_facts(alloc, &process, &backs, &mut room)?;
        detail.monitored = monitored(alloc, &process)?;
        detail.is_cut = is_cut(&process, backs.len());
        detail.first_messages = message_texts(alloc, &mut process, &mut room)?;
        Ok(detail)
    }
}
