//! Rows of a list of processes.
ghost use Rattle.std.specs.Prelude.{◌≡◌, ◌+◌, ◌<◌, ◌^◌, IfOk};
ghost use Rattle.beam_looks.specs.Rows.{ended_row, live_row, row_of, rows_after, state_of};

use crate::places::{RowPlace, place_of};
use beam_debug::debugger::Debugger;
use beam_page::ProcessState;
use beam_proc::entry::ProcessEntry;
use beam_proc::process::Process;
use beam_term::{Atom, Term};
use std::alloc::{AllocError, Global};

/// What a list tells of a process. Atoms, the image and the reason are shared.
pub struct ProcessRow {
    pub pid: u32,
    pub name: Option<Atom>,
    pub state: ProcessState,
    /// How many messages its mailbox has.
    pub mailbox: usize,
    /// How many signals are in transit to it.
    pub transit: usize,
    /// How many words its frames count.
    pub stack_words: usize,
    /// How many processes it monitors.
    pub monitors: usize,
    pub place: RowPlace,
    /// The reason of its end.
    pub reason: Option<Term>,
}

impl Drop for ProcessRow {
    fn drop(self) {
        let ProcessRow {
            pid: _pid,
            name: _name,
            state: _state,
            mailbox: _mailbox,
            transit: _transit,
            stack_words: _stack_words,
            monitors: _monitors,
            place: _place,
            reason: _reason,
        } = self;
    }
}

/// How a process stands that hasn't ended.
pub(crate) fn live_state(debugger: &Debugger, process: &Process) -> ProcessState
    ensures { result ≡ state_of debugger.now.state process.now }
{
    if debugger.is_held(process.pid()) {
        ProcessState::Held
    } else if process.is_waiting() {
        ProcessState::Waiting
    } else {
        ProcessState::Running
    }
}

fn share_name(process: &Process) -> Result<Option<Atom>, AllocError>
    ensures { IfOk result (λ name. name ≡ process.now.name) }
{
    match process.name() {
        Some(name) => Ok(Some(name.clone()?)),
        None => Ok(None),
    }
}

/// The row of a process that hasn't ended.
fn live_row(debugger: &Debugger, process: &Process) -> Result<ProcessRow, AllocError>
    ensures { IfOk result (λ row. row ≡ live_row debugger.now.state process.now) }
{
    Ok(ProcessRow {
        pid: process.pid(),
        name: share_name(process)?,
        state: live_state(debugger, process),
        mailbox: process.message_count(),
        transit: process.transit_count(),
        stack_words: process.stack_words(),
        monitors: process.monitors().len(),
        place: place_of(debugger.table(), process.goes())?,
        reason: None,
    })
}

/// The row of a process that has ended for this reason.
fn ended_row(pid: u32, reason: &Term) -> Result<ProcessRow, AllocError>
    ensures { IfOk result (λ row. row ≡ ended_row pid reason.now) }
{
    Ok(ProcessRow {
        pid,
        name: None,
        state: ProcessState::Ended,
        mailbox: 0,
        transit: 0,
        stack_words: 0,
        monitors: 0,
        place: RowPlace::Nowhere,
        reason: Some(reason.clone()?),
    })
}

/// The row of a process of a node, also of one that has ended.
pub fn row_of(debugger: &Debugger, process: &ProcessEntry) -> Result<ProcessRow, AllocError>
    ensures { IfOk result (λ row. row ≡ row_of debugger.now.state process.now) }
{
    if let Some((reason, _value)) = process.end() {
        return ended_row(process.pid(), reason);
    }
    match process.living() {
        Some(process) => live_row(debugger, process),
        None => unreachable!(),
    }
}

/// The rows of the processes above a number, in the order of their numbers: of the first `most` ones, fewer where there are no more. No
/// row is made where `after + most` is 2^32 or more. It takes time linear in `most`, and O(h) of each where h processes are held.
#[tactic(auto, using(crate::proofs::After::next_row, crate::proofs::After::no_row, crate::proofs::After::no_row_left))]
pub fn rows_after(
    alloc: Global,
    debugger: &Debugger,
    after: u32,
    most: u32,
) -> Result<Vec<ProcessRow>, AllocError>
    ensures { after + most < 2 ^ 32 → IfOk result (λ rows. rows.items ≡ rows_after debugger.now.state after most) }
{
    let mut rows = Vec::with_capacity(alloc, most as usize)?;
    let Some(end) = after.checked_add(most) else {
        return Ok(rows);
    };
    let mut pid = after;
    while pid < end {
        match debugger.process(pid + 1) {
            Some(process) => rows.push(row_of(debugger, process)?)?,
            None => return Ok(rows),
        }
        pid += 1;
    }
    Ok(rows)
}
