//! An entry of the process table: a process, or the pid, the reason and the value of one that has ended.
ghost use Rattle.std.specs.Prelude.{◌≡◌, ◌≢◌, ◌==◌, ◌++◌, not, true, false, length, if◌then◌else◌, Some, None, MatchOption, IfOk, OnOk, OnErr, option_map};
ghost use Rattle.std.specs.Fn.{FnOnceTakesAtMut, FnOnceReturnsAtMut};
ghost use Rattle.std.specs.List.{list_any};
ghost use Rattle.std.specs.Option.{option_copied};
ghost use Rattle.beam_machine.specs.Change.{lingers};
ghost use Rattle.beam_machine.specs.Process.{is_running, is_waiting, is_ended};
ghost use Rattle.beam_machine.specs.State.{monitors_process};
ghost use Rattle.beam_proc.specs.Entry.{bare, end_of, process_in, HasOnlyEnd, IsSettled};
ghost use Rattle.beam_proc.specs.Downs.{downs_to};

use crate::private::Sent;
use crate::process::Process;
use beam_machine::process::{Deadline, Goes, Status};
use beam_term::{Atom, Term};
use indexmap::IndexSet;
use std::alloc::{AllocError, Global};
use std::marker::Model;
use std::mem;

/// An entry of the process table. Contracts see the process. An ended process holds only the memory of its reason and its value.
pub struct ProcessEntry {
    pub(crate) state: EntryState,
}

impl Drop for ProcessEntry {
    fn drop(self) {
        let ProcessEntry { state: _state } = self;
    }
}

#[derive(Drop)]
pub(crate) enum EntryState {
    Living(Box<Process>),
    Ended { pid: u32, reason: Term, value: Term },
}

impl Model for ProcessEntry {
    ghost use Rattle.std.specs.Coded.{codes};
    ghost use Rattle.beam_term.specs.Coding.{term_code};
    ghost use Rattle.beam_machine.specs.Process.{Process as TheProcess};
    ghost use Rattle.beam_proc.specs.Entry.{process_in, IsSettled};

    ghost Value = { TheProcess };

    ghost coded = { Prim.hlevel (codes, term_code) };

    ghost view = { λ e. process_in e.state };

    ghost invariant = { λ e. IsSettled e.state };
}

impl Process {
    /// Whether the process has only its pid and its status.
    fn holds_nothing(&self) -> bool
        ensures bare { result ≡ true → self.now ≡ bare self.now.pid self.now.status }
        ensures more { result ≡ false → self.now ≢ bare self.now.pid self.now.status }
    {
        self.name.is_none()
            && self.x.is_empty()
            && self.frames.is_empty()
            && matches!(&self.goes, Goes::Nowhere)
            && self.mailbox.len() == 0
            && self.mailbox.position() == 0
            && self.transit.is_empty()
            && self.deadline.is_none()
            && self.pending.is_none()
            && self.monitors.is_empty()
    }

    /// Takes the reason and the value out, if it has ended and has only its pid beside them.
    fn take_end(&mut self) -> Option<(Term, Term)>
        ensures end { MatchOption result (self.new ≡ self.old) (λ end. self.old ≡ bare self.new.pid (Status.Ended end.0 end.1)) }
        ensures none { result ≡ None → HasOnlyEnd self.old → ⊥ }
    {
        if !self.holds_nothing() {
            return None;
        }
        let gone = Status::Ended {
            reason: Term::nil(),
            value: Term::nil(),
        };
        match &self.status {
            Status::Ended { .. } => match mem::replace(&mut self.status, gone) {
                Status::Ended { reason, value } => Some((reason, value)),
                Status::Running | Status::Waiting => unreachable!(),
            },
            Status::Running | Status::Waiting => None,
        }
    }
}

/// Reduces an ended process to its pid, its reason and its value.
fn settle(state: &mut EntryState)
    ensures same { process_in state.new ≡ process_in state.old }
    ensures settled { IsSettled state.new }
{
    if let EntryState::Living(process) = state
        && let Some((reason, value)) = process.take_end()
    {
        let pid = process.pid();
        *state = EntryState::Ended { pid, reason, value };
    }
}

impl ProcessEntry {
    /// The entry of a process. Where memory is refused there is none.
    pub fn new(alloc: Global, process: Process) -> Result<ProcessEntry, AllocError>
        ensures { IfOk result (λ entry. entry ≡ process) }
    {
        let mut state = EntryState::Living(Box::new(alloc, process)?);
        settle(&mut state);
        Ok(ProcessEntry { state })
    }

    /// Makes a change of a process that hasn't ended, and answers the result of the change.
    pub fn change<T, F: FnOnce(&mut Process) -> T>(&mut self, change: F) -> T
        requires lives { is_ended self.old.status ≡ false }
        requires callable { FnOnceTakesAtMut F.FnOnce change self.old }
        ensures { FnOnceReturnsAtMut F.FnOnce change self.old result self.new }
    {
        let result = match &mut self.state {
            EntryState::Living(process) => change(process),
            EntryState::Ended { .. } => unreachable!(),
        };
        settle(&mut self.state);
        result
    }

    /// The process, if it hasn't ended.
    pub fn living(&self) -> Option<&Process>
        ensures { option_copied result ≡ (if is_ended self.now.status then None else Some self.now) }
    {
        match &self.state {
            EntryState::Living(process) if !process.is_ended() => Some(process),
            _ => None,
        }
    }

    /// The reason and the value, if it has ended.
    pub fn end(&self) -> Option<(&Term, &Term)>
        ensures { option_map (λ end. (end.0.now, end.1.now)) result ≡ end_of self.now.status }
    {
        match &self.state {
            EntryState::Living(process) => match process.status() {
                Status::Ended { reason, value } => Some((reason, value)),
                Status::Running | Status::Waiting => None,
            },
            EntryState::Ended { reason, value, .. } => Some((reason, value)),
        }
    }

    /// Its number.
    pub fn pid(&self) -> u32
        ensures { result ≡ self.now.pid }
    {
        match &self.state {
            EntryState::Living(process) => process.pid(),
            EntryState::Ended { pid, .. } => *pid,
        }
    }

    /// The name under which it is registered.
    pub fn name(&self) -> Option<&Atom>
        ensures { option_copied result ≡ self.now.name }
    {
        match &self.state {
            EntryState::Living(process) => process.name(),
            EntryState::Ended { .. } => None,
        }
    }

    /// Whether it runs.
    pub fn is_running(&self) -> bool
        ensures { result ≡ is_running self.now.status }
    {
        match &self.state {
            EntryState::Living(process) => process.is_running(),
            EntryState::Ended { .. } => false,
        }
    }

    /// Whether it waits for a message.
    pub fn is_waiting(&self) -> bool
        ensures { result ≡ is_waiting self.now.status }
    {
        match &self.state {
            EntryState::Living(process) => process.is_waiting(),
            EntryState::Ended { .. } => false,
        }
    }

    /// Whether it has ended.
    pub fn is_ended(&self) -> bool
        ensures { result ≡ is_ended self.now.status }
    {
        match &self.state {
            EntryState::Living(process) => process.is_ended(),
            EntryState::Ended { .. } => true,
        }
    }

    /// When it goes on without a message.
    pub fn deadline(&self) -> Option<Deadline>
        ensures { result ≡ self.now.deadline }
    {
        match &self.state {
            EntryState::Living(process) => process.deadline(),
            EntryState::Ended { .. } => None,
        }
    }

    /// Whether a signal is in transit to it.
    pub fn has_transit(&self) -> bool
        ensures { result ≡ not (length self.now.transit == 0) }
    {
        match &self.state {
            EntryState::Living(process) => process.has_transit(),
            EntryState::Ended { .. } => false,
        }
    }

    /// Whether it goes on, returns or catches in an instance of that number. It takes no memory.
    pub fn lingers(&self, number: u32) -> bool
        ensures { result ≡ lingers number self.now }
    {
        match &self.state {
            EntryState::Living(process) => process.lingers(number),
            EntryState::Ended { .. } => false,
        }
    }

    /// Whether it goes on, returns or catches in an instance of one of those numbers, however many they are. It takes no memory.
    pub fn lingers_in_any(&self, numbers: &IndexSet<u32>) -> bool
        ensures { result ≡ list_any (λ n. lingers n self.now) numbers.now.keys }
    {
        match &self.state {
            EntryState::Living(process) => process.lingers_in_any(numbers),
            EntryState::Ended { .. } => false,
        }
    }

    /// Whether it monitors the process of a number. It takes no memory.
    pub fn monitors_process(&self, number: u32) -> bool
        ensures { result ≡ list_any (monitors_process number) self.now.monitors }
    {
        match &self.state {
            EntryState::Living(process) => process.monitors_process(number),
            EntryState::Ended { .. } => false,
        }
    }

    /// Adds a DOWN for each of its monitors of the process of a number, which ends, in the order of the references. Memory is refused only
    /// where it has such a monitor.
    pub fn downs(&self, number: u32, reason: &Term, sent: &mut Vec<Sent>) -> Result<(), AllocError>
        ensures ok { OnOk result (sent.new.items ≡ sent.old.items ++ downs_to number reason.now self.now) }
        ensures quiet { list_any (monitors_process number) self.now.monitors ≡ false → OnErr result ⊥ }
    {
        match &self.state {
            EntryState::Living(process) => process.downs(number, reason, sent),
            EntryState::Ended { .. } => Ok(()),
        }
    }
}
