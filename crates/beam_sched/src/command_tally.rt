//! How many changes of code were done and refused, and how often memory was refused, for those who look at a node.

use beam_debug::outcome::Outcome;
use beam_image::Image;
use beam_machine::debug::DebugEvent;
use beam_machine::event::{Event, Refused};
use beam_receipts::refusal::Refusal;
use std::sync::atomic::{AtomicU64, Ordering};

/// A change of code, by its command.
#[derive(Clone, Copy, Debug, PartialEq, Eq)]
pub enum CodeChange {
    Load,
    Purge,
    SoftPurge,
    Delete,
    Atomic,
}

/// How many changes of one kind were done, and how many refused. Both only grow.
#[derive(Clone, Copy, Debug)]
pub struct ChangeCount {
    pub done: u64,
    pub refused: u64,
}

/// The counts of one kind of change.
#[derive(Drop)]
struct ChangeTally {
    done: AtomicU64,
    refused: AtomicU64,
}

impl ChangeTally {
    fn new() -> ChangeTally {
        ChangeTally {
            done: AtomicU64::new(0),
            refused: AtomicU64::new(0),
        }
    }

    fn note(&self, is_done: bool) {
        let count = if is_done { &self.done } else { &self.refused };
        let _ = count.fetch_add(1, Ordering::SeqCst);
    }

    fn count(&self) -> ChangeCount {
        ChangeCount {
            done: self.done.load(Ordering::SeqCst),
            refused: self.refused.load(Ordering::SeqCst),
        }
    }
}

/// The changes of code that commands asked for, and the refusals of memory.
#[derive(Drop)]
pub struct CommandTally {
    load: ChangeTally,
    purge: ChangeTally,
    soft_purge: ChangeTally,
    delete: ChangeTally,
    atomic: ChangeTally,
    memory_refusals: AtomicU64,
}

/// The change of code that an event is, if it is one.
pub(crate) fn code_change(event: &DebugEvent<Image>) -> Option<CodeChange> {
    match event {
        DebugEvent::Node(Event::Load(_) | Event::LoadStrict(_)) => Some(CodeChange::Load),
        DebugEvent::Node(Event::AtomicLoad { .. }) => Some(CodeChange::Atomic),
        DebugEvent::Node(Event::Delete(_)) => Some(CodeChange::Delete),
        DebugEvent::Node(Event::SoftPurge(_)) => Some(CodeChange::SoftPurge),
        DebugEvent::Node(Event::Purge(_)) => Some(CodeChange::Purge),
        _ => None,
    }
}

impl CommandTally {
    /// Nothing was done and nothing refused.
    pub(crate) fn new() -> CommandTally {
        CommandTally {
            load: ChangeTally::new(),
            purge: ChangeTally::new(),
            soft_purge: ChangeTally::new(),
            delete: ChangeTally::new(),
            atomic: ChangeTally::new(),
            memory_refusals: AtomicU64::new(0),
        }
    }

    fn of(&self, change: CodeChange) -> &ChangeTally {
        match change {
            CodeChange::Load => &self.load,
            CodeChange::Purge => &self.purge,
            CodeChange::SoftPurge => &self.soft_purge,
            CodeChange::Delete => &self.delete,
            CodeChange::Atomic => &self.atomic,
        }
    }

    /// Notes that memory was refused.
    pub(crate) fn note_memory(&self) {
        let _ = self.memory_refusals.fetch_add(1, Ordering::SeqCst);
    }

    /// Notes the answer to a command, which may be a change of code.
    pub(crate) fn note(&self, change: Option<CodeChange>, answer: &Result<Outcome, Refusal>) {
        if let Some(change) = change {
            self.of(change).note(answer.is_ok());
        }
        if let Err(Refusal::Node(Refused::NoMemory)) = answer {
            self.note_memory();
        }
    }

    /// How many changes of a kind were done and refused.
    pub fn changes(&self, change: CodeChange) -> ChangeCount {
        self.of(change).count()
    }

    /// How often memory was refused to a command or to a process.
    pub fn memory_refusals(&self) -> u64 {
        self.memory_refusals.load(Ordering::SeqCst)
    }
}
