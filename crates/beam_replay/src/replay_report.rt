//! What the entries of a journal are, and where its file ends.

use beam_image::Image;
use beam_journal::entry::Entry;
use beam_journal_file::TornEnd;
use beam_machine::debug::DebugEvent;
use beam_machine::event::Event;
use beam_receipts::brand::NodeBrand;
use beam_shared::node::Node;
use std::fmt;
use std::fmt::{Display, Formatter};

/// The names of the kinds of events, in the order of their commands.
const KINDS: [&str; 18] = [
    "Load",
    "LoadStrict",
    "Delete",
    "SoftPurge",
    "Purge",
    "Spawn",
    "Send",
    "Steps",
    "Deliver",
    "Clock",
    "Timeout",
    "SetBreak",
    "ClearBreak",
    "Resume",
    "StepOne",
    "Inspect",
    "Versions",
    "AtomicLoad",
];

/// The place of an event's kind in the list of their names.
fn kind_of(event: &DebugEvent<Image>) -> usize {
    match event {
        DebugEvent::Node(event) => match event {
            Event::Load(_) => 0,
            Event::LoadStrict(_) => 1,
            Event::Delete(_) => 2,
            Event::SoftPurge(_) => 3,
            Event::Purge(_) => 4,
            Event::Spawn { .. } => 5,
            Event::Send { .. } => 6,
            Event::Steps { .. } => 7,
            Event::Deliver { .. } => 8,
            Event::Clock { .. } => 9,
            Event::Timeout { .. } => 10,
            Event::Versions(_) => 16,
            Event::AtomicLoad { .. } => 17,
        },
        DebugEvent::SetBreak(_) => 11,
        DebugEvent::ClearBreak(_) => 12,
        DebugEvent::Resume { .. } => 13,
        DebugEvent::StepOne { .. } => 14,
        DebugEvent::Inspect { .. } => 15,
    }
}

/// How many entries of each kind there are.
#[derive(Clone, Copy)]
pub(crate) struct EntryCounts {
    kinds: [u64; 18],
}

impl EntryCounts {
    /// The counts of no entries.
    pub(crate) fn none() -> EntryCounts {
        EntryCounts { kinds: [0; 18] }
    }

    /// Counts these entries too.
    pub(crate) fn add(&mut self, entries: &[Entry]) {
        for entry in entries {
            if let Some(count) = self.kinds.get_mut(kind_of(entry.event())) {
                *count = count.saturating_add(1);
            }
        }
    }
}

/// How many entries of each kind a journal has, and the state to which they lead.
#[derive(Clone, Copy)]
pub(crate) struct ReplayReport {
    entries: u64,
    counts: EntryCounts,
    seats: usize,
    /// In milliseconds.
    clock: u64,
    started: u32,
    ended: u32,
    torn: Option<TornEnd>,
}

/// How many processes were started, and how many have ended.
fn processes_of<B: NodeBrand>(node: &Node<B>) -> (u32, u32) {
    let (mut started, mut ended) = (0u32, 0u32);
    for pid in 1..=u32::MAX {
        let Some(process) = node.debugger().process(pid) else {
            break;
        };
        started = pid;
        if process.is_ended() {
            ended = ended.saturating_add(1);
        }
    }
    (started, ended)
}

impl ReplayReport {
    /// The report of a node that entered the entries of a file, of which there are this many of each kind, with its count of seats, and of
    /// the file's torn end, if it has one.
    pub(crate) fn of<B: NodeBrand>(
        node: &Node<B>,
        counts: EntryCounts,
        seats: usize,
        torn: Option<TornEnd>,
    ) -> ReplayReport {
        let (started, ended) = processes_of(node);
        ReplayReport {
            entries: node.entered(),
            counts,
            seats,
            clock: node.debugger().core().clock(),
            started,
            ended,
            torn,
        }
    }
}

impl Display for ReplayReport {
    fn fmt<W: fmt::Write>(&self, f: &mut Formatter<W>) -> fmt::Result {
        writeln!(f, "entries: {}", self.entries)?;
        for (name, count) in KINDS.iter().zip(self.counts.kinds.iter()) {
            if *count > 0 {
                writeln!(f, "  {name}: {count}")?;
            }
        }
        writeln!(f, "seats: {}", self.seats)?;
        writeln!(f, "clock: {} ms", self.clock)?;
        writeln!(
            f,
            "processes: {}, {} of them ended",
            self.started, self.ended
        )?;
        match self.torn {
            None => Ok(()),
            Some(TornEnd { at, bytes }) => writeln!(f, "CutJournal at byte {at}: {bytes} bytes"),
        }
    }
}
