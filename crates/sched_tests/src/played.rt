//! The outcome of a scenario: the journal, and the state to which it has to lead.

use crate::barrier_gate::GateReport;
use beam_image::Image;
use beam_journal::journal::Journal;
use beam_machine::debug::DebugEvent;
use beam_machine::event::Event;
use node_testing::views::text_of;
use std::alloc::Global;
use std::test::Fail;

/// A node that was closed.
pub struct ClosedNode {
    pub journal: Journal,
    /// What workers reported to the gate.
    pub report: GateReport,
    /// The first process that runs in the end or has a signal in transit, if there is one.
    pub ready: Option<u32>,
    /// The views of its processes from 1 to `ends`, as text.
    pub text: Vec<u8>,
    /// How many processes are inspected.
    pub ends: u32,
    /// The pids that were left in the queues.
    pub left: Vec<u32>,
}

impl Drop for ClosedNode {
    fn drop(self) {
        let ClosedNode {
            journal: _journal,
            report: _report,
            ready: _ready,
            text: _text,
            ends: _ends,
            left: _left,
        } = self;
    }
}

/// What a journal has.
#[derive(Clone, Copy)]
pub struct JournalCounts {
    /// How many entries ran rows, and how many rows these are.
    pub slices: (u32, u64),
    /// How many of them ran rows of the first process one after another, since the last one that ran rows of another process.
    pub first_since: u32,
    /// The most of them that ran rows of the first process one after another, before one that ran rows of another process.
    pub first_in_a_row: u32,
    /// How many loads come before the first rows.
    pub loads_before_rows: u32,
    /// How often the code of a module was loaded, deleted or purged.
    pub changes: u32,
    /// How many waits ended by their deadlines.
    pub timeouts: u32,
    /// How often the clock was set, and to what: the moments, one after another, as numbers of three digits.
    pub moments: (u32, u64),
}

/// The outcome of a scenario.
#[derive(Clone, Copy)]
pub struct Played {
    /// What workers reported to the gate.
    pub report: GateReport,
    /// The first process that runs in the end or has a signal in transit, if there is one.
    pub ready: Option<u32>,
    /// What its journal has.
    pub counts: JournalCounts,
    /// Whether the journal, run again, leads to the views of the processes at the end.
    pub replays: bool,
}

fn more(count: u32) -> u32 {
    count.saturating_add(1)
}

impl JournalCounts {
    /// The counts of a journal.
    pub fn of(journal: &Journal) -> JournalCounts {
        let mut counts = JournalCounts {
            slices: (0, 0),
            first_since: 0,
            first_in_a_row: 0,
            loads_before_rows: 0,
            changes: 0,
            timeouts: 0,
            moments: (0, 0),
        };
        for entry in journal.entries() {
            if let DebugEvent::Node(event) = entry.event() {
                counts.add(event);
            }
        }
        counts
    }

    fn add(&mut self, event: &Event<Image>) {
        match event {
            Event::Steps { pid, rows } => self.add_rows(*pid, u64::from(*rows)),
            Event::Load(_) => self.add_load(),
            Event::AtomicLoad { .. } | Event::Delete(_) | Event::SoftPurge(_) | Event::Purge(_) =>
                self.changes = more(self.changes),
            Event::Timeout { .. } => self.timeouts = more(self.timeouts),
            Event::Clock { now } => self.add_moment(*now),
            _ => {}
        }
    }

    fn add_rows(&mut self, pid: u32, more_rows: u64) {
        let (count, rows) = self.slices;
        self.slices = (more(count), rows.saturating_add(more_rows));
        if pid == 1 {
            self.first_since = more(self.first_since);
        } else {
            self.first_in_a_row = self.first_in_a_row.max(self.first_since);
            self.first_since = 0;
        }
    }

    fn add_load(&mut self) {
        self.changes = more(self.changes);
        if self.slices.0 == 0 {
            self.loads_before_rows = more(self.loads_before_rows);
        }
    }

    fn add_moment(&mut self, moment: u64) {
        let (count, spelled) = self.moments;
        let spelled = spelled.saturating_mul(1_000).saturating_add(moment);
        self.moments = (more(count), spelled);
    }
}

impl ClosedNode {
    /// Whether this is the text of the processes' views.
    pub fn has_text(&self, text: &str) -> bool {
        self.text.as_slice() == text.as_bytes()
    }

    /// The pids that were left in the queues.
    pub fn into_left(self) -> Vec<u32> {
        let ClosedNode {
            journal: _journal,
            report: _report,
            ready: _ready,
            text: _text,
            ends: _ends,
            left,
        } = self;
        left
    }

    fn replays(&self, alloc: Global) -> Result<bool, Fail> {
        let node = self.journal.replay()?;
        Ok(text_of(alloc, &node, self.ends)? == self.text)
    }

    /// The outcome of the scenario.
    pub fn played(&self, alloc: Global) -> Result<Played, Fail> {
        let replays = self.replays(alloc)?;
        Ok(Played {
            report: self.report,
            ready: self.ready,
            counts: JournalCounts::of(&self.journal),
            replays,
        })
    }
}
