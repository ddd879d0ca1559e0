//! How many entries of each kind a journal has.
ghost use Rattle.std.specs.Prelude.{◌≡◌, ◌-◌, ◌<◌, ◌^◌};
ghost use Rattle.beam_journal.specs.Counts.{kind_of, no_entries, one_more, total};

use beam_image::Image;
use beam_machine::debug::DebugEvent;
use beam_machine::event::Event;

/// What an entry is for.
#[derive(Clone, Copy, Debug, PartialEq, Eq)]
pub enum EntryKind {
    /// Rows of a process: `Steps`.
    Slice,
    /// Signals that arrive: `Deliver`.
    Delivery,
    /// A moment of the clock: `Clock`.
    Moment,
    /// The end of a wait: `Timeout`.
    Timeout,
    /// Any other event, which somebody asked for.
    Command,
}

/// How many entries of each kind there are.
#[derive(Clone, Copy, Debug)]
pub struct EntryCounts {
    pub slices: u64,
    pub deliveries: u64,
    pub moments: u64,
    pub timeouts: u64,
    pub commands: u64,
}

/// What the entry of an event is for.
pub(crate) fn kind_of(event: &DebugEvent<Image>) -> EntryKind
    ensures { result ≡ kind_of event.now }
{
    match event {
        DebugEvent::Node(Event::Steps { .. }) => EntryKind::Slice,
        DebugEvent::Node(Event::Deliver { .. }) => EntryKind::Delivery,
        DebugEvent::Node(Event::Clock { .. }) => EntryKind::Moment,
        DebugEvent::Node(Event::Timeout { .. }) => EntryKind::Timeout,
        _ => EntryKind::Command,
    }
}

impl EntryCounts {
    /// There are none.
    pub(crate) fn none() -> EntryCounts
        ensures { result ≡ no_entries }
    {
        EntryCounts {
            slices: 0,
            deliveries: 0,
            moments: 0,
            timeouts: 0,
            commands: 0,
        }
    }

    /// There is one more of a kind.
    pub(crate) fn with(self, kind: EntryKind) -> EntryCounts
        requires { total self < 2 ^ 64 - 1 }
        ensures { result ≡ one_more self kind }
    {
        let mut counts = self;
        match kind {
            EntryKind::Slice => counts.slices += 1,
            EntryKind::Delivery => counts.deliveries += 1,
            EntryKind::Moment => counts.moments += 1,
            EntryKind::Timeout => counts.timeouts += 1,
            EntryKind::Command => counts.commands += 1,
        }
        counts
    }
}
