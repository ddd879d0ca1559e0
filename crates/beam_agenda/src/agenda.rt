//! The list of entries.
ghost use Rattle.std.specs.Prelude.{◌≡◌, ◌<◌, ◌+◌, [], ◌∷◌, ◌++◌, length, slice_set, OnOk, OnErr, IfSome};
ghost use Rattle.beam_agenda.specs.First.{first_ready, least_due};

use crate::entry::AgendaEntry;
use crate::flags::Flags;
use crate::times::{Times, earlier};
use std::alloc::{AllocError, Global};
use std::marker::Model;

/// A list of entries.
pub struct Agenda {
    flags: Flags,
    times: Times,
    least: Option<u64>,
}

impl Drop for Agenda {
    fn drop(self) {
        let Agenda {
            flags: _flags,
            times: _times,
            least: _least,
        } = self;
    }
}

impl Model for Agenda {
    ghost use Rattle.std.specs.Prelude.{◌≡◌, List};
    ghost use Rattle.beam_agenda.specs.declared.entry.AgendaEntry.{AgendaEntry as TheEntry};

    ghost Value = { List TheEntry };

    ghost use Rattle.beam_agenda.specs.FlagsAndTimes.{entries_of, Covers};
    ghost use Rattle.beam_agenda.specs.Least.{least_of};

    ghost view = { λ a. entries_of a.flags a.times };

    ghost invariant = { λ a. Covers a.flags a.times × (a.least ≡ least_of a.times) };
}

impl Agenda {
    /// An empty list.
    pub fn new(alloc: Global) -> Agenda
        ensures { result ≡ [] }
    {
        Agenda {
            flags: Flags::new(alloc),
            times: Times::new(alloc),
            least: None,
        }
    }

    /// How many entries it has.
    pub fn len(&self) -> usize
        ensures { result ≡ length self.now }
    {
        self.times.len()
    }

    /// Changes an entry, in O(log n).
    pub fn set(&mut self, index: usize, entry: AgendaEntry)
        requires { index < length self.old }
        ensures { self.new ≡ slice_set self.old index entry }
    {
        self.flags.set(index, u8::from(entry.ready));
        if self.times.get(index) == entry.due {
            return;
        }
        self.times.set(index, entry.due);
        self.least = self.times.least();
    }

    /// Adds an entry at the end, in O(log n), amortized. Where memory is refused nothing changes.
    pub fn push(&mut self, entry: AgendaEntry) -> Result<(), AllocError>
        ensures ok { OnOk result (self.new ≡ self.old ++ entry ∷ []) }
        ensures err { OnErr result (self.new ≡ self.old) }
    {
        let count = self.times.len();
        self.flags.make_room(count)?;
        self.times.push(entry.due)?;
        self.least = earlier(self.least, entry.due);
        self.flags.set(count, u8::from(entry.ready));
        Ok(())
    }

    /// The first position, at `from` or after it, whose entry is ready, in O(log n).
    pub fn first_ready(&self, from: usize) -> Option<usize>
        ensures first { result ≡ first_ready from self.now }
        ensures within { IfSome result (λ n. n < length self.now) }
    {
        self.flags.first_from(from)
    }

    /// The least time at which an entry is due, and the position of the first entry that is due then, in O(log n).
    pub fn least_due(&self) -> Option<(u64, usize)>
        ensures least { result ≡ least_due self.now }
        ensures within { IfSome result (λ a. a.1 < length self.now) }
    {
        let at = self.least?;
        let position = self.times.first_due(at, 0)?;
        Some((at, position))
    }
}
