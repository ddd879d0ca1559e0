//! The journal.
ghost use Rattle.std.specs.Prelude.{◌≡◌, ◌+◌, ◌<◌, ◌≤◌, ◌↔◌, [], ◌∷◌, ◌++◌, length, map, true, Ok, IsOk, IsTrue, OnOk, OnErr, IfOk, IfErr, IsErrOf};
ghost use Rattle.beam_machine.specs.Debug.{undisturbed};
ghost use Rattle.beam_machine.specs.DebugRun.{debug_after};
ghost use Rattle.beam_machine.specs.Journal.{IsLawful, replay, sent_event_of};
ghost use Rattle.beam_machine.specs.State.{empty};
ghost use Rattle.beam_debug.specs.Answers.{reply_of};
ghost use Rattle.beam_journal.specs.Entering.{Accepts, entries_of, entry_of, most_entries, takes_memory};

use crate::cut::cut_event;
use crate::entry::Entry;
use crate::error::JournalError;
use crate::replay::replayed;
use beam_debug::debugger::Debugger;
use beam_debug::outcome::Outcome;
use beam_image::Image;
use beam_machine::debug::DebugEvent;
use beam_machine::event::Refused;
use std::alloc::{AllocError, Global};
use std::marker::Model;

/// How many entries a journal can have at most.
pub const MOST_ENTRIES: u32 = 16_777_216;

/// The events that a node accepted, in their order, with its replies: running them from the empty node refuses none and gives these
/// replies.
pub struct Journal {
    alloc: Global,
    entries: Vec<Entry>,
    /// How many entries it can have.
    limit: u32,
}

impl Drop for Journal {
    fn drop(self) {
        let Journal {
            alloc: _alloc,
            entries: _entries,
            limit: _limit,
        } = self;
    }
}

impl Model for Journal {
    ghost use Rattle.std.specs.Prelude.{◌-◌, ◌≤◌, vec_len, vec_capacity};
    ghost use Rattle.std.specs.Coded.{codes};
    ghost use Rattle.beam_term.specs.Coding.{term_code};
    ghost use Rattle.beam_machine.specs.Journal.{IsLawful};
    ghost use Rattle.beam_journal.specs.Entering.{Journal as TheJournal, entries_of, most_entries};

    ghost Value = { TheJournal };

    ghost coded = { Prim.hlevel (codes, term_code) };

    ghost view = { λ j. record { entries = entries_of j.entries.items; capacity = vec_capacity j.entries - vec_len j.entries; limit = j.limit } };

    ghost invariant = { λ j. IsLawful (entries_of j.entries.items) × (vec_len j.entries ≤ j.limit) × (j.limit ≤ most_entries) };
}

impl Journal {
    /// A journal with no entries, which can have 16,777,216. It takes no memory.
    pub fn new(alloc: Global) -> Journal
        ensures { result ≡ record { entries = []; capacity = 0; limit = most_entries } }
    {
        Journal::with_limit(alloc, MOST_ENTRIES)
    }

    /// A journal with no entries, which can have `limit` of them, at most 16,777,216. It takes no memory.
    pub fn with_limit(alloc: Global, limit: u32) -> Journal
        requires { limit ≤ most_entries }
        ensures { result ≡ record { entries = []; capacity = 0; limit = limit } }
    {
        Journal {
            alloc,
            entries: Vec::new(alloc),
            limit,
        }
    }

    /// The journal of these entries.
    pub(crate) fn of_entries(alloc: Global, entries: Vec<Entry>, limit: u32) -> Journal
        requires lawful { IsLawful (entries_of entries.items) }
        requires few { (length entries.items ≤ limit) × (limit ≤ most_entries) }
        ensures { (result.entries ≡ entries_of entries.items) × (result.limit ≡ limit) }
    {
        Journal {
            alloc,
            entries,
            limit,
        }
    }

    /// How many entries it can have.
    pub fn limit(&self) -> u32
        ensures is { result ≡ self.now.limit }
        ensures most { result ≤ most_entries }
    {
        self.limit
    }

    /// How many entries it has.
    #[tactic(auto, using(crate::proofs::Replayed::length_entries))]
    pub fn len(&self) -> usize
        ensures count { result ≡ length self.now.entries }
        ensures few { length self.now.entries ≤ self.now.limit }
        ensures fewer { length self.now.entries ≤ most_entries }
    {
        self.entries.len()
    }

    /// Whether it has no entries.
    #[tactic(auto, using(crate::proofs::Replayed::none_entered))]
    pub fn is_empty(&self) -> bool
        ensures { IsTrue result ↔ (self.now.entries ≡ []) }
    {
        self.entries.is_empty()
    }

    /// Whether it has as many entries as it can have.
    #[tactic(auto, using(crate::proofs::Replayed::length_entries))]
    pub fn is_full(&self) -> bool
        ensures { IsTrue result ↔ (length self.now.entries ≡ self.now.limit) }
    {
        self.entries.len() == self.limit as usize
    }

    /// The entries, in their order, without the replies. Running the events from the empty node refuses none and gives the replies.
    #[tactic(auto, using(crate::proofs::Replayed::sendings))]
    pub fn entries(&self) -> &[Entry]
        ensures value { result.now ≡ map sent_event_of self.now.entries }
        ensures lawful { IsLawful self.now.entries }
    {
        &self.entries
    }

    /// Reserves memory for `count` more entries, which can then be entered without any. If memory is refused nothing changes; it isn't
    /// refused if the capacity is there.
    pub fn reserve(&mut self, count: u32) -> Result<(), AllocError>
        ensures capacity { OnOk result (count ≤ self.new.capacity) }
        ensures kept { self.old.capacity ≤ self.new.capacity }
        ensures entries { self.new.entries ≡ self.old.entries }
        ensures limit { self.new.limit ≡ self.old.limit }
        ensures there { count ≤ self.old.capacity → IsOk result }
        ensures err { OnErr result (self.new ≡ self.old) }
    {
        self.entries.reserve(count as usize)
    }

    /// Enters an event after the others, with the number of the seat that sent it, or none, and with the reply: the node accepts the event
    /// with this reply in the state to which the journal leads. A `Steps` that was cut is entered with the rows that were executed.
    /// `JournalFull` where the journal has as many entries as it can have; `NoMemory` only where no capacity is left. A refusal changes
    /// nothing, and the event is dropped.
    #[tactic(auto, using(crate::proofs::Replayed::lawful_more, crate::proofs::Replayed::replay_more, crate::proofs::Replayed::entries_more, crate::proofs::Replayed::length_entries))]
    pub fn push(
        &mut self,
        event: DebugEvent<Image>,
        seat: Option<u32>,
        reply: &Outcome,
    ) -> Result<(), JournalError>
        requires accepted { Accepts (replay self.old.entries) event (reply_of reply.now) }
        ensures entered { OnOk result (self.new.entries ≡ self.old.entries ++ entry_of event seat (reply_of reply.now) ∷ []) }
        ensures leads { OnOk result (replay self.new.entries ≡ debug_after (replay self.old.entries) event (Ok (reply_of reply.now))) }
        // One place of the capacity is taken, if there was any.
        ensures capacity { OnOk result (self.old.capacity ≤ self.new.capacity + 1) }
        ensures limit { self.new.limit ≡ self.old.limit }
        ensures full { IsErrOf result JournalError.JournalFull ↔ (length self.old.entries ≡ self.old.limit) }
        ensures memory { IsErrOf result JournalError.NoMemory → self.old.capacity ≡ 0 }
        ensures err { OnErr result (self.new ≡ self.old) }
    {
        if self.entries.len() == self.limit as usize {
            return Err(JournalError::JournalFull);
        }
        self.entries.reserve(1)?;
        let event = cut_event(event, reply);
        self.entries.push_reserved(Entry::new(event, seat));
        Ok(())
    }

    /// The node to which the entries' events lead, run from the empty node on. `NoMemory` is the only refusal: memory may be refused if one
    /// of the events may take some where it stands.
    pub fn replay(&self) -> Result<Debugger, Refused>
        ensures state { IfOk result (λ node. node.state ≡ replay self.now.entries) }
        ensures refused { IfErr result (λ refused. refused ≡ Refused.NoMemory) }
        ensures memory { OnErr result (takes_memory (undisturbed empty) (map (λ e. e.event) self.now.entries) ≡ true) }
    {
        match replayed(self.alloc, &self.entries) {
            Ok(node) => Ok(node),
            // Where an event that is stored may take memory, so may the event of its entry.
            Err(refused) => Err(refused),
        }
    }
}
