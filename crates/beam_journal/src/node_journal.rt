//! The journal of a node, of which entries can leave memory.
ghost use Rattle.std.specs.Prelude.{◌≡◌, ◌≢◌, ◌⊎◌, ◌+◌, ◌-◌, ◌^◌, ◌<◌, ◌≤◌, ◌↔◌, [], ◌∷◌, ◌++◌, drop, length, map, vec_capacity, Ok, IsOk, IsTrue, OnOk, OnErr, IfOk, IfErr, IsErrOf};
ghost use Rattle.beam_machine.specs.DebugRun.{debug_after};
ghost use Rattle.beam_machine.specs.Journal.{IsLawful, replay, sent_event_of};
ghost use Rattle.beam_debug.specs.Answers.{reply_of};
ghost use Rattle.beam_journal.specs.Counts.{counts_of};
ghost use Rattle.beam_journal.specs.Entering.{Accepts, entry_of, in_memory, most_entries};

use crate::cut::cut_event;
use crate::drained_events::{DrainedEvents, Leaving};
use crate::entry::Entry;
use crate::entry_counts::{EntryCounts, kind_of};
use crate::error::JournalError;
use crate::journal::Journal;
use beam_debug::outcome::Outcome;
use beam_image::Image;
use beam_machine::debug::DebugEvent;
use std::alloc::{AllocError, Global};
use std::marker::Model;
use std::mem;

/// How many entries can have left memory at most.
const MOST_DRAINED: u64 = 1 << 63;

/// The events that a node accepted, in their order, with its replies: running them from the empty node refuses none and gives these
/// replies. The first ones can leave memory; contracts see all.
pub struct NodeJournal {
    alloc: Global,
    gone: DrainedEvents,
    /// How many entries have left memory.
    drained: u64,
    /// The entries in memory.
    entries: Vec<Entry>,
    /// How many entries can be in memory.
    limit: u32,
    /// How many entries of each kind there are, with those that have left memory.
    counts: EntryCounts,
}

impl Drop for NodeJournal {
    fn drop(self) {
        let NodeJournal {
            alloc: _alloc,
            gone: _gone,
            drained: _drained,
            entries: _entries,
            limit: _limit,
            counts: _counts,
        } = self;
    }
}

impl Model for NodeJournal {
    ghost use Rattle.std.specs.Prelude.{◌≡◌, ◌-◌, ◌^◌, ◌≤◌, ◌++◌, length, vec_len, vec_capacity};
    ghost use Rattle.std.specs.Coded.{codes};
    ghost use Rattle.beam_term.specs.Coding.{term_code};
    ghost use Rattle.beam_machine.specs.Journal.{IsLawful};
    ghost use Rattle.beam_journal.specs.Counts.{counts_of};
    ghost use Rattle.beam_journal.specs.Entering.{NodeJournal as TheJournal, entries_of, most_entries};

    ghost Value = { TheJournal };

    ghost coded = { Prim.hlevel (codes, term_code) };

    ghost view = { λ j. record {
      entries = entries_of (j.gone.events ++ j.entries.items);
      drained = j.drained;
      capacity = vec_capacity j.entries - vec_len j.entries;
      limit = j.limit;
    } };

    ghost invariant = { λ j. IsLawful (entries_of (j.gone.events ++ j.entries.items)) × (vec_len j.entries ≤ j.limit) × (j.limit ≤ most_entries)
        × (j.drained ≡ length j.gone.events) × (j.drained ≤ 2 ^ 63) × (j.counts ≡ counts_of (j.gone.events ++ j.entries.items)) };
}

impl NodeJournal {
    /// A journal with no entries, of which `limit` can be in memory, at most 16,777,216. It takes no memory.
    pub fn with_limit(alloc: Global, limit: u32) -> NodeJournal
        requires { limit ≤ most_entries }
        ensures { result ≡ record { entries = []; drained = 0; capacity = 0; limit = limit } }
    {
        NodeJournal {
            alloc,
            gone: DrainedEvents::new(),
            drained: 0,
            entries: Vec::new(alloc),
            limit,
            counts: EntryCounts::none(),
        }
    }

    /// How many entries can be in memory.
    pub fn limit(&self) -> u32
        ensures is { result ≡ self.now.limit }
        ensures most { result ≤ most_entries }
    {
        self.limit
    }

    /// How many entries have left memory.
    #[tactic(auto, using(crate::proofs::DrainedEntries::few_drained))]
    pub fn drained(&self) -> u64
        ensures is { result ≡ self.now.drained }
        ensures few { self.now.drained ≤ length self.now.entries }
    {
        self.drained
    }

    /// How many entries are in memory.
    #[tactic(auto, using(crate::proofs::DrainedEntries::count_in_memory))]
    pub fn in_memory(&self) -> u32
        ensures is { result ≡ in_memory self.now.entries self.now.drained }
        ensures few { result ≤ self.now.limit }
    {
        self.entries.len() as u32
    }

    /// How many entries it has.
    #[tactic(auto, using(crate::proofs::DrainedEntries::count_all))]
    pub fn len(&self) -> u64
        ensures count { result ≡ length self.now.entries }
        ensures few { length self.now.entries ≤ 2 ^ 63 + most_entries }
    {
        self.drained + self.entries.len() as u64
    }

    /// How many entries of each kind it has, with those that have left memory.
    #[tactic(auto, using(crate::proofs::Counts::counts_all))]
    pub fn counts(&self) -> EntryCounts
        ensures { result ≡ counts_of (map sent_event_of self.now.entries) }
    {
        self.counts
    }

    /// Whether it has no entries.
    #[tactic(auto, using(crate::proofs::DrainedEntries::none_entered))]
    pub fn is_empty(&self) -> bool
        ensures { IsTrue result ↔ (self.now.entries ≡ []) }
    {
        self.drained == 0 && self.entries.is_empty()
    }

    /// Whether as many entries are in memory as can be.
    #[tactic(auto, using(crate::proofs::DrainedEntries::count_in_memory))]
    pub fn is_full(&self) -> bool
        ensures { IsTrue result ↔ (in_memory self.now.entries self.now.drained ≡ self.now.limit) }
    {
        self.entries.len() == self.limit as usize
    }

    /// The entries in memory, in their order, without the replies.
    #[tactic(auto, using(crate::proofs::DrainedEntries::those_in_memory))]
    pub fn entries(&self) -> &[Entry]
        ensures value { result.now ≡ drop self.now.drained (map sent_event_of self.now.entries) }
        ensures lawful { IsLawful self.now.entries }
    {
        &self.entries
    }

    /// Reserves memory for `count` more entries, which can then be entered without any. If memory is refused nothing changes; it isn't
    /// refused if the capacity is there.
    pub fn reserve(&mut self, count: u32) -> Result<(), AllocError>
        ensures capacity { OnOk result (count ≤ self.new.capacity) }
        ensures kept { self.old.capacity ≤ self.new.capacity }
        ensures entries { self.new.entries ≡ self.old.entries }
        ensures drained { self.new.drained ≡ self.old.drained }
        ensures limit { self.new.limit ≡ self.old.limit }
        ensures there { count ≤ self.old.capacity → IsOk result }
        ensures err { OnErr result (self.new ≡ self.old) }
    {
        self.entries.reserve(count as usize)
    }

    /// Enters an event after the others, with the number of the seat that sent it, or none, and with the reply: the node accepts the event
    /// with this reply in the state to which the journal leads. A `Steps` that was cut is entered with the rows that were executed.
    /// `JournalFull` where as many entries are in memory as can be; `NoMemory` only where no capacity is left. A refusal changes nothing,
    /// and the event is dropped.
    #[tactic(auto, using(crate::proofs::Replayed::lawful_more, crate::proofs::Replayed::replay_more, crate::proofs::DrainedEntries::one_more, crate::proofs::DrainedEntries::count_in_memory, crate::proofs::Counts::one_more_counted, crate::proofs::Counts::few_counted))]
    pub fn push(
        &mut self,
        event: DebugEvent<Image>,
        seat: Option<u32>,
        reply: &Outcome,
    ) -> Result<(), JournalError>
        requires accepted { Accepts (replay self.old.entries) event (reply_of reply.now) }
        ensures entered { OnOk result (self.new.entries ≡ self.old.entries ++ entry_of event seat (reply_of reply.now) ∷ []) }
        ensures leads { OnOk result (replay self.new.entries ≡ debug_after (replay self.old.entries) event (Ok (reply_of reply.now))) }
        // One place of the capacity is taken, if there was any.
        ensures capacity { OnOk result (self.old.capacity ≤ self.new.capacity + 1) }
        ensures drained { self.new.drained ≡ self.old.drained }
        ensures limit { self.new.limit ≡ self.old.limit }
        ensures full { IsErrOf result JournalError.JournalFull ↔ (in_memory self.old.entries self.old.drained ≡ self.old.limit) }
        ensures memory { IsErrOf result JournalError.NoMemory → self.old.capacity ≡ 0 }
        ensures err { OnErr result (self.new ≡ self.old) }
    {
        if self.entries.len() == self.limit as usize {
            return Err(JournalError::JournalFull);
        }
        self.entries.reserve(1)?;
        let event = cut_event(event, reply);
        self.counts = self.counts.with(kind_of(&event));
        self.entries.push_reserved(Entry::new(event, seat));
        Ok(())
    }

    /// The entries that are in memory leave it, for a list without entries, whose room is then there for the next ones. No entry is copied
    /// or dropped. The list comes back where it has entries, or 2^63 entries would have left memory: then nothing changes.
    #[tactic(auto, using(crate::proofs::DrainedEntries::those_in_memory, crate::proofs::DrainedEntries::all_drained))]
    pub fn drain(&mut self, room: Vec<Entry>) -> Result<Vec<Entry>, Vec<Entry>>
        ensures entries { IfOk result (λ left. left.items ≡ drop self.old.drained (map sent_event_of self.old.entries)) }
        ensures journal { OnOk result (self.new ≡ record { entries = self.old.entries; drained = length self.old.entries; capacity = vec_capacity room; limit = self.old.limit }) }
        ensures refused { OnErr result ((length room.items ≢ 0) ⊎ (2 ^ 63 < length self.old.entries)) }
        ensures back { IfErr result (λ back. back ≡ room) }
        ensures err { OnErr result (self.new ≡ self.old) }
    {
        let count = self.len();
        if room.len() != 0 || count > MOST_DRAINED {
            return Err(room);
        }
        self.gone = self.gone.after(&Leaving {
            entries: &self.entries,
        });
        self.drained = count;
        Ok(mem::replace(&mut self.entries, room))
    }

    /// The journal, if no entry has left memory.
    #[tactic(auto, using(crate::proofs::DrainedEntries::none_gone))]
    pub fn into_whole(self) -> Result<Journal, NodeJournal>
        ensures whole { IfOk result (λ journal. (journal.entries ≡ self.entries) × (journal.limit ≡ self.limit)) }
        ensures back { IfErr result (λ back. (back ≡ self) × (self.drained ≢ 0)) }
    {
        if self.drained != 0 {
            return Err(self);
        }
        let NodeJournal {
            alloc,
            gone: _gone,
            drained: _drained,
            entries,
            limit,
            counts: _counts,
        } = self;
        Ok(Journal::of_entries(alloc, entries, limit))
    }
}
