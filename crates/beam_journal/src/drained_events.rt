//! The events of entries that have left memory, as a value that exists in proofs alone.
ghost use Rattle.std.specs.Prelude.{◌≡◌, List};
ghost use base.Fml.{ftrue};
ghost use Rattle.std.specs.Coded.{codes};
ghost use Rattle.beam_machine.specs.Journal.{SentEvent};
ghost use Rattle.beam_term.specs.Coding.{term_code};

use crate::entry::Entry;
use std::marker::Model;

/// Entries that leave memory.
#[derive(Clone, Copy, Drop)]
pub(crate) struct Leaving<'a> {
    pub entries: &'a [Entry],
}

/// The events of all entries that have left memory, in their order. No bytes at run time: only contracts see it.
#[derive(Drop)]
pub(crate) struct DrainedEvents {
    pub(crate) ghost events: { List SentEvent } by { Prim.hlevel (codes, term_code) },
}

impl Model for DrainedEvents {
    ghost also_owns = { λ _. ftrue };
}

impl DrainedEvents {
    ghost use Rattle.beam_journal.specs.Drained.{after_drain, none_drained};

    /// No entry has left memory.
    pub(crate) fn new() -> DrainedEvents
        ensures { result ≡ none_drained }
    {
        DrainedEvents {}
    }

    /// These entries leave memory too.
    #[inline(always)]
    pub(crate) fn after(&self, _leaving: &Leaving<'_>) -> DrainedEvents
        ensures { result ≡ after_drain self.now _leaving.now }
    {
        DrainedEvents {}
    }
}
