//! Recorded events in a journal's file.
ghost use Rattle.beam_journal_file.specs.JournalRead.{gives};

use crate::recorded::RecordedEvents;
use beam_block_file::Shelf;
use beam_journal_file::{JournalReader, ReadFailed};
use beam_records::SentEvent;
use std::alloc::Global;

/// The entries of a journal's file, from the one on that its reader gives next.
impl<S: Shelf + Drop> RecordedEvents for JournalReader<S> {
    type Fault = ReadFailed;

    ghost next_gives = { gives };

    fn next(&mut self, alloc: Global) -> Result<Option<SentEvent>, ReadFailed> {
        JournalReader::next(self, alloc)
    }
}
