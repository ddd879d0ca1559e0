//! Where recorded events come from.
ghost use Rattle.std.specs.Prelude.{◌≡◌, Option, IfOk};
ghost use Rattle.beam_machine.specs.Journal.{SentEvent as Sent};

use beam_records::SentEvent;
use std::alloc::Global;

/// Where recorded events come from, as a file does.
pub trait RecordedEvents {
    /// Why there is no next event, where there should be one.
    type Fault;

    // The first state gives this event next, or none if it has no more, and is left as the second.
    ghost next_gives: { Self → Option Sent → Self → Type 0 };

    /// Gives the next event; `None` where all were given.
    fn next(&mut self, alloc: Global) -> Result<Option<SentEvent>, Self::Fault>
        ensures { IfOk result (λ next. next_gives self.old next self.new) };
}
