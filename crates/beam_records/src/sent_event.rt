//! An entry that isn't in a journal.
ghost use Rattle.std.specs.Prelude.{◌≡◌};

use beam_image::Image;
use beam_machine::debug::DebugEvent;
use std::marker::Model;

/// An event, and the number of the seat that sent it, or none: an entry that isn't in a journal.
pub struct SentEvent {
    pub event: DebugEvent<Image>,
    pub seat: Option<u32>,
}

impl Drop for SentEvent {
    fn drop(self) {
        let SentEvent {
            event: _event,
            seat: _seat,
        } = self;
    }
}

impl Model for SentEvent {
    ghost use Rattle.std.specs.Coded.{codes};
    ghost use Rattle.beam_term.specs.Coding.{term_code};
    ghost use Rattle.beam_machine.specs.Journal.{SentEvent};

    ghost Value = { SentEvent };

    ghost coded = { Prim.hlevel (codes, term_code) };

    ghost view = { λ s. record { event = s.event; seat = s.seat } };
}

impl SentEvent {
    /// The event, and the number of the seat that sent it, or none.
    pub fn into_parts(self) -> (DebugEvent<Image>, Option<u32>)
        ensures event { result.0 ≡ self.event }
        ensures seat { result.1 ≡ self.seat }
    {
        let SentEvent { event, seat } = self;
        (event, seat)
    }
}
