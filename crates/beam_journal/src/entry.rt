//! An entry of the journal.
ghost use Rattle.std.specs.Prelude.{◌≡◌};

use beam_image::Image;
use beam_machine::debug::DebugEvent;
use std::marker::Model;
use std::mem::size_of;

/// An event that the node accepted, and the seat that sent it. It takes 64 bytes, and 16 for each argument for which the list of a `Spawn`
/// has capacity, as `Vec` makes it: four at least where there is one. Terms, atoms and images are shared with the node, not copied. The
/// reply isn't stored: the events before it and this one determine it.
pub struct Entry {
    event: DebugEvent<Image>,
    seat: Option<u32>,
}

impl Drop for Entry {
    fn drop(self) {
        let Entry {
            event: _event,
            seat: _seat,
        } = self;
    }
}

const _: () = prove!(size_of::<Entry>() == 64);

impl Model for Entry {
    ghost use Rattle.std.specs.Coded.{codes};
    ghost use Rattle.beam_term.specs.Coding.{term_code};
    ghost use Rattle.beam_machine.specs.Journal.{SentEvent};

    ghost Value = { SentEvent };

    ghost coded = { Prim.hlevel (codes, term_code) };

    ghost view = { λ e. record { event = e.event; seat = e.seat } };
}

impl Entry {
    pub(crate) fn new(event: DebugEvent<Image>, seat: Option<u32>) -> Entry
        ensures { result ≡ record { event = event; seat = seat } }
    {
        Entry { event, seat }
    }

    /// The event. A `Steps` that was cut has the rows that were executed.
    pub fn event(&self) -> &DebugEvent<Image>
        ensures { result.now ≡ self.now.event }
    {
        &self.event
    }

    /// The number of the seat from which the event came, or none.
    pub fn seat(&self) -> Option<u32>
        ensures { result ≡ self.now.seat }
    {
        self.seat
    }
}
