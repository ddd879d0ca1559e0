//! Rows that an allocation failure cut short.
ghost use Rattle.std.specs.Prelude.{◌≡◌};
ghost use Rattle.beam_recall.specs.CutRows.{is_cut, rows_asked};

use beam_debug::outcome::Outcome;
use beam_image::Image;
use beam_machine::debug::DebugEvent;
use beam_machine::event::{Event, Reply, Then};

/// How many rows an event asks for.
pub(crate) fn rows_asked(event: &DebugEvent<Image>) -> Option<u32>
    ensures { result ≡ rows_asked event.now }
{
    match event {
        DebugEvent::Node(Event::Steps { rows, .. }) => Some(*rows),
        _ => None,
    }
}

/// Whether fewer rows were executed than an event asked for, though the process could go on: memory was refused.
pub(crate) fn is_cut(rows: Option<u32>, outcome: &Outcome) -> bool
    ensures { result ≡ is_cut rows outcome.now }
{
    match (rows, outcome) {
        (
            Some(rows),
            Outcome::Node(
                Reply::Ran {
                    count,
                    then: Then::GoesOn,
                },
            ),
        ) => 0 < *count && *count < rows,
        _ => false,
    }
}
