//! What is executed of an event if memory is refused in the middle of it.
ghost use Rattle.std.specs.Prelude.{◌≡◌, Ok, true, false};
ghost use Rattle.beam_machine.specs.Debug.{Debugged};
ghost use Rattle.beam_machine.specs.Run.{effective_rows};
ghost use Rattle.beam_machine.specs.DebugRun.{debug_cut_event, is_quiet_debug_event};
ghost use Rattle.beam_debug.specs.Answers.{reply_of};

use beam_debug::outcome::Outcome;
use beam_image::Image;
use beam_machine::debug::DebugEvent;
use beam_machine::event::{Event, Reply, Then};

/// How many rows were executed of those that were asked for.
fn effective_rows(rows: u32, count: u32, then: &Then) -> u32
    ensures { result ≡ effective_rows rows count then.now }
{
    match then {
        Then::GoesOn => {
            if 0 < count && count < rows {
                count
            } else {
                rows
            }
        }
        Then::Waits => rows,
        Then::Ended { .. } => rows,
    }
}

/// The event as it was executed: a `Steps` that was cut has the rows that the reply counts.
pub(crate) fn cut_event(event: DebugEvent<Image>, reply: &Outcome) -> DebugEvent<Image>
    ensures { result ≡ debug_cut_event event (Ok (reply_of reply.now)) }
{
    match (event, reply) {
        (DebugEvent::Node(Event::Steps { pid, rows }), Outcome::Node(Reply::Ran { count, then })) =>
            DebugEvent::Node(Event::Steps {
                pid,
                rows: effective_rows(rows, *count, then),
            }),
        (event, _) => event,
    }
}

/// Whether `Steps` was cut: fewer rows were executed than asked, since memory was refused.
pub(crate) fn is_cut(event: &DebugEvent<Image>, reply: &Outcome) -> bool
    ensures whole { result ≡ false → debug_cut_event event.now (Ok (reply_of reply.now)) ≡ event.now }
    ensures rows { (d : Debugged) → result ≡ true → is_quiet_debug_event d event.now ≡ false }
{
    match (event, reply) {
        (DebugEvent::Node(Event::Steps { rows, .. }), Outcome::Node(Reply::Ran { count, then })) =>
            effective_rows(*rows, *count, then) < *rows,
        _ => false,
    }
}
