//! Signals that are messages.
ghost use Rattle.std.specs.Prelude.{◌≡◌, ◌≤◌, ◌+◌, ◌++◌, [], OnOk, OnErr, length};
ghost use Rattle.beam_mailbox.specs.Messages.{messages_of};

use beam_machine::process::Signal;
use beam_term::Term;
use std::alloc::AllocError;
use std::collections::VecDeque;

/// Moves the messages of signals to the end of a queue. Where memory is refused nothing changes.
pub fn append_all(
    messages: &mut VecDeque<Term>,
    signals: &mut Vec<Signal>,
) -> Result<(), AllocError>
    ensures ok { OnOk result (messages.new.items ≡ messages.old.items ++ messages_of signals.old.items) }
    ensures taken { OnOk result (signals.new.items ≡ []) }
    ensures few { OnOk result (length messages.new.items ≤ length messages.old.items + length signals.old.items) }
    ensures err { OnErr result ((messages.new.items ≡ messages.old.items) × (signals.new.items ≡ signals.old.items)) }
{
    messages.reserve(signals.len())?;
    signals.reverse();
    while let Some(signal) = signals.pop() {
        if let Signal::Message(message) = signal {
            messages.push_back_reserved(message);
        }
    }
    Ok(())
}
