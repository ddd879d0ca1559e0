//! The processes that are checked out.
ghost use Rattle.std.specs.Prelude.{◌≡◌, map};
ghost use Rattle.beam_laws.specs.Out.{is_busy, is_of};
ghost use Rattle.beam_shared.specs.Invariant.{checked_out_of, entry_of};
ghost use Rattle.beam_shared.specs.Refusals.{must_wait};

use beam_image::Image;
use beam_machine::debug::DebugEvent;
use beam_machine::event::Event;

/// The entry of a process that is checked out.
#[derive(Clone, Copy, Debug)]
pub(crate) struct CheckoutEntry {
    pub pid: u32,
    /// The number of its checkout.
    pub serial: u64,
    /// How often code or break spots had changed at its checkout.
    pub changes: u64,
}

/// The entry of a process, if it is checked out.
pub(crate) fn entry_of(pid: u32, checked_out: &[CheckoutEntry]) -> Option<CheckoutEntry>
    ensures { result ≡ entry_of pid checked_out.now }
{
    let mut rest = checked_out;
    while let Some((entry, others)) = rest.split_first() {
        if entry.pid == pid {
            return Some(*entry);
        }
        rest = others;
    }
    None
}

/// Whether an event of the node is a process's own.
fn is_of(pid: u32, event: &Event<Image>) -> bool
    ensures { result ≡ is_of pid event.now }
{
    match event {
        Event::Steps { pid: own, .. } => *own == pid,
        Event::Deliver { pid: own } => *own == pid,
        Event::Timeout { pid: own } => *own == pid,
        _ => false,
    }
}

/// Whether an event is a process's own.
fn is_busy(pid: u32, event: &DebugEvent<Image>) -> bool
    ensures { result ≡ is_busy pid event.now }
{
    match event {
        DebugEvent::Node(event) => is_of(pid, event),
        DebugEvent::StepOne { pid: own } => *own == pid,
        _ => false,
    }
}

/// Whether an event is a process's own, and that process is checked out.
pub(crate) fn must_wait(checked_out: &[CheckoutEntry], event: &DebugEvent<Image>) -> bool
    ensures { result ≡ must_wait (map checked_out_of checked_out.now) event.now }
{
    let mut rest = checked_out;
    while let Some((entry, others)) = rest.split_first() {
        if is_busy(entry.pid, event) {
            return true;
        }
        rest = others;
    }
    false
}
