//! Processes by their numbers and names.
ghost use Rattle.std.specs.Prelude.{◌≡◌, ◌+◌, ◌<◌, length, false, None, Some, is_some, IfSome, IfNone, slice_get};
ghost use Rattle.std.specs.Option.{option_copied};
ghost use Rattle.beam_machine.specs.Process.{is_ended};
ghost use Rattle.beam_state.specs.Pids.{number_in};
ghost use Rattle.beam_machine.specs.State.{process_of, live_process, has_name, receiver_of};
ghost use Rattle.beam_state.specs.Parts.{then_at};

use crate::processes::Processes;
use beam_machine::event::Then;
use beam_machine::process::Status;
use beam_proc::entry::ProcessEntry;
use beam_proc::process::Process;
use beam_term::{Atom, Pid, Term, TermView};

/// The process of that number, also one that has ended.
pub(crate) fn process(processes: &[ProcessEntry], pid: u32) -> Option<&ProcessEntry>
    ensures { option_copied result ≡ process_of processes.now pid }
{
    let index = usize::try_from(pid.checked_sub(1)?).ok()?;
    processes.get(index)
}

/// The process of that number, if it hasn't ended.
pub(crate) fn live(processes: &[ProcessEntry], pid: u32) -> Option<&Process>
    ensures { option_copied result ≡ live_process processes.now pid }
{
    process(processes, pid)?.living()
}

/// The index of the process of that number, if it hasn't ended.
pub(crate) fn live_index(processes: &[ProcessEntry], pid: u32) -> Option<usize>
    ensures some { IfSome result (λ i. (pid ≡ i + 1) × (i < length processes.now) × IfSome (slice_get processes.now i) (λ p. is_ended p.status ≡ false)) }
    ensures none { IfNone result (live_process processes.now pid ≡ None) }
{
    let index = usize::try_from(pid.checked_sub(1)?).ok()?;
    let entry = processes.get(index)?;
    if entry.is_ended() { None } else { Some(index) }
}

/// The index of a process that runs.
pub(crate) fn running(processes: &[ProcessEntry], pid: u32) -> usize
    requires { then_at processes.now pid ≡ Some Then.GoesOn }
    ensures { (pid ≡ result + 1) × (result < length processes.now) × IfSome (slice_get processes.now result) (λ p. p.status ≡ Status.Running) }
{
    match live_index(processes, pid) {
        Some(index) => index,
        None => unreachable!(),
    }
}

/// Whether a process has this name.
pub(crate) fn has_name(name: &Atom, own: Option<&Atom>) -> bool
    ensures { result ≡ has_name name.now (option_copied own.entry) }
{
    match own {
        Some(own) => own == name,
        None => false,
    }
}

/// The number of the process of this node that a pid names.
pub(crate) fn own_number(pid: &Pid) -> Option<u32>
    ensures { result ≡ number_in pid.now }
{
    if pid.node.as_str() == "nonode@nohost" && pid.serial == 0 && pid.creation == 0 {
        Some(pid.id)
    } else {
        None
    }
}

/// The number of the process that a term names: a pid of this node, or a registered name.
pub(crate) fn receiver_of(processes: &Processes, to: &Term) -> Option<u32>
    ensures { result ≡ receiver_of processes.now to.now }
{
    match to.view() {
        TermView::Atom(name) => processes.registered(name),
        TermView::Pid(pid) => own_number(pid),
        _ => None,
    }
}
