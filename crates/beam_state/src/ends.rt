//! Ends of processes, and the DOWNs that those that monitor them are sent.
ghost use Rattle.std.specs.Prelude.{◌≡◌, ◌==◌, ◌+◌, ◌<◌, ◌++◌, if◌then◌else◌, true, false, [], length, filter, map, slice_get, IfSome, IfOk, OnOk, OnErr};
ghost use Rattle.std.specs.List.{list_any};
ghost use Rattle.beam_term.specs.TermValue.{TermValue};
ghost use Rattle.beam_machine.specs.Process.{ended, is_ended};
ghost use Rattle.beam_machine.specs.Quiet.{is_monitored};
ghost use Rattle.beam_machine.specs.State.{monitors_process, downs};
ghost use Rattle.beam_laws.specs.Private.{posted_all};
ghost use Rattle.beam_state.specs.Asking.{MadeBy};
ghost use Rattle.beam_state.specs.Posting.{AreLawful, notices_of};
ghost use Rattle.beam_state.specs.MonitorKeys.{is_key_of, is_told, down_of};

use crate::monitor_index::{MonitorIndex, add_down, is_told};
use crate::posting::{post_all, take_all_back};
use crate::processes::Processes;
use crate::returning::end_with;
use beam_machine::event::Then;
use beam_proc::entry::ProcessEntry;
use beam_proc::private::Sent;
use beam_term::Term;
use std::alloc::{AllocError, Global};

/// Adds the DOWNs that a process is sent where the process of number `pid` ends for that reason: none if it is that process itself.
fn notice(
    process: &ProcessEntry,
    pid: u32,
    reason: &Term,
    sent: &mut Vec<Sent>,
) -> Result<(), AllocError>
    ensures ok { OnOk result (sent.new.items ≡ sent.old.items
        ++ map (λ signal. record { to = process.now.pid; signal = signal })
        (if process.now.pid == pid then [] else downs pid reason.now process.now.monitors)) }
    ensures quiet { list_any (monitors_process pid) process.now.monitors ≡ false → OnErr result ⊥ }
{
    if process.pid() == pid {
        return Ok(());
    }
    process.downs(pid, reason, sent)
}

/// Adds to `sent` the signals that all others are sent where the process of that number ends for that reason. It finds them by a walk over
/// all processes.
fn walked(
    sent: Vec<Sent>,
    processes: &[ProcessEntry],
    references: u32,
    pid: u32,
    reason: &Term,
) -> Result<Vec<Sent>, AllocError>
    requires lawful { AreLawful references processes.now }
    ensures ok { IfOk result (λ all. all.items ≡ sent.items ++ notices_of processes.now pid reason.now) }
    ensures quiet { is_monitored processes.now pid ≡ false → OnErr result ⊥ }
{
    let mut sent = sent;
    if references == 0 {
        return Ok(sent);
    }
    for index in 0..processes.len() {
        let process = &processes[index];
        notice(process, pid, reason, &mut sent)?;
    }
    Ok(sent)
}

/// Adds to `sent` the signals that all others are sent where the process of that number ends for that reason. It finds them by the index.
#[tactic(auto, using(crate::proofs::MonitorKeys::none_told))]
fn found(
    sent: Vec<Sent>,
    processes: &[ProcessEntry],
    monitor_index: &MonitorIndex,
    pid: u32,
    reason: &Term,
) -> Result<Vec<Sent>, AllocError>
    ensures ok { IfOk result (λ all. all.items ≡ sent.items
        ++ map (down_of reason.now) (filter (is_told processes.now pid) (filter (is_key_of pid) monitor_index.now))) }
    ensures quiet { is_monitored processes.now pid ≡ false → OnErr result ⊥ }
{
    let mut sent = sent;
    for key in monitor_index.of(pid) {
        add_down(processes, *key, pid, reason, &mut sent)?;
    }
    Ok(sent)
}

/// Adds to `sent` the signals that all others are sent where the process of that number ends for that reason. With the index, the time
/// grows as their number.
pub(crate) fn notices(
    sent: Vec<Sent>,
    processes: &Processes,
    references: u32,
    pid: u32,
    reason: &Term,
) -> Result<Vec<Sent>, AllocError>
    requires lawful { AreLawful references processes.now }
    ensures ok { IfOk result (λ all. all.items ≡ sent.items ++ notices_of processes.now pid reason.now) }
    ensures quiet { is_monitored processes.now pid ≡ false → OnErr result ⊥ }
{
    match processes.complete_index() {
        Some(monitor_index) => found(sent, processes.as_slice(), monitor_index, pid, reason),
        None => walked(sent, processes.as_slice(), references, pid, reason),
    }
}

/// Whether a process monitors the one of that number. It takes no memory.
fn is_monitored(processes: &[ProcessEntry], pid: u32) -> bool
    ensures { result ≡ is_monitored processes.now pid }
{
    processes
        .iter()
        .any(|process| process.monitors_process(pid))
}

/// Whether the index has a key of a process that is sent a DOWN where the process of that number ends. It takes no memory.
fn one_is_told(processes: &[ProcessEntry], monitor_index: &MonitorIndex, pid: u32) -> bool
    ensures { result ≡ list_any (is_told processes.now pid) (filter (is_key_of pid) monitor_index.now) }
{
    for key in monitor_index.of(pid) {
        if is_told(processes, pid, *key) {
            return true;
        }
    }
    false
}

/// Whether `notices` may add signals for that process: where it says no, there are none, and where it says yes, the process is
/// monitored. It takes no memory.
pub(crate) fn has_notices(processes: &Processes, references: u32, pid: u32) -> bool
    requires lawful { AreLawful references processes.now }
    ensures some { result ≡ true → is_monitored processes.now pid ≡ true }
    ensures none { result ≡ false → (reason : TermValue) → notices_of processes.now pid reason ≡ [] }
{
    match processes.complete_index() {
        Some(monitor_index) => one_is_told(processes.as_slice(), monitor_index, pid),
        None => references > 0 && is_monitored(processes.as_slice(), pid),
    }
}

/// Posts `first`, and then the DOWNs of an end that is still to come, and gives back all that was posted. Where memory is refused nothing
/// changes.
pub(crate) fn tell(
    first: Vec<Sent>,
    processes: &mut Processes,
    references: u32,
    pid: u32,
    reason: &Term,
) -> Result<Vec<Sent>, AllocError>
    requires lawful { AreLawful references processes.old }
    ensures ok { IfOk result (λ sent. (sent.items ≡ first.items ++ notices_of processes.old pid reason.now)
        × (processes.new ≡ posted_all processes.old sent.items)) }
    ensures err { OnErr result (processes.new ≡ processes.old) }
{
    let sent = notices(first, processes, references, pid, reason)?;
    post_all(processes, &sent)?;
    Ok(sent)
}

/// Ends the process at an index, and sends a DOWN to all that monitor it. Where memory is refused nothing changes.
pub(crate) fn end_at(
    alloc: Global,
    processes: &mut Processes,
    references: u32,
    index: usize,
    pid: u32,
    reason: Term,
    value: Term,
) -> Result<Then, AllocError>
    requires located { pid ≡ index + 1 }
    requires within { index < length processes.old }
    requires lives { IfSome (slice_get processes.old index) (λ p. is_ended p.status ≡ false) }
    requires lawful { AreLawful references processes.old }
    ensures { MadeBy pid (λ p. ended p reason value) processes.old result processes.new }
{
    let told = tell(Vec::new(alloc), processes, references, pid, &reason)?;
    match processes.change(index, |process| end_with(process, reason, value)) {
        Ok(then) => Ok(then),
        Err(refused) => {
            take_all_back(processes, &told);
            Err(refused)
        }
    }
}
