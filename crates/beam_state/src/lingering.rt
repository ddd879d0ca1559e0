//! The processes that linger in old instances, and their ends.
ghost use Rattle.std.specs.Prelude.{◌≡◌, ◌<◌, ◌++◌, true, false, length, map, slice_get, slice_set, is_some, OnOk, OnErr, IfOk, IfSome};
ghost use Rattle.std.specs.List.{list_any};
ghost use Rattle.beam_laws.specs.Orderly.{Orderly};
ghost use Rattle.beam_laws.specs.Private.{posted_all};
ghost use Rattle.beam_machine.specs.Process.{Process as TheProcess, is_ended, killed};
ghost use Rattle.beam_machine.specs.Change.{killing, pids_of};
ghost use Rattle.beam_machine.specs.Quiet.{is_monitored};
ghost use Rattle.beam_state.specs.Posting.{AreLawful, notices_of};
ghost use Rattle.beam_state.specs.Ends.{lingers_in, end_if, one_monitored, notices_of_each};

use crate::ends::{has_notices, notices};
use crate::posting::post_all;
use crate::processes::Processes;
use beam_proc::entry::ProcessEntry;
use beam_proc::private::Sent;
use beam_term::Term;
use indexmap::IndexSet;
use std::alloc::{AllocError, Global};

/// Old instances: that of one module, if it has one, or those of several.
#[derive(Clone, Copy)]
pub(crate) enum OldInstances<'a> {
    One(Option<u32>),
    Several(&'a IndexSet<u32>),
}

/// Whether there is no instance.
fn is_none(old: OldInstances<'_>) -> bool
    ensures { result ≡ true → (p : TheProcess) → lingers_in old.entry p ≡ false }
{
    match old {
        OldInstances::One(number) => number.is_none(),
        OldInstances::Several(numbers) => numbers.is_empty(),
    }
}

/// Whether a process lingers in one of the old instances. It takes no memory.
fn lingers(old: OldInstances<'_>, process: &ProcessEntry) -> bool
    ensures { result ≡ lingers_in old.entry process.now }
{
    match old {
        OldInstances::One(Some(number)) => process.lingers(number),
        OldInstances::One(None) => false,
        OldInstances::Several(numbers) => process.lingers_in_any(numbers),
    }
}

/// Whether a process lingers in one of the old instances. Each process is examined at most once, and none if there is no instance.
pub(crate) fn one_lingers(old: OldInstances<'_>, processes: &[ProcessEntry]) -> bool
    ensures { result ≡ list_any (lingers_in old.entry) processes.now }
{
    if is_none(old) {
        return false;
    }
    processes.iter().any(|process| lingers(old, process))
}

// ---- what the others are sent

/// The reason with which a change of code ends a process that hasn't ended.
fn killed(process: &ProcessEntry) -> Result<Term, AllocError>
    requires { is_ended process.now.status ≡ false }
    ensures { IfOk result (λ reason. reason ≡ killed) }
{
    match process.living() {
        Some(living) => living.known().killed(),
        None => unreachable!(),
    }
}

/// Adds to `sent` the signals that all others are sent where a process is killed that hasn't ended. Memory is refused only where the
/// process is monitored.
fn killed_notices(
    sent: Vec<Sent>,
    processes: &Processes,
    references: u32,
    process: &ProcessEntry,
) -> Result<Vec<Sent>, AllocError>
    requires lawful { AreLawful references processes.now }
    requires lives { is_ended process.now.status ≡ false }
    ensures ok { IfOk result (λ all. all.items ≡ sent.items ++ notices_of processes.now process.now.pid killed) }
    ensures monitored { OnErr result (is_monitored processes.now process.now.pid ≡ true) }
{
    let pid = process.pid();
    if !has_notices(processes, references, pid) {
        return Ok(sent);
    }
    let reason = killed(process)?;
    notices(sent, processes, references, pid, &reason)
}

/// The signals that others are sent where all processes that linger in one of the old instances are killed, in the order of the pids;
/// None where none lingers. Each process is examined once, and none if there is no instance. Memory is refused only where one that
/// lingers is monitored.
fn all_killed_notices(
    alloc: Global,
    old: OldInstances<'_>,
    processes: &Processes,
    references: u32,
) -> Result<Option<Vec<Sent>>, AllocError>
    requires { AreLawful references processes.now }
    ensures sent { IfOk result (λ told. IfSome told (λ sent.
        sent.items ≡ notices_of_each processes.now (pids_of (lingers_in old.entry) processes.now))) }
    ensures some { IfOk result (λ told. is_some told ≡ list_any (lingers_in old.entry) processes.now) }
    ensures monitored { OnErr result (one_monitored (lingers_in old.entry) processes.now ≡ true) }
{
    if is_none(old) {
        return Ok(None);
    }
    let entries = processes.as_slice();
    let mut sent = Vec::new(alloc);
    let mut some = false;
    for index in 0..entries.len() {
        let process = &entries[index];
        if lingers(old, process) {
            some = true;
            sent = killed_notices(sent, processes, references, process)?;
        }
    }
    Ok(if some { Some(sent) } else { None })
}

/// Posts the signals that others are sent where all processes that linger in one of the old instances are killed, and gives them back,
/// before these processes end; None where none lingers, and then nothing changes. Memory is refused only where one that lingers is
/// monitored, and then nothing changes.
pub(crate) fn tell(
    alloc: Global,
    old: OldInstances<'_>,
    processes: &mut Processes,
    references: u32,
) -> Result<Option<Vec<Sent>>, AllocError>
    requires { AreLawful references processes.old }
    ensures sent { IfOk result (λ told. IfSome told (λ sent.
        sent.items ≡ notices_of_each processes.old (pids_of (lingers_in old.entry) processes.old))) }
    ensures posted { IfOk result (λ told. IfSome told (λ sent. processes.new ≡ posted_all processes.old sent.items)) }
    ensures none { IfOk result (λ told. is_some told ≡ false → processes.new ≡ processes.old) }
    ensures some { IfOk result (λ told. is_some told ≡ list_any (lingers_in old.entry) processes.old) }
    ensures monitored { OnErr result (one_monitored (lingers_in old.entry) processes.old ≡ true) }
    ensures err { OnErr result (processes.new ≡ processes.old) }
{
    let Some(sent) = all_killed_notices(alloc, old, processes, references)? else {
        return Ok(None);
    };
    post_all(processes, &sent)?;
    Ok(Some(sent))
}

// ---- the ends

/// Kills the process at an index if it lingers in one of the old instances. It takes no memory.
fn end_lingering(old: OldInstances<'_>, processes: &mut Processes, index: usize)
    requires within { index < length processes.old }
    requires lives { IfSome (slice_get processes.old index) (λ p. lingers_in old p ≡ true → is_ended p.status ≡ false) }
    ensures { IfSome (slice_get processes.old index) (λ p. processes.new ≡ slice_set processes.old index (end_if (lingers_in old.entry) p)) }
{
    if lingers(old, &processes.as_slice()[index]) {
        processes.change(index, |process| process.kill());
    }
}

/// Kills all processes that linger in one of the old instances. It takes no memory.
pub(crate) fn end_all(old: OldInstances<'_>, processes: &mut Processes)
    requires { Orderly processes.old }
    ensures { processes.new ≡ map (end_if (lingers_in old.entry)) processes.old }
{
    for index in 0..processes.as_slice().len() {
        end_lingering(old, processes, index);
    }
}

/// Kills all processes that linger in one of the old instances, once each process that monitors them was sent its DOWNs, and tells
/// whether one was killed. Memory is refused only where one of them is monitored, and then nothing changes.
pub(crate) fn tell_and_end(
    alloc: Global,
    old: OldInstances<'_>,
    processes: &mut Processes,
    references: u32,
) -> Result<bool, AllocError>
    requires { AreLawful references processes.old }
    ensures ok { OnOk result (processes.new ≡ killing (lingers_in old.entry) processes.old) }
    ensures some { IfOk result (λ some. some ≡ list_any (lingers_in old.entry) processes.old) }
    ensures monitored { OnErr result (one_monitored (lingers_in old.entry) processes.old ≡ true) }
    ensures err { OnErr result (processes.new ≡ processes.old) }
{
    let Some(_sent) = tell(alloc, old, processes, references)? else {
        return Ok(false);
    };
    end_all(old, processes);
    Ok(true)
}
