//! What arrives at processes, and time.
ghost use Rattle.std.specs.Prelude.{◌≡◌, ◌+◌, ◌<◌, ℕ, false, List, [], length, slice_get, slice_set, OnOk, OnErr, IfOk, IfSome, IsErrOf};
ghost use Rattle.beam_machine.specs.Next.{delivered};
ghost use Rattle.beam_machine.specs.Process.{Process as TheProcess, is_ended};
ghost use Rattle.beam_machine.specs.State.{with_made};
ghost use Rattle.beam_proc.specs.Deliveries.{ending};
ghost use Rattle.beam_state.specs.Posting.{AreLawful};
ghost use Rattle.beam_state.specs.Parts.{AnswersAlone, AnswersByProcesses, AcceptedByProcesses, is_due, parts};

use crate::ends::end_at;
use crate::names::{live, live_index, receiver_of};
use crate::posting::post;
use crate::processes::Processes;
use beam_image::Image;
use beam_machine::event::{Event, Refused, Reply};
use beam_machine::process::Signal;
use beam_proc::entry::ProcessEntry;
use beam_term::Term;
use std::alloc::{AllocError, Global};

/// The reason with which the process at an index ends when all signals in transit to it arrive, if it ends.
fn ending_at(processes: &Processes, index: usize) -> Result<Option<Term>, AllocError>
    requires within { index < length processes.now }
    requires lives { IfSome (slice_get processes.now index) (λ p. is_ended p.status ≡ false) }
    ensures { IfOk result (λ end. IfSome (slice_get processes.now index) (λ p. end ≡ ending p.pid p.transit)) }
{
    match processes.as_slice()[index].living() {
        Some(process) => process.ending(),
        None => unreachable!(),
    }
}

/// All signals in transit to the process at an index arrive. Where memory is refused nothing changes.
fn deliver_at(processes: &mut Processes, index: usize) -> Result<(), AllocError>
    requires within { index < length processes.old }
    requires lives { IfSome (slice_get processes.old index) (λ p. is_ended p.status ≡ false) }
    ensures ok { OnOk result (IfSome (slice_get processes.old index)
        (λ p. processes.new ≡ slice_set processes.old index (delivered (record p { transit = [] }) p.transit))) }
    ensures err { OnErr result (processes.new ≡ processes.old) }
{
    processes.change(index, |process| process.deliver())
}

/// All signals in transit to the process at an index arrive. If they end it, all that monitor it are sent a DOWN. Where memory is refused
/// nothing changes.
fn deliver_or_end(
    alloc: Global,
    processes: &mut Processes,
    references: u32,
    index: usize,
    pid: u32,
) -> Result<(), AllocError>
    requires located { pid ≡ index + 1 }
    requires within { index < length processes.old }
    requires lives { IfSome (slice_get processes.old index) (λ p. is_ended p.status ≡ false) }
    requires lawful { AreLawful references processes.old }
    ensures ok { OnOk result (IfSome (slice_get processes.old index)
        (λ p. processes.new ≡ with_made processes.old pid (delivered (record p { transit = [] }) p.transit))) }
    ensures err { OnErr result (processes.new ≡ processes.old) }
{
    match ending_at(processes, index)? {
        Some(reason) => {
            let _ended = end_at(
                alloc,
                processes,
                references,
                index,
                pid,
                reason,
                Term::nil(),
            )?;
            Ok(())
        }
        None => deliver_at(processes, index),
    }
}

/// All signals in transit to a process arrive. If they end it, all that monitor it are sent a DOWN.
#[tactic(auto, using(crate::proofs::Transit::is_nothing_if))]
pub(crate) fn deliver(
    alloc: Global,
    processes: &mut Processes,
    references: u32,
    pid: u32,
) -> Result<Reply, Refused>
    requires lawful { AreLawful references processes.old }
    ensures next { AnswersByProcesses processes.old (Event.Deliver pid) result processes.new }
    ensures memory { AcceptedByProcesses processes.old (Event.Deliver pid) result }
{
    let Some(index) = live_index(processes.as_slice(), pid) else {
        return Err(Refused::NoProcess);
    };
    if !processes.as_slice()[index].has_transit() {
        return Err(Refused::NotReady);
    }
    deliver_or_end(alloc, processes, references, index, pid)?;
    Ok(Reply::Done)
}

/// Moves the clock. `BackwardClock` where it would go back.
pub(crate) fn tick(clock: &mut u64, now: u64) -> Result<Reply, Refused>
    ensures next { (ps : List TheProcess) (n r : ℕ) → AnswersAlone (parts ps clock.old n r) (Event.Clock now) result (parts ps clock.new n r) }
    ensures memory { IsErrOf result Refused.NoMemory → ⊥ }
{
    if now < *clock {
        return Err(Refused::BackwardClock);
    }
    *clock = now;
    Ok(Reply::Done)
}

/// Whether a process waits and its deadline has come.
fn is_due(process: &ProcessEntry, clock: u64) -> bool
    ensures { result ≡ is_due clock process.now.status process.now.deadline }
{
    match process.deadline() {
        Some(deadline) => process.is_waiting() && deadline.at <= clock,
        None => false,
    }
}

/// Lets a waiting process go on whose deadline has come.
pub(crate) fn time_out(processes: &mut Processes, clock: u64, pid: u32) -> Result<Reply, Refused>
    ensures next { (n r : ℕ) → AnswersAlone (parts processes.old clock n r) (Event.Timeout pid) result (parts processes.new clock n r) }
    ensures memory { IsErrOf result Refused.NoMemory → ⊥ }
{
    let Some(index) = live_index(processes.as_slice(), pid) else {
        return Err(Refused::NoProcess);
    };
    if !is_due(&processes.as_slice()[index], clock) {
        return Err(Refused::NotReady);
    }
    processes.change(index, |process| process.time_out());
    Ok(Reply::Done)
}

/// Sends a message to a process, found by its pid or its name.
pub(crate) fn send(processes: &mut Processes, to: &Term, message: &Term) -> Result<Reply, Refused>
    ensures next { AnswersByProcesses processes.old (Event.Send to.now message.now) result processes.new }
    ensures memory { AcceptedByProcesses processes.old (Event.Send to.now message.now) result }
{
    let Some(pid) = receiver_of(processes, to) else {
        return Err(Refused::NoProcess);
    };
    if live(processes.as_slice(), pid).is_none() {
        return Err(Refused::NoProcess);
    }
    post(processes, pid, Signal::Message(message.clone()?))?;
    Ok(Reply::Done)
}
