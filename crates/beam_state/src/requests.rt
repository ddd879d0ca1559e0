//! What a row asks of the node: a message, an end, or a deadline.
ghost use Rattle.std.specs.Prelude.{◌≡◌, ◌<◌, ℕ, length, slice_get, Some, IfSome};
ghost use Rattle.beam_machine.specs.Process.{ended};
ghost use Rattle.beam_state.specs.Asking.{RespondsBy, MadeBy, sending, sleeping};
ghost use Rattle.beam_state.specs.Posting.{AreLawful};
ghost use Rattle.beam_state.specs.Parts.{then_at};

use crate::ends::end_at;
use crate::names::running;
use crate::posting::post;
use crate::processes::Processes;
use beam_machine::event::Then;
use beam_machine::process::{Signal, Status};
use beam_model::place::Place;
use beam_proc::process::Process;
use beam_term::Term;
use std::alloc::{AllocError, Global};

/// The process at an index, which runs.
pub(crate) fn runner(processes: &Processes, index: usize) -> &Process
    requires within { index < length processes.now }
    requires runs { IfSome (slice_get processes.now index) (λ p. p.status ≡ Status.Running) }
    ensures { slice_get processes.now index ≡ Some result.now }
{
    match processes.as_slice()[index].living() {
        Some(process) => process,
        None => unreachable!(),
    }
}

/// A process sends x1 and goes on with it in x0.
pub(crate) fn send(
    processes: &mut Processes,
    pid: u32,
    to: u32,
    next: Place,
) -> Result<Then, AllocError>
    requires { then_at processes.old pid ≡ Some Then.GoesOn }
    ensures { (clock references : ℕ) → RespondsBy clock pid (sending to next) references processes.old result references processes.new }
{
    let index = running(processes.as_slice(), pid);
    let nil = Term::nil();
    let message = runner(processes, index).read_x(&nil, 1).clone()?;
    let value = message.clone()?;
    let stepped = processes.change(index, |process| process.step_with(next, value))?;
    match post(processes, to, Signal::Message(message)) {
        Ok(()) => Ok(Then::GoesOn),
        Err(refused) => {
            processes.change(index, |process| process.step_back(stepped));
            Err(refused)
        }
    }
}

/// Ends a process that runs, and sends a DOWN to all that monitor it.
pub(crate) fn end(
    alloc: Global,
    processes: &mut Processes,
    references: u32,
    pid: u32,
    reason: Term,
    value: Term,
) -> Result<Then, AllocError>
    requires runs { then_at processes.old pid ≡ Some Then.GoesOn }
    requires lawful { AreLawful references processes.old }
    ensures { MadeBy pid (λ p. ended p reason value) processes.old result processes.new }
{
    let index = running(processes.as_slice(), pid);
    end_at(alloc, processes, references, index, pid, reason, value)
}

/// A process waits, with a deadline this many milliseconds from now. It takes no memory.
pub(crate) fn sleep(
    processes: &mut Processes,
    clock: u64,
    pid: u32,
    milliseconds: u32,
    at: usize,
    next: Place,
) -> Result<Then, AllocError>
    requires { then_at processes.old pid ≡ Some Then.GoesOn }
    ensures { (references : ℕ) → RespondsBy clock pid (sleeping milliseconds at next) references processes.old result references processes.new }
{
    let index = running(processes.as_slice(), pid);
    Ok(processes.change(
        index,
        |process| process.sleep(next, at, milliseconds, clock),
    ))
}
