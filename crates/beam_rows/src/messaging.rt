//! Messages and time.
ghost use Rattle.std.specs.Prelude.{◌≡◌, ◌&&◌, false, Some, option_map, OnErr};
ghost use Rattle.std.specs.List.{AllByRecursion};
ghost use Rattle.beam_term.specs.TermValue.{pid_term};
ghost use Rattle.beam_machine.specs.declared.process.Goes.TheVariants.{At};
ghost use Rattle.beam_machine.specs.Process.{read, read_x, put_x};
ghost use Rattle.beam_machine.specs.Row.{goes_on, own_number, sends_to, duration_of, waits_for, waits_with, message_rows};
ghost use Rattle.beam_machine.specs.Row as time;
ghost use Rattle.beam_machine.specs.Quiet.{is_quiet_message, is_calm};
ghost use Rattle.beam_model.specs.Place.{Place as ThePlace};
ghost use Rattle.beam_proc.specs.Does.{Does};
ghost use Rattle.beam_rows.specs.Asked.{Performs, duration, without_exception};
ghost use Rattle.beam_shape_laws.specs.Finds.{HasRow, HasValue, IsThere, messaging_reads, messaging_targets, messaging_writes};

use crate::operand::source_there;
use crate::receiving::{loop_rec_end_row, loop_rec_row, remove_message_row, timeout_row};
use crate::request::{Request, RowOutcome};
use crate::row_error::finish;
use beam_machine::action::{Messaging, Register, Source};
use beam_machine::callee::After;
use beam_machine::event::Then;
use beam_machine::process::Status;
use beam_model::exception::Fault;
use beam_model::native::NodeNative;
use beam_model::place::Place;
use beam_proc::process::Process;
use beam_term::{Pid, Term, TermView};
use std::alloc::AllocError;

/// The number of the own process that a pid names.
fn own_number(pid: &Pid) -> Option<u32>
    ensures { result ≡ own_number (pid_term pid.now.node pid.now.id pid.now.serial pid.now.creation) }
{
    if pid.node.as_str() == "nonode@nohost" && pid.serial == 0 && pid.creation == 0 {
        Some(pid.id)
    } else {
        None
    }
}

/// A send that reaches no process: x0 becomes x1, and the process goes on.
fn send_nowhere(process: &mut Process, next: Place) -> Result<Then, AllocError>
    requires { process.old.status ≡ Status.Running }
    ensures { Does process.old (goes_on (put_x process.old 0 (read_x process.old.x 1)) next) result process.new }
{
    let nil = Term::nil();
    let message = process.read_x(&nil, 1).clone()?;
    process.store(next, Register::X(0), message)
}

fn send(process: &mut Process, next: Place) -> Result<RowOutcome, AllocError>
    requires { process.old.status ≡ Status.Running }
    ensures { Performs process.old (sends_to process.old next (read_x process.old.x 0)) result process.new }
{
    let nil = Term::nil();
    match process.read_x(&nil, 0).view() {
        TermView::Pid(pid) => match own_number(pid) {
            Some(to) => Ok(RowOutcome::Asks(Request::Send { to, next })),
            None => Ok(RowOutcome::Made(send_nowhere(process, next)?)),
        },
        TermView::Atom(_) => Ok(RowOutcome::Asks(Request::Ask {
            native: NodeNative::Send,
            arity: 2,
            after: After::NextRow(next),
        })),
        _ => Ok(RowOutcome::Made(process.fault(Fault::Badarg)?)),
    }
}

/// The time to wait that a term gives: this many milliseconds, or `Some(None)` for ever. `None` where the term gives no time.
fn duration_of(term: &Term) -> Option<Option<u32>>
    ensures { option_map duration result ≡ duration_of term.now }
{
    match term.view() {
        TermView::Integer(n) if n >= 0 && n <= u32::MAX as i64 => Some(Some(n as u32)),
        TermView::Atom(text) if text.as_str() == "infinity" => Some(None),
        _ => None,
    }
}

/// Waits for this many milliseconds at the row of a label.
#[tactic(auto, using(crate::proofs::Asking::done, crate::proofs::Asking::refused, crate::proofs::Asking::left, crate::proofs::Asking::asks_time))]
fn wait_at(
    process: &mut Process,
    next: Place,
    at: usize,
    milliseconds: u32,
) -> Result<RowOutcome, AllocError>
    requires { process.old.status ≡ Status.Running }
    ensures { Performs process.old (waits_for process.old next (Some at) (Some (time.milliseconds milliseconds))) result process.new }
{
    match process.wait_for(next, Some(at), milliseconds)? {
        Some(then) => Ok(RowOutcome::Made(then)),
        None => Ok(RowOutcome::Asks(Request::Sleep {
            milliseconds,
            at,
            next,
        })),
    }
}

/// Waits at the row of a label for a time.
fn wait_timeout(
    process: &mut Process,
    next: Place,
    at: usize,
    duration: &Source<'_>,
) -> Result<RowOutcome, AllocError>
    requires runs { process.old.status ≡ Status.Running }
    requires value { HasValue process.old duration.now }
    ensures { Performs process.old (waits_with process.old next (Some at) (read process.old duration.now)) result process.new }
{
    let nil = Term::nil();
    match duration_of(source_there(process, &nil, duration)) {
        Some(Some(milliseconds)) => wait_at(process, next, at, milliseconds),
        Some(None) => Ok(RowOutcome::Made(process.wait(next.instance(), Some(at))?)),
        None => Ok(RowOutcome::Made(process.fault(Fault::TimeoutValue)?)),
    }
}

/// The row of a label that has one.
fn row_there(target: Option<usize>) -> usize
    requires { HasRow target }
    ensures { target ≡ Some result }
{
    match target {
        Some(at) => at,
        None => unreachable!(),
    }
}

/// Executes a row of messages and time. The reference of a marker is read and not used.
#[tactic(auto, using(crate::proofs::Finding::past_one, crate::proofs::Finding::past_two))]
pub(crate) fn message_rows(
    process: &mut Process,
    next: Place,
    messaging: &Messaging<'_>,
) -> Result<RowOutcome, AllocError>
    requires runs { process.old.status ≡ Status.Running }
    requires stands { (here : ThePlace) × (process.old.goes ≡ At here) }
    requires values { AllByRecursion (HasValue process.old) (messaging_reads messaging.now) }
    requires there { AllByRecursion (IsThere process.old) (messaging_writes messaging.now) }
    requires labels { AllByRecursion HasRow (messaging_targets messaging.now) }
    ensures does { Performs process.old (message_rows messaging.now next process.old) result process.new }
    ensures loud { OnErr result ((is_quiet_message messaging.now && is_calm (message_rows messaging.now next (without_exception process.old))) ≡ false) }
{
    match messaging {
        Messaging::Send => send(process, next),
        Messaging::Peek { dest, fail } => {
            let row = loop_rec_row(process, next, *dest, row_there(*fail));
            finish(process, next.instance(), row)
        }
        Messaging::Skip(target) => {
            let row = loop_rec_end_row(process, next, row_there(*target));
            finish(process, next.instance(), row)
        }
        Messaging::Remove => {
            let row = remove_message_row(process, next);
            finish(process, next.instance(), row)
        }
        Messaging::Wait(target) => Ok(RowOutcome::Made(process.wait(next.instance(), *target)?)),
        Messaging::WaitTimeout { target, duration } => {
            wait_timeout(process, next, row_there(*target), duration)
        }
        Messaging::Timeout => {
            let row = timeout_row(process, next);
            finish(process, next.instance(), row)
        }
        Messaging::Reads(_) | Messaging::ReadsBoth { .. } => Ok(RowOutcome::Made(process.go_on(
            next,
        ))),
    }
}
