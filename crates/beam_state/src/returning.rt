//! How a native's answer, or an end, changes the process that asked.
ghost use Rattle.std.specs.Prelude.{◌≡◌, ◌<◌, length, Ok};
ghost use Rattle.std.specs.Option.{option_copied};
ghost use Rattle.beam_term.specs.TermValue.{TermValue};
ghost use Rattle.beam_machine.specs.Process.{ended, then_of};
ghost use Rattle.beam_machine.specs.Row.{answers};
ghost use Rattle.beam_proc.specs.Does.{Does, DoesAtOnce};
ghost use Rattle.beam_proc.specs.Continuation.{reason_of};
ghost use Rattle.beam_state.specs.Asking.{bare_if, CanDrop, IsFollowed};

use beam_machine::callee::After;
use beam_machine::event::Then;
use beam_machine::process::Status;
use beam_model::exception::Exception;
use beam_proc::process::Process;
use beam_proc::returning::{Continuation, ReturnValue};
use beam_term::Term;
use std::alloc::AllocError;

/// Ends a process with that reason and that value. Where memory is refused it hasn't ended.
pub(crate) fn end_with(process: &mut Process, reason: Term, value: Term) -> Result<Then, AllocError>
    ensures { DoesAtOnce process.old (ended process.old reason value) result process.new }
{
    process.end_as_said(Then::Ended { reason, value })
}

/// The reason with which a process ends when it goes on with a value of the native for which it asks, if it ends then.
pub(crate) fn end_after<'a>(
    process: &Process,
    dropped: Option<u32>,
    prepared: &'a Continuation,
) -> Option<&'a Term>
    requires runs { process.now.status ≡ Status.Running }
    requires can { CanDrop dropped process.now }
    ensures { (value : TermValue) → option_copied result ≡ reason_of (answers (bare_if dropped process.now) prepared.now (Ok value)).status }
{
    match dropped {
        Some(count) => process.end_after_dropping(count, prepared),
        None => process.end_after(prepared),
    }
}

/// A process goes on with the value of the native for which it asks, without memory.
#[tactic(auto, using(beam_proc::proofs::UndoneSteps::taken))]
pub(crate) fn return_prepared(
    process: &mut Process,
    dropped: Option<u32>,
    prepared: Continuation,
    return_value: ReturnValue,
) -> Then
    requires runs { process.old.status ≡ Status.Running }
    requires can { CanDrop dropped process.old }
    requires written { 0 < length process.old.x }
    ensures process { process.new ≡ answers (bare_if dropped process.old) prepared (Ok return_value) }
    ensures then { result ≡ then_of process.new.status }
{
    if let Some(count) = dropped {
        process.drop_slots(count);
    }
    process.return_prepared_value(prepared, return_value)
}

/// A process goes on with the value of the native for which it asks, or raises its fault. Where that ends the process, the answer is the
/// end, and nothing changes. Where memory is refused nothing changes either.
#[tactic(auto, using(beam_proc::proofs::UndoneSteps::taken))]
pub(crate) fn return_value(
    process: &mut Process,
    dropped: Option<u32>,
    after: After,
    value: Result<Term, Exception>,
) -> Result<Then, AllocError>
    requires runs { process.old.status ≡ Status.Running }
    requires can { CanDrop dropped process.old }
    requires follows { IsFollowed dropped after }
    ensures { Does process.old (answers (bare_if dropped process.old) after value) result process.new }
{
    match dropped {
        Some(count) => process.drop_and_return_value(count, value),
        None => process.return_value(after, value),
    }
}
