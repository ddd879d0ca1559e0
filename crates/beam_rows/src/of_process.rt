//! Calls of natives that change their process alone: `demonitor`.
ghost use Rattle.std.specs.Prelude.{◌≡◌, option_map, IfOk};
ghost use Rattle.beam_machine.specs.declared.callee.After.TheVariants.{Return};
ghost use Rattle.beam_machine.specs.Process.{Process as TheProcess, dropped};
ghost use Rattle.beam_machine.specs.Row.{flush_in, demonitors, changed_by, arguments_of, after_dropping};
ghost use Rattle.beam_rows.specs.Asked.{Performs};
ghost use Rattle.beam_rows.specs.OfProcess.{without, called, TakesAway};

use crate::request::RowOutcome;
use beam_machine::callee::After;
use beam_machine::event::Then;
use beam_machine::process::Status;
use beam_model::exception::Fault;
use beam_model::native::ProcessNative;
use beam_proc::process::Process;
use beam_term::{Term, TermView};
use std::alloc::AllocError;

/// A reference that isn't to be monitored, and whether its first message is to go too.
#[derive(Drop)]
struct Demonitoring {
    reference: Term,
    flush: bool,
}

/// Whether the options say to flush. `None` where they are others.
fn flush_in(options: &Term) -> Option<bool>
    ensures { result ≡ flush_in options.now }
{
    match options.view() {
        TermView::Nil => Some(false),
        TermView::Pair(option, rest) => match (option.view(), rest.view()) {
            (TermView::Atom(text), TermView::Nil) if text.as_str() == "flush" => Some(true),
            _ => None,
        },
        _ => None,
    }
}

/// What demonitor does with this reference. `None` where it is none, or the options are wrong.
fn demonitoring_of(
    reference: &Term,
    flush: Option<bool>,
) -> Result<Option<Demonitoring>, AllocError>
    ensures { (q : TheProcess) → IfOk result (λ u. demonitors q reference.now flush ≡ option_map (λ u. without u q) u) }
{
    match (reference.view(), flush) {
        (TermView::Reference(_), Some(flush)) => Ok(Some(Demonitoring {
            reference: reference.clone()?,
            flush,
        })),
        _ => Ok(None),
    }
}

/// The change that a native makes by the first x registers. `None` where these are wrong arguments.
#[tactic(auto, using(crate::proofs::OfProcess::no_demonitor))]
fn change_of(
    process: &Process,
    native: ProcessNative,
    arity: u32,
) -> Result<Option<Demonitoring>, AllocError>
    ensures { (q : TheProcess) → IfOk result (λ u. changed_by q native (arguments_of process.now arity) ≡ option_map (λ u. without u q) u) }
{
    let nil = Term::nil();
    let ProcessNative::Demonitor = native;
    match arity {
        1 => demonitoring_of(process.read_x(&nil, 0), Some(false)),
        2 => {
            let flush = flush_in(process.read_x(&nil, 1));
            demonitoring_of(process.read_x(&nil, 0), flush)
        }
        _ => Ok(None),
    }
}

/// Makes the change, once the row was answered. A row that ends the process leaves nothing to change.
#[tactic(auto, using(crate::proofs::OfProcess::ends_without))]
fn change(process: &mut Process, change: &Demonitoring, answered: &Then)
    ensures { TakesAway change.now answered.now process.old process.new }
{
    if !matches!(answered, Then::Ended { .. }) {
        process.demonitor(&change.reference, change.flush);
    }
}

/// Calls a native that changes its process alone. All memory is taken before the change.
pub(crate) fn call_of_process(
    process: &mut Process,
    native: ProcessNative,
    arity: u32,
    after: After,
) -> Result<RowOutcome, AllocError>
    requires { process.old.status ≡ Status.Running }
    ensures { Performs process.old (called native arity after process.old) result process.new }
{
    let Some(demonitoring) = change_of(process, native, arity)? else {
        return Ok(RowOutcome::Made(process.fault(Fault::Badarg)?));
    };
    let value = process.known().truth(true)?;
    let then = process.return_value(after, Ok(value))?;
    change(process, &demonitoring, &then);
    Ok(RowOutcome::Made(then))
}

/// Calls a native that changes its process alone, in the place of a return, after `count` y registers are dropped. All memory is taken
/// before the change.
#[tactic(auto, using(crate::proofs::OfProcess::drops_without))]
pub(crate) fn call_of_process_last(
    process: &mut Process,
    count: u32,
    native: ProcessNative,
    arity: u32,
) -> Result<RowOutcome, AllocError>
    requires { process.old.status ≡ Status.Running }
    ensures { Performs process.old (after_dropping process.old (dropped count process.old process.old.frames) (called native arity Return)) result process.new }
{
    if !process.can_drop(count) {
        return Ok(RowOutcome::Made(process.illegal()?));
    }
    let Some(demonitoring) = change_of(process, native, arity)? else {
        return Ok(RowOutcome::Made(process.drop_and_fault(count, Fault::Badarg)?));
    };
    let value = process.known().truth(true)?;
    let then = process.drop_and_return_value(count, Ok(value))?;
    change(process, &demonitoring, &then);
    Ok(RowOutcome::Made(then))
}
