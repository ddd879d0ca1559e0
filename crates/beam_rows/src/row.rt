//! One row of a process.
ghost use Rattle.std.specs.Prelude.{◌≡◌, ◌&&◌, false, OnErr};
ghost use Rattle.beam_machine.specs.declared.process.Goes.TheVariants.{At};
ghost use Rattle.beam_machine.specs.Code.{step_of};
ghost use Rattle.beam_machine.specs.Row.{perform, performs, outcome};
ghost use Rattle.beam_machine.specs.Quiet.{is_quiet_action, is_quiet, is_calm};
ghost use Rattle.beam_model.specs.Place.{Place as ThePlace};
ghost use Rattle.beam_rows.specs.Asked.{is_quiet_row, without_exception, Performs};
ghost use Rattle.beam_shape_laws.specs.Finds.{Finds, FindsAt, FindsNext};

use crate::calls::calls;
use crate::catching::catch_rows;
use crate::computes::computes;
use crate::controls::controls;
use crate::data::moves;
use crate::fetch::Fetcher;
use crate::messaging::message_rows;
use crate::request::RowOutcome;
use crate::row_error::finish;
use crate::stacks::stacks;
use crate::tests::tests;
use beam_codesrv::code_table::CodeTable;
use beam_image::callee::callee_named;
use beam_machine::action::{Action, Step};
use beam_machine::callee::After;
use beam_machine::process::{Goes, Status};
use beam_model::place::Place;
use beam_proc::process::Process;
use std::alloc::AllocError;

/// Executes the row of an action. `next` is the row after it.
fn perform(
    code: &CodeTable,
    process: &mut Process,
    next: Place,
    action: &Action<'_>,
) -> Result<RowOutcome, AllocError>
    requires runs { process.old.status ≡ Status.Running }
    requires stands { (here : ThePlace) × (process.old.goes ≡ At here) }
    requires finds { Finds action.now process.old }
    ensures does { Performs process.old (perform code.now action.now next process.old) result process.new }
    ensures loud { OnErr result ((is_quiet_action action.now && is_calm (perform code.now action.now next (without_exception process.old))) ≡ false) }
{
    match action {
        Action::Test { test, fail } => {
            let Some(at) = tests(process, next, test, *fail) else {
                unreachable!();
            };
            Ok(RowOutcome::Made(process.go_on(Place::new(next.instance(), at))))
        }
        Action::Compute { compute, fail } => Ok(RowOutcome::Made(computes(
            process, next, compute, *fail,
        )?)),
        Action::Data(data) => {
            let row = moves(process, next, data);
            finish(process, next.instance(), row)
        }
        Action::Control(control) => controls(code, process, next, control),
        Action::Stack(stack) => {
            let row = stacks(process, next, stack);
            finish(process, next.instance(), row)
        }
        Action::Catching(catching) => Ok(RowOutcome::Made(catch_rows(process, next, catching)?)),
        Action::Messaging(messaging) => message_rows(process, next, messaging),
    }
}

/// Executes the row at a place. After the last instruction comes a row of a wrong shape.
#[tactic(auto, using(beam_proc::proofs::Loud::illegal_loud))]
fn row_at(
    code: &CodeTable,
    process: &mut Process,
    place: Place,
    step: Option<Step<'_>>,
) -> Result<RowOutcome, AllocError>
    requires runs { process.old.status ≡ Status.Running }
    requires stands { process.old.goes ≡ At place }
    requires there { step ≡ step_of code.now place }
    requires finds { FindsAt (step_of code.now place) process.old }
    ensures does { Performs process.old (performs code.now place.instance (step_of code.now place) process.old) result process.new }
    ensures loud { OnErr result (is_quiet_row code.now place process.old ≡ false) }
{
    match step {
        Some(step) => {
            let next = Place::new(place.instance(), step.next);
            perform(code, process, next, &step.action)
        }
        None => Ok(RowOutcome::Made(process.illegal()?)),
    }
}

/// Executes the next row of a process that runs. It is executed wholly; or it would end the process, or asks something of the node, and
/// nothing changes. `AllocError` where memory is refused, which a quiet row isn't; then nothing changes.
pub(crate) fn private_row(
    fetcher: &mut Fetcher<'_>,
    process: &mut Process,
) -> Result<RowOutcome, AllocError>
    requires runs { process.old.status ≡ Status.Running }
    requires finds { FindsNext fetcher.old process.old.goes process.old }
    ensures code { fetcher.new ≡ fetcher.old }
    ensures does { Performs process.old (outcome fetcher.old process.old) result process.new }
    ensures loud { OnErr result (is_quiet fetcher.old process.old ≡ false) }
{
    match process.goes() {
        Goes::At(place) => {
            let place = *place;
            let step = fetcher.step(place);
            row_at(fetcher.code(), process, place, step)
        }
        Goes::Enter {
            module,
            function,
            arity,
        } => {
            let callee = callee_named(module, function, *arity)?;
            calls(fetcher.code(), process, After::Return, &callee)
        }
        Goes::Nowhere => Ok(RowOutcome::Made(process.illegal()?)),
    }
}
