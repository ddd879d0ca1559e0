//! Calls of functions and natives.
ghost use Rattle.std.specs.Prelude.{◌≡◌, true, IfOk};
ghost use Rattle.beam_machine.specs.declared.callee.After.TheVariants.{Return};
ghost use Rattle.beam_machine.specs.Process.{bared};
ghost use Rattle.beam_machine.specs.Row.{asks, calls, calls_last, calls_only, applied, applies, callee_at};
ghost use Rattle.beam_model.specs.Native.{is_exit};
ghost use Rattle.beam_proc.specs.Does.{Does};
ghost use Rattle.beam_rows.specs.Asked.{after_drop, calls_after, enters_after, native_answers, Performs};

use crate::natives::native_value;
use crate::of_process::{call_of_process, call_of_process_last};
use crate::request::{Request, RowOutcome};
use beam_bif::name::is_exit;
use beam_codesrv::code_table::CodeTable;
use beam_image::callee::callee_named;
use beam_machine::callee::{After, Callee};
use beam_machine::event::Then;
use beam_machine::process::Status;
use beam_model::exception::Fault;
use beam_model::native::{Native, NodeNative};
use beam_model::place::Place;
use beam_proc::process::Process;
use beam_term::{Term, TermView};
use std::alloc::AllocError;

/// The call of a native.
fn call_native(
    process: &mut Process,
    native: Native,
    arity: u32,
    after: After,
) -> Result<RowOutcome, AllocError>
    requires { process.old.status ≡ Status.Running }
    ensures { Performs process.old (native_answers native arity after process.old) result process.new }
{
    let value = native_value(process, native, arity)?;
    Ok(RowOutcome::Made(process.return_value(after, value)?))
}

/// Enters a function, if it is there. A call that isn't in the place of a return pushes a frame first.
fn enter(process: &mut Process, after: After, entry: Option<Place>) -> Result<Then, AllocError>
    requires { process.old.status ≡ Status.Running }
    ensures { Does process.old (enters_after entry after process.old) result process.new }
{
    match after {
        After::NextRow(next) => process.push_and_enter(next, entry),
        After::Return => process.enter(entry),
    }
}

/// A call, after which the next row follows or a return.
#[tactic(auto, using(crate::proofs::Called::function, crate::proofs::Called::native, crate::proofs::Called::node, crate::proofs::Called::of_process, crate::proofs::Called::undefined))]
pub fn calls(
    code: &CodeTable,
    process: &mut Process,
    after: After,
    callee: &Callee,
) -> Result<RowOutcome, AllocError>
    requires { process.old.status ≡ Status.Running }
    ensures { Performs process.old (calls_after code.now callee.now after process.old) result process.new }
{
    match callee {
        Callee::Function {
            module,
            name,
            arity,
        } => {
            let entry = code.entry_of(module, name, *arity);
            Ok(RowOutcome::Made(enter(process, after, entry)?))
        }
        Callee::Native { native, arity } => call_native(process, *native, *arity, after),
        Callee::Node { native, arity } => Ok(RowOutcome::Asks(Request::Ask {
            native: *native,
            arity: *arity,
            after,
        })),
        Callee::OfProcess { native, arity } => call_of_process(process, *native, *arity, after),
        Callee::Undefined => Ok(RowOutcome::Made(process.fault(Fault::Undef)?)),
    }
}

/// The call of a native in the place of a return, after the dropping of y registers.
#[tactic(auto, using(crate::proofs::Dropped::native_dropping))]
fn call_native_last(
    process: &mut Process,
    count: u32,
    native: Native,
    arity: u32,
) -> Result<RowOutcome, AllocError>
    requires { process.old.status ≡ Status.Running }
    ensures { Performs process.old (after_drop count process.old (native_answers native arity Return)) result process.new }
{
    let value = native_value(process, native, arity)?;
    Ok(RowOutcome::Made(process.drop_and_return_value(count, value)?))
}

/// The call of a native of the node in the place of a return, after the dropping of y registers.
#[tactic(auto, using(crate::proofs::Dropped::not_dropping))]
fn ask_dropping(
    process: &mut Process,
    count: u32,
    native: NodeNative,
    arity: u32,
) -> Result<RowOutcome, AllocError>
    requires { process.old.status ≡ Status.Running }
    ensures { Performs process.old (after_drop count process.old (λ q. asks q native arity Return)) result process.new }
{
    if process.can_drop(count) {
        Ok(RowOutcome::Asks(Request::AskDropping {
            dropped: count,
            native,
            arity,
        }))
    } else {
        Ok(RowOutcome::Made(process.illegal()?))
    }
}

/// A call in the place of a return, after `count` y registers are dropped.
fn calls_dropping(
    code: &CodeTable,
    process: &mut Process,
    count: u32,
    callee: &Callee,
) -> Result<RowOutcome, AllocError>
    requires { process.old.status ≡ Status.Running }
    ensures { Performs process.old (after_drop count process.old (λ q. calls_only code.now callee.now q)) result process.new }
{
    match callee {
        Callee::Function {
            module,
            name,
            arity,
        } => {
            let entry = code.entry_of(module, name, *arity);
            Ok(RowOutcome::Made(process.drop_and_enter(count, entry)?))
        }
        Callee::Native { native, arity } => call_native_last(process, count, *native, *arity),
        Callee::Node { native, arity } => ask_dropping(process, count, *native, *arity),
        Callee::OfProcess { native, arity } => {
            call_of_process_last(process, count, *native, *arity)
        }
        Callee::Undefined => Ok(RowOutcome::Made(process.drop_and_fault(count, Fault::Undef)?)),
    }
}

/// The call of a native that never returns, after the dropping of all y registers.
#[tactic(auto, using(crate::proofs::Exits::exit_raises))]
fn call_exit(process: &mut Process, native: Native, arity: u32) -> Result<RowOutcome, AllocError>
    requires runs { process.old.status ≡ Status.Running }
    requires exits { is_exit native ≡ true }
    ensures { Performs process.old (native_answers native arity Return (bared process.old)) result process.new }
{
    match native_value(process, native, arity)? {
        Err(exception) => Ok(RowOutcome::Made(process.bare_and_raise(exception)?)),
        Ok(_) => unreachable!(),
    }
}

/// A call in the place of a return. It drops `count` y registers first, or all of them before a native that never returns.
pub fn calls_last(
    code: &CodeTable,
    process: &mut Process,
    count: u32,
    callee: &Callee,
) -> Result<RowOutcome, AllocError>
    requires { process.old.status ≡ Status.Running }
    ensures { Performs process.old (calls_last code.now count callee.now process.old) result process.new }
{
    match callee {
        Callee::Native { native, arity } if is_exit(*native) => {
            call_exit(process, *native, *arity)
        }
        _ => calls_dropping(code, process, count, callee),
    }
}

/// The function that apply calls by this module and this name. `None` where one of them is no atom.
fn applied(module: &Term, name: &Term, arity: u32) -> Result<Option<Callee>, AllocError>
    ensures { IfOk result (λ c. c ≡ applied «module».now name.now arity) }
{
    match (module.view(), name.view()) {
        (TermView::Atom(module), TermView::Atom(name)) => {
            Ok(Some(callee_named(module, name, arity)?))
        }
        _ => Ok(None),
    }
}

fn callee_at(process: &Process, arity: u32) -> Result<Option<Callee>, AllocError>
    ensures { IfOk result (λ c. c ≡ callee_at process.now arity) }
{
    let nil = Term::nil();
    let module = process.read_x(&nil, arity);
    let name = process.read_x_behind(&nil, arity);
    applied(module, name, arity)
}

/// A call of the function that the two registers after the arguments name.
pub fn apply(
    code: &CodeTable,
    process: &mut Process,
    next: Place,
    arity: u32,
) -> Result<RowOutcome, AllocError>
    requires { process.old.status ≡ Status.Running }
    ensures { Performs process.old (applies process.old (λ c. calls code.now c next process.old) (callee_at process.old arity)) result process.new }
{
    match callee_at(process, arity)? {
        Some(callee) => calls(code, process, After::NextRow(next), &callee),
        None => Ok(RowOutcome::Made(process.fault(Fault::Badarg)?)),
    }
}

/// A call, in the place of a return, of the function that the two registers after the arguments name. It drops `count` y registers first.
#[tactic(auto, using(crate::proofs::Dropped::apply_dropping))]
pub fn apply_last(
    code: &CodeTable,
    process: &mut Process,
    count: u32,
    arity: u32,
) -> Result<RowOutcome, AllocError>
    requires { process.old.status ≡ Status.Running }
    ensures { Performs process.old (after_drop count process.old (λ q. applies q (λ c. calls_only code.now c q) (callee_at q arity))) result process.new }
{
    match callee_at(process, arity)? {
        Some(callee) => calls_dropping(code, process, count, &callee),
        None => Ok(RowOutcome::Made(process.drop_and_fault(count, Fault::Badarg)?)),
    }
}
