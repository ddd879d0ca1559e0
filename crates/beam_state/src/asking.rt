//! Natives that the node answers to the processes that ask for them.
ghost use Rattle.std.specs.Prelude.{◌≡◌, false, true, List, Some, None, IfOk};
ghost use Rattle.beam_model.specs.declared.native.NodeNative.TheVariants as native;
ghost use Rattle.beam_machine.specs.Process.{Process as TheProcess};
ghost use Rattle.beam_machine.specs.Row.{answers, arguments_of};
ghost use Rattle.beam_machine.specs.State.{process_of};
ghost use Rattle.beam_laws.specs.Private.{posted_all};
ghost use Rattle.beam_state.specs.Asking.{IsAsking, AreRead, EndsAfter, AnswersNative, MadeBy, CanDrop, IsFollowed, bare_if};
ghost use Rattle.beam_state.specs.Returns.{does_send, is_make_ref, posted_if};
ghost use Rattle.beam_state.specs.Parts.{then_at};
ghost use Rattle.beam_state.specs.Posting.{AreLawful};

use crate::ends::{end_at, tell};
use crate::names::running;
use crate::natives::{answer_of, next_reference, sending};
use crate::posting::take_all_back;
use crate::processes::Processes;
use crate::requests::runner;
use crate::returning;
use beam_machine::callee::After;
use beam_machine::event::Then;
use beam_model::exception::Exception;
use beam_model::native::NodeNative;
use beam_proc::private::Sent;
use beam_proc::returning::Continuation;
use beam_term::Term;
use std::alloc::{AllocError, Global};

/// A process that asks for a native: where it is, how many y registers it drops before the native, and what follows.
#[derive(Drop)]
struct Asker {
    index: usize,
    pid: u32,
    dropped: Option<u32>,
    after: After,
}

/// Gives a process a value, or raises an exception in it. If that ends it, all that monitor it are sent a DOWN. Where memory is refused
/// nothing changes.
fn return_value(
    alloc: Global,
    processes: &mut Processes,
    references: u32,
    asker: &Asker,
    value: Result<Term, Exception>,
) -> Result<Then, AllocError>
    requires asking { IsAsking asker.now.index asker.now.pid asker.now.dropped asker.now.after processes.old }
    requires lawful { AreLawful references processes.old }
    ensures { MadeBy asker.now.pid (λ p. answers (bare_if asker.now.dropped p) asker.now.after value) processes.old result processes.new }
{
    let index = asker.index;
    let dropped = asker.dropped;
    let after = asker.after;
    let then = processes.change(
        index,
        |process| returning::return_value(process, dropped, after, value),
    )?;
    match then {
        Then::Ended { reason, value } => {
            end_at(
                alloc, processes, references, index, asker.pid, reason, value,
            )
        }
        Then::GoesOn => Ok(Then::GoesOn),
        Then::Waits => Ok(Then::Waits),
    }
}

/// Answers the next reference to a process.
fn make_ref(
    alloc: Global,
    processes: &mut Processes,
    references: &mut u32,
    asker: &Asker,
    arguments: &[Term],
) -> Result<Then, AllocError>
    requires asking { IsAsking asker.now.index asker.now.pid asker.now.dropped asker.now.after processes.old }
    requires lawful { AreLawful references.old processes.old }
    ensures { AnswersNative asker.now.pid asker.now.dropped native.MakeRef arguments.now asker.now.after references.old processes.old result
        references.new processes.new }
{
    match next_reference(alloc, processes, *references, arguments)? {
        Ok(reference) => {
            let then = return_value(alloc, processes, *references, asker, Ok(reference))?;
            *references += 1;
            Ok(then)
        }
        Err(fault) => {
            return_value(
                alloc,
                processes,
                *references,
                asker,
                Err(Exception::Fault(fault)),
            )
        }
    }
}

/// Answers a native to a process that goes on if the native has a value.
fn ask_on(
    alloc: Global,
    processes: &mut Processes,
    references: &mut u32,
    asker: &Asker,
    native: NodeNative,
    arguments: &[Term],
    prepared: Continuation,
) -> Result<Then, AllocError>
    requires asking { IsAsking asker.now.index asker.now.pid asker.now.dropped asker.now.after processes.old }
    requires lawful { AreLawful references.old processes.old }
    requires read { AreRead asker.now.pid arguments.now processes.old }
    requires other { is_make_ref native ≡ false }
    requires prepared { prepared ≡ asker.now.after }
    requires stays { EndsAfter asker.now.pid asker.now.dropped asker.now.after None processes.old }
    ensures { AnswersNative asker.now.pid asker.now.dropped native arguments.now asker.now.after references.old processes.old result
        references.new processes.new }
{
    match answer_of(alloc, processes, references, asker.pid, native, arguments)? {
        Ok(value) => {
            let dropped = asker.dropped;
            Ok(processes.change(
                asker.index,
                |process| returning::return_prepared(process, dropped, prepared, value),
            ))
        }
        Err(fault) => {
            return_value(
                alloc,
                processes,
                *references,
                asker,
                Err(Exception::Fault(fault)),
            )
        }
    }
}

/// A list of this signal alone, or of none.
fn alone(alloc: Global, sent: Option<Sent>) -> Result<Vec<Sent>, AllocError>
    ensures { IfOk result (λ all. (ps : List TheProcess) → posted_all ps all.items ≡ posted_if ps sent) }
{
    let mut all = Vec::new(alloc);
    if let Some(sent) = sent {
        all.push(sent)?;
    }
    Ok(all)
}

/// Answers a native that sends a signal to a process that ends if the native has a value: the signal is sent, and then the DOWNs of the
/// end.
fn send_last(
    alloc: Global,
    processes: &mut Processes,
    references: u32,
    asker: &Asker,
    native: NodeNative,
    arguments: &[Term],
    prepared: Continuation,
    reason: &Term,
) -> Result<Then, AllocError>
    requires asking { IsAsking asker.now.index asker.now.pid asker.now.dropped asker.now.after processes.old }
    requires lawful { AreLawful references processes.old }
    requires read { AreRead asker.now.pid arguments.now processes.old }
    requires sends { does_send native ≡ true }
    requires prepared { prepared ≡ asker.now.after }
    requires ends { EndsAfter asker.now.pid asker.now.dropped asker.now.after (Some reason.now) processes.old }
    ensures { AnswersNative asker.now.pid asker.now.dropped native arguments.now asker.now.after references processes.old result references processes.new }
{
    let dropped = asker.dropped;
    match sending(alloc, processes, asker.pid, native, arguments)? {
        Ok((value, sent)) => {
            let first = alone(alloc, sent)?;
            let _told = tell(first, processes, references, asker.pid, reason)?;
            Ok(processes.change(
                asker.index,
                |process| returning::return_prepared(process, dropped, prepared, value),
            ))
        }
        Err(fault) => {
            return_value(
                alloc,
                processes,
                references,
                asker,
                Err(Exception::Fault(fault)),
            )
        }
    }
}

/// Answers any other native to a process that ends if the native has a value. The DOWNs of the end are posted before, and taken back where
/// the native has a fault or memory is refused.
fn ask_last(
    alloc: Global,
    processes: &mut Processes,
    references: &mut u32,
    asker: &Asker,
    native: NodeNative,
    arguments: &[Term],
    prepared: Continuation,
    reason: &Term,
) -> Result<Then, AllocError>
    requires asking { IsAsking asker.now.index asker.now.pid asker.now.dropped asker.now.after processes.old }
    requires lawful { AreLawful references.old processes.old }
    requires read { AreRead asker.now.pid arguments.now processes.old }
    requires other { is_make_ref native ≡ false }
    requires silent { does_send native ≡ false }
    requires prepared { prepared ≡ asker.now.after }
    requires ends { EndsAfter asker.now.pid asker.now.dropped asker.now.after (Some reason.now) processes.old }
    ensures { AnswersNative asker.now.pid asker.now.dropped native arguments.now asker.now.after references.old processes.old result
        references.new processes.new }
{
    let dropped = asker.dropped;
    let told = tell(Vec::new(alloc), processes, *references, asker.pid, reason)?;
    match answer_of(alloc, processes, references, asker.pid, native, arguments) {
        Ok(Ok(value)) => Ok(processes.change(
            asker.index,
            |process| returning::return_prepared(process, dropped, prepared, value),
        )),
        Ok(Err(fault)) => {
            take_all_back(processes, &told);
            return_value(
                alloc,
                processes,
                *references,
                asker,
                Err(Exception::Fault(fault)),
            )
        }
        Err(refused) => {
            take_all_back(processes, &told);
            Err(refused)
        }
    }
}

/// The reason with which a process ends where the native for which it asks has a value, if it ends then.
fn end_of(
    processes: &Processes,
    asker: &Asker,
    prepared: &Continuation,
) -> Result<Option<Term>, AllocError>
    requires asking { IsAsking asker.now.index asker.now.pid asker.now.dropped asker.now.after processes.now }
    requires prepared { prepared.now ≡ asker.now.after }
    ensures { IfOk result (λ reason. EndsAfter asker.now.pid asker.now.dropped asker.now.after reason processes.now) }
{
    let process = runner(processes, asker.index);
    match returning::end_after(process, asker.dropped, prepared) {
        Some(reason) => Ok(Some(reason.clone()?)),
        None => Ok(None),
    }
}

/// Answers a native to a process that runs and asks for it. The process drops its y registers before, if `dropped` says how many: exactly
/// as many as it has.
pub(crate) fn ask(
    processes: &mut Processes,
    references: &mut u32,
    pid: u32,
    dropped: Option<u32>,
    native: NodeNative,
    arity: u32,
    after: After,
) -> Result<Then, AllocError>
    requires runs { then_at processes.old pid ≡ Some Then.GoesOn }
    requires can { (p : TheProcess) → process_of processes.old pid ≡ Some p → CanDrop dropped p }
    requires follows { IsFollowed dropped after }
    requires lawful { AreLawful references.old processes.old }
    ensures { (p : TheProcess) → process_of processes.old pid ≡ Some p
        → AnswersNative pid dropped native (arguments_of p arity) after references.old processes.old result references.new processes.new }
{
    let index = running(processes.as_slice(), pid);
    let process = runner(processes, index);
    let alloc = process.alloc();
    let arguments = process.arguments(arity)?;
    let asker = Asker {
        index,
        pid,
        dropped,
        after,
    };
    let prepared = Continuation::new(alloc, process.known(), asker.after)?;
    if let NodeNative::MakeRef = native {
        return make_ref(alloc, processes, references, &asker, &arguments);
    }
    let last = end_of(processes, &asker, &prepared)?;
    match last {
        None => ask_on(
            alloc, processes, references, &asker, native, &arguments, prepared,
        ),
        Some(reason) => match native {
            NodeNative::Exit | NodeNative::Send => {
                send_last(
                    alloc,
                    processes,
                    *references,
                    &asker,
                    native,
                    &arguments,
                    prepared,
                    &reason,
                )
            }
            _ => {
                ask_last(
                    alloc, processes, references, &asker, native, &arguments, prepared, &reason,
                )
            }
        },
    }
}
