//! A call of a function, up to its end or the end of its budget.
ghost use Rattle.std.specs.Prelude.{◌≡◌, ◌≤◌, IfErr, IfOk, IsErrOf, List, Ok, vec_len};
ghost use Rattle.std.specs.Result.{IsOkUnless};
ghost use Rattle.beam_term.specs.TermValue.{TermValue, list_of};
ghost use Rattle.beam_model.specs.TextReading.{term_of_text};
ghost use Rattle.beam_machine.specs.Next.{next};
ghost use Rattle.beam_tools.specs.Call.{AreArguments, ComesTo, StartsCall};
ghost use Rattle.beam_tools.specs.Fault.{status_of};
ghost use Rattle.beam_tools.specs.Node.{CallSays, EntrySays};
ghost use Rattle.beam_tools.specs.Options.{call_line};
ghost use Rattle.beam_tools.specs.Rounds.{RunsNoRows};

use crate::arguments::{NoElements, elements};
use crate::early_exit::Wrong;
use crate::fault::RunFault;
use crate::files::Files;
use crate::line::Call;
use crate::load::load_files;
use crate::rounds::{CallOutcome, Rounds, happen};
use beam_core::node::Core;
use beam_erltext::{TextError, read_erl};
use beam_image::Image;
use beam_machine::event::{Event, Refused, SpawnArguments};
use beam_term::{Atom, AtomError, Term};
use std::alloc::Global;

fn module_of<'a>(alloc: Global, call: &Call<'a>) -> Result<Atom, RunFault<'a>>
    ensures text { IfOk result (λ a. a ≡ call.now.module.now) }
    ensures fault { IfErr result (EntrySays (call_line call.now)) }
{
    match Atom::new(alloc, call.module) {
        Ok(atom) => Ok(atom),
        Err(AtomError::TooLong) => Err(RunFault::Wrong(Wrong::LongModule(call.module))),
        Err(AtomError::NoMemory) => Err(RunFault::NoMemory),
    }
}

fn function_of<'a>(alloc: Global, call: &Call<'a>) -> Result<Atom, RunFault<'a>>
    ensures text { IfOk result (λ a. a ≡ call.now.function.now) }
    ensures fault { IfErr result (EntrySays (call_line call.now)) }
{
    match Atom::new(alloc, call.function) {
        Ok(atom) => Ok(atom),
        Err(AtomError::TooLong) => Err(RunFault::Wrong(Wrong::LongFunction(call.function))),
        Err(AtomError::NoMemory) => Err(RunFault::NoMemory),
    }
}

fn items_of(alloc: Global, text: &str) -> Result<Vec<Term>, NoElements>
    ensures list { IfOk result (λ v. term_of_text text.now ≡ Ok (list_of v.items)) }
    ensures few { IfOk result (λ v. vec_len v ≤ 255) }
    ensures no_list { IsErrOf result NoElements.NoList → (xs : List TermValue) → AreArguments text.now xs → ⊥ }
{
    match read_erl(alloc, text) {
        Ok(term) => elements(alloc, &term),
        Err(TextError::Syntax(_)) => Err(NoElements::NoList),
        Err(TextError::NoMemory) => Err(NoElements::NoMemory),
    }
}

fn arguments_of<'a>(alloc: Global, call: &Call<'a>) -> Result<SpawnArguments, RunFault<'a>>
    ensures list { IfOk result (λ xs. AreArguments call.now.arguments.now xs) }
    ensures fault { IfErr result (EntrySays (call_line call.now)) }
{
    match items_of(alloc, call.arguments) {
        Ok(items) => match SpawnArguments::new(items) {
            Some(arguments) => Ok(arguments),
            None => Err(RunFault::Wrong(Wrong::NoList(call.arguments))),
        },
        Err(NoElements::NoList) => Err(RunFault::Wrong(Wrong::NoList(call.arguments))),
        Err(NoElements::NoMemory) => Err(RunFault::NoMemory),
    }
}

/// The event that starts a process with the function of a call.
///
/// `Wrong` where a name has more than 255 characters or the text of the arguments is no list of at most 255 terms; `NoMemory`.
pub fn start_of<'a>(alloc: Global, call: &Call<'a>) -> Result<Event<Image>, RunFault<'a>>
    ensures event { IfOk result (λ e. StartsCall (call_line call.now) e) }
    ensures fault { IfErr result (EntrySays (call_line call.now)) }
{
    let module = module_of(alloc, call)?;
    let function = function_of(alloc, call)?;
    let arguments = arguments_of(alloc, call)?;
    Ok(Event::Spawn {
        module,
        function,
        arguments,
    })
}

// Starts a process.
fn start(node: &mut Core, event: Event<Image>) -> Result<(), Refused>
    requires { RunsNoRows event }
    ensures state { IfOk result (λ _. node.new ≡ (next node.old event).state) }
    ensures memory { IsOkUnless result Refused.NoMemory }
{
    happen(node, &event)
}

/// Loads the files, starts the function, and runs it in rounds. Answers the outcome, and how many rows were run.
///
/// `Wrong` as of `start_of`, before any file is read; `File` with the first file that isn't loaded; `NoMemory`.
pub fn call<'a, F: Files>(
    alloc: Global,
    call: &Call<'a>,
    files: &mut F,
) -> Result<(CallOutcome, u32), RunFault<'a>>
    ensures comes { IfOk result (λ o. ComesTo (F.contents files.old) (call_line call.now) o.0) }
    ensures fault { IfErr result (CallSays (F.contents files.old) (call_line call.now)) }
    ensures wrong { IfErr result (λ f. status_of f ≡ 2 → files.new ≡ files.old) }
{
    let event = match start_of(alloc, call) {
        Ok(event) => event,
        Err(fault) => return Err(fault),
    };
    let mut rounds = Rounds::new(Core::new(alloc), call.steps);
    load_files(alloc, &mut rounds.node, files, &call.files)?;
    start(&mut rounds.node, event)?;
    match rounds.run() {
        Ok(outcome) => Ok((outcome, call.steps.saturating_sub(rounds.left))),
        Err(_refused) => Err(RunFault::NoMemory),
    }
}
