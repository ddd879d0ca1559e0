//! Processes that start.
ghost use Rattle.std.specs.Prelude.{◌≡◌, IfOk};
ghost use Rattle.beam_state.specs.Parts.{AnswersByProcesses, AcceptedByProcesses};

use crate::processes::Processes;
use beam_image::Image;
use beam_machine::event::{Event, Refused, Reply, SpawnArguments};
use beam_proc::process::Process;
use beam_term::{Atom, Term};
use std::alloc::{AllocError, Global};

fn copies(alloc: Global, arguments: &SpawnArguments) -> Result<Vec<Term>, AllocError>
    ensures { IfOk result (λ copies. copies.items ≡ arguments.now) }
{
    Ok(arguments.as_slice().to_vec(alloc)?)
}

/// Starts a process. `TooMany` where 2^28 - 1 were started.
pub(crate) fn spawn(
    alloc: Global,
    processes: &mut Processes,
    name: &Atom,
    function: &Atom,
    arguments: &SpawnArguments,
) -> Result<Reply, Refused>
    ensures next { AnswersByProcesses processes.old (Event.Spawn name.now function.now arguments.now) result processes.new }
    ensures memory { AcceptedByProcesses processes.old (Event.Spawn name.now function.now arguments.now) result }
{
    let Ok(count) = u32::try_from(processes.as_slice().len()) else {
        return Err(Refused::TooMany);
    };
    if count >= (1 << 28) - 1 {
        return Err(Refused::TooMany);
    }
    let _few = arguments.as_slice();
    let arguments = copies(alloc, arguments)?;
    let process = Process::start(
        alloc,
        processes.known(alloc)?,
        count + 1,
        name.clone()?,
        function.clone()?,
        arguments,
    )?;
    processes.push(alloc, process)?;
    Ok(Reply::Started(count + 1))
}
