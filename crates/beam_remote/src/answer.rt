//! Commands and the events that they are.
ghost use Rattle.std.specs.Prelude.{◌≡◌, ◌⊎◌, IfErr, IfOk};
ghost use Rattle.beam_machine.specs.declared.debug.DebugEvent.TheVariants.{Node};
ghost use Rattle.beam_remote.specs.Serving.{Answered, ArePrepared, AreUnprepared, IsEvent, IsPrepared, IsUnloaded, IsUnprepared};

use crate::desk::Desk;
use beam_image::Image;
use beam_machine::command::{Bytes, Command, Response};
use beam_machine::debug::DebugEvent;
use beam_machine::event::{Event, Images, Refused};
use std::alloc::Global;

/// The image of a file, or the answer to its load where it has none.
pub(crate) fn prepare(alloc: Global, file: &Bytes) -> Result<Image, Response>
    ensures ok { IfOk result (λ l. IsPrepared file.now l) }
    ensures err { IfErr result (λ r. IsUnprepared file.now r) }
{
    match Image::prepare(alloc, file.as_slice()) {
        Ok(image) => Ok(image),
        Err(error) => {
            if error.is_memory() {
                return Err(Response::Refused(Refused::NoMemory));
            }
            Err(Response::BadFile {
                layer: error.layer(),
                number: error.number(),
            })
        }
    }
}

/// The images of files, in their order, or the answer to their load where one has none: the fault of the first such file.
fn prepare_all(alloc: Global, files: &[Bytes]) -> Result<Vec<Image>, Response>
    ensures ok { IfOk result (λ images. ArePrepared files.now images.items) }
    ensures err { IfErr result (λ r. AreUnprepared files.now r) }
{
    let mut images = Vec::new(alloc);
    for file in files {
        let image = prepare(alloc, file)?;
        let Ok(()) = images.push(image) else {
            return Err(Response::Refused(Refused::NoMemory));
        };
    }
    Ok(images)
}

/// An event of the node with the images of its files, or the answer where the files of a load can't be prepared.
fn with_images(alloc: Global, event: Event<Bytes>) -> Result<Event<Image>, Response>
    ensures ok { IfOk result (λ prepared. IsEvent (Node event) (Node prepared)) }
    ensures err { IfErr result (λ r. IsUnloaded (Node event) r) }
{
    Ok(match event {
        Event::Load(file) => Event::Load(prepare(alloc, &file)?),
        Event::LoadStrict(file) => Event::LoadStrict(prepare(alloc, &file)?),
        Event::AtomicLoad { mode, images } => Event::AtomicLoad {
            mode,
            images: Images::new(prepare_all(alloc, images.as_slice())?),
        },
        Event::Delete(module) => Event::Delete(module),
        Event::SoftPurge(module) => Event::SoftPurge(module),
        Event::Purge(module) => Event::Purge(module),
        Event::Versions(module) => Event::Versions(module),
        Event::Spawn {
            module,
            function,
            arguments,
        } => Event::Spawn {
            module,
            function,
            arguments,
        },
        Event::Send { to, message } => Event::Send { to, message },
        Event::Steps { pid, rows } => Event::Steps { pid, rows },
        Event::Deliver { pid } => Event::Deliver { pid },
        Event::Clock { now } => Event::Clock { now },
        Event::Timeout { pid } => Event::Timeout { pid },
    })
}

/// The event that a command is: its files are prepared, in their order, and all else of it stays as it is.
///
/// Refusals are the answers that the command would have: `BadFile` with the layer and the number of the fault of the first file that no image
/// can be made of, and `Refused(NoMemory)` where memory is refused. A command without a file has neither: it is always an event.
pub fn event_of(alloc: Global, command: Command) -> Result<DebugEvent<Image>, Response>
    ensures ok { IfOk result (λ event. IsEvent command event) }
    ensures err { IfErr result (λ r. IsUnloaded command r) }
{
    Ok(match command {
        DebugEvent::Node(event) => DebugEvent::Node(with_images(alloc, event)?),
        DebugEvent::SetBreak(spot) => DebugEvent::SetBreak(spot),
        DebugEvent::ClearBreak(spot) => DebugEvent::ClearBreak(spot),
        DebugEvent::Resume { pid } => DebugEvent::Resume { pid },
        DebugEvent::StepOne { pid } => DebugEvent::StepOne { pid },
        DebugEvent::Inspect { pid } => DebugEvent::Inspect { pid },
    })
}

/// Answers a command: its files are prepared, and its event is handed to the desk. Where files can't be prepared, the desk is handed
/// nothing.
pub(crate) fn answer<D: Desk>(alloc: Global, desk: &mut D, command: Command) -> Response
    ensures { Answered D.answers desk.old command result desk.new }
{
    match event_of(alloc, command) {
        Ok(event) => desk.command(event),
        Err(response) => response,
    }
}
