//! Events as the commands that they are: their images as files.
ghost use Rattle.std.specs.Prelude.{◌≡◌, IfOk};
ghost use Rattle.beam_machine.specs.declared.debug.DebugEvent.TheVariants.{Node};
ghost use Rattle.beam_records.specs.JournalFile.{AreImages, IsEventOf, IsImage};

use beam_image::Image;
use beam_machine::command::{Bytes, Command};
use beam_machine::copies::TryCopy;
use beam_machine::debug::{DebugEvent, Spot};
use beam_machine::event::{Event, Images};
use std::alloc::{AllocError, Global};

/// A file of an image.
#[tactic(auto, using(crate::proofs::Images::image_of))]
fn file_of(alloc: Global, image: &Image) -> Result<Bytes, AllocError>
    ensures { IfOk result (λ file. IsImage file image.now) }
{
    image.recall_invariant();
    let file = image.file(alloc)?;
    Ok(Bytes::new(file))
}

/// Files of images, in their order.
fn files_of(alloc: Global, images: &[Image]) -> Result<Vec<Bytes>, AllocError>
    ensures { IfOk result (λ files. AreImages files.items images.now) }
{
    let mut files = Vec::new(alloc);
    for image in images {
        let file = file_of(alloc, image)?;
        let Ok(()) = files.push(file) else {
            return Err(AllocError);
        };
    }
    Ok(files)
}

/// A copy of a spot.
fn copy_of(spot: &Spot) -> Result<Spot, AllocError>
    ensures { IfOk result (λ copy. copy ≡ spot.now) }
{
    Ok(Spot {
        version: spot.version,
        module: spot.module.clone()?,
        label: spot.label,
        rows: spot.rows,
    })
}

/// An event of the node with files in the place of its images. Its terms are shared.
pub(crate) fn with_files(alloc: Global, event: &Event<Image>) -> Result<Event<Bytes>, AllocError>
    ensures { IfOk result (λ command. IsEventOf (Node command) (Node event.now)) }
{
    Ok(match event {
        Event::Load(image) => Event::Load(file_of(alloc, image)?),
        Event::LoadStrict(image) => Event::LoadStrict(file_of(alloc, image)?),
        Event::AtomicLoad { mode, images } => Event::AtomicLoad {
            mode: *mode,
            images: Images::new(files_of(alloc, images.as_slice())?),
        },
        Event::Delete(module) => Event::Delete(module.clone()?),
        Event::SoftPurge(module) => Event::SoftPurge(module.clone()?),
        Event::Purge(module) => Event::Purge(module.clone()?),
        Event::Versions(module) => Event::Versions(module.clone()?),
        Event::Spawn {
            module,
            function,
            arguments,
        } => Event::Spawn {
            module: module.clone()?,
            function: function.clone()?,
            arguments: arguments.try_copy(alloc)?,
        },
        Event::Send { to, message } => Event::Send {
            to: to.clone()?,
            message: message.clone()?,
        },
        Event::Steps { pid, rows } => Event::Steps {
            pid: *pid,
            rows: *rows,
        },
        Event::Deliver { pid } => Event::Deliver { pid: *pid },
        Event::Clock { now } => Event::Clock { now: *now },
        Event::Timeout { pid } => Event::Timeout { pid: *pid },
    })
}

/// The command that an event is, with files for its images.
pub(crate) fn command_of(alloc: Global, event: &DebugEvent<Image>) -> Result<Command, AllocError>
    ensures { IfOk result (λ c. IsEventOf c event.now) }
{
    Ok(match event {
        DebugEvent::Node(event) => DebugEvent::Node(with_files(alloc, event)?),
        DebugEvent::SetBreak(spot) => DebugEvent::SetBreak(copy_of(spot)?),
        DebugEvent::ClearBreak(spot) => DebugEvent::ClearBreak(copy_of(spot)?),
        DebugEvent::Resume { pid } => DebugEvent::Resume { pid: *pid },
        DebugEvent::StepOne { pid } => DebugEvent::StepOne { pid: *pid },
        DebugEvent::Inspect { pid } => DebugEvent::Inspect { pid: *pid },
    })
}
