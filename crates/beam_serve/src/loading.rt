//! The code and the process that a node begins with.
ghost use Rattle.std.specs.Prelude.{◌≡◌, ℕ, [], List, None, IfErr, OnOk};
ghost use Rattle.beam_machine.specs.declared.debug.DebugEvent.TheVariants.{Node as NodeEvent};
ghost use Rattle.beam_machine.specs.declared.event.Event.TheVariants.{Spawn};
ghost use Rattle.beam_model.specs.Heads.{IsWellFormed};
ghost use Rattle.beam_model.specs.Listing.{Listing};
ghost use Rattle.beam_serve.specs.Loading.{Begins, IsReply, Keeps, LoadsFiles, load_of, texts};
ghost use Rattle.beam_tools.specs.Call.{IsFileOf};
ghost use Rattle.beam_tools.specs.Job.{IsOfPort};

use crate::seat_desk::SeatDesk;
use beam_image::Image;
use beam_machine::command::Response;
use beam_machine::debug::DebugEvent;
use beam_machine::event::{Event, Refused};
use beam_queue::QueueBrand;
use beam_receipts::brand::NodeBrand;
use beam_remote::Desk;
use beam_tools::fault::{FileFault, FileFaultKind};
use beam_tools::files::Files;
use beam_tools::job::{JobFault, start_event};
use beam_tools::line::{Serve, Start};
use beam_tools::load::image_of;
use log::Log;
use std::alloc::Global;
use std::sync::Wait;

/// Why a desk doesn't accept an event.
enum EventRefusal {
    Refused(Refused),
    JournalFull,
}

/// Why the response says that an event isn't accepted. It is never `Busy`: no process is checked out before schedulers run.
fn refusal_in(response: Response) -> Option<EventRefusal>
    ensures { result ≡ None → IsReply response }
{
    match response {
        Response::Refused(refused) => Some(EventRefusal::Refused(refused)),
        Response::Busy => Some(EventRefusal::Refused(Refused::NotReady)),
        Response::JournalFull => Some(EventRefusal::JournalFull),
        _ => None,
    }
}

/// Gives the desk an event.
#[tactic(auto, using(crate::proofs::NodeStart::kept_if_reply))]
fn apply_event<B: NodeBrand + QueueBrand, R: Wait + Log + AllocGlobal>(
    desk: &mut SeatDesk<'_, B, R>,
    event: Event<Image>,
) -> Result<(), EventRefusal>
    ensures kept { OnOk result (Keeps desk.old (NodeEvent event) desk.new) }
{
    match refusal_in(desk.command(DebugEvent::Node(event))) {
        Some(refusal) => Err(refusal),
        None => Ok(()),
    }
}

/// Reads a file, prepares it, and loads it.
fn load<'a, F: Files, B: NodeBrand + QueueBrand, R: Wait + Log + AllocGlobal>(
    alloc: Global,
    files: &mut F,
    desk: &mut SeatDesk<'_, B, R>,
    line: &Serve<'a>,
    name: &'a str,
) -> Result<(), JobFault<'a>>
    ensures loaded { OnOk result ((l : Listing) × IsFileOf (F.contents files.old) name.now l × IsWellFormed l × Keeps desk.old (load_of l) desk.new) }
    ensures keeps { (n : List ℕ) → F.contents files.new n ≡ F.contents files.old n }
    ensures fault { IfErr result (IsOfPort line.now.port) }
{
    let image = match image_of(alloc, files, name) {
        Ok(image) => image,
        Err(why) => return Err(JobFault::File(FileFault { name, why })),
    };
    match apply_event(desk, Event::Load(image)) {
        Ok(()) => Ok(()),
        Err(EventRefusal::JournalFull) => Err(JobFault::JournalFull),
        Err(EventRefusal::Refused(refused)) => Err(JobFault::File(FileFault {
            name,
            why: FileFaultKind::Refused(refused),
        })),
    }
}

/// Starts a process, as a command of the desk.
#[tactic(auto, using(crate::proofs::Ports::starting_is))]
fn start_process<'a, B: NodeBrand + QueueBrand, R: Wait + Log + AllocGlobal>(
    alloc: Global,
    desk: &mut SeatDesk<'_, B, R>,
    line: &Serve<'a>,
    start: &Start<'a>,
) -> Result<(), JobFault<'a>>
    ensures started { OnOk result (Keeps desk.old (NodeEvent (Spawn start.now.module.now start.now.function.now [])) desk.new) }
    ensures fault { IfErr result (IsOfPort line.now.port) }
{
    let event = match start_event(alloc, start) {
        Ok(event) => event,
        Err(fault) => return Err(fault),
    };
    match apply_event(desk, event) {
        Ok(()) => Ok(()),
        Err(EventRefusal::JournalFull) => Err(JobFault::JournalFull),
        Err(EventRefusal::Refused(refused)) => Err(JobFault::Start(refused)),
    }
}

/// Loads files in order, up to the first that isn't loaded.
fn load_all<'a, F: Files, B: NodeBrand + QueueBrand, R: Wait + Log + AllocGlobal>(
    alloc: Global,
    files: &mut F,
    desk: &mut SeatDesk<'_, B, R>,
    line: &Serve<'a>,
    names: &[&'a str],
) -> Result<(), JobFault<'a>>
    ensures loaded { OnOk result (LoadsFiles (F.contents files.old) (texts names.now) desk.old desk.new) }
    ensures fault { IfErr result (IsOfPort line.now.port) }
{
    for name in names {
        if let Err(fault) = load(alloc, files, desk, line, name) {
            return Err(fault);
        }
    }
    Ok(())
}

/// Loads the files of the line in order, and starts its process, as commands of the desk, up to the first that is refused.
pub fn load_and_start<'a, F: Files, B: NodeBrand + QueueBrand, R: Wait + Log + AllocGlobal>(
    alloc: Global,
    files: &mut F,
    desk: &mut SeatDesk<'_, B, R>,
    line: &Serve<'a>,
) -> Result<(), JobFault<'a>>
    ensures begun { OnOk result (Begins (F.contents files.old) (texts line.now.files.items) line.now.start desk.old desk.new) }
    ensures fault { IfErr result (IsOfPort line.now.port) }
{
    load_all(alloc, files, desk, line, &line.files)?;
    match &line.start {
        Some(start) => start_process(alloc, desk, line, start),
        None => Ok(()),
    }
}
