//! Views of a process.
ghost use Rattle.std.specs.Prelude.{◌≡◌, ◌++◌, map, option_map, IfOk};
ghost use Rattle.beam_machine.specs.Code.{listing_of};
ghost use Rattle.beam_machine.specs.View.{frame_view, next_of, slots_of, location, view_of};
ghost use Rattle.beam_debug.specs.Seen.{frame_seen, live_of, live_seen, next_seen, seen, location_seen};

use crate::location::location;
use crate::view::{FrameView, LiveView, Location, Next, RowView, View};
use beam_codesrv::CodeTable;
use beam_image::Image;
use beam_machine::process::{Goes, Slots, Status};
use beam_model::function::Import;
use beam_model::place::Place;
use beam_proc::entry::ProcessEntry;
use beam_proc::process::Process;
use beam_term::{Atom, Term};
use std::alloc::{AllocError, Global};

/// The image of an instance.
fn image(table: &CodeTable, number: u32) -> Result<Option<Image>, AllocError>
    ensures { IfOk result (λ i. i ≡ listing_of table.now number) }
{
    match table.image_of(number) {
        Some(image) => Ok(Some(image.try_share()?)),
        None => Ok(None),
    }
}

/// The first entry of a process.
fn entry(module: &Atom, function: &Atom, arity: u32) -> Result<Import, AllocError>
    ensures { IfOk result (λ f. f ≡ record { «module» = «module».now; function = function.now; arity = arity }) }
{
    Ok(Import {
        module: module.clone()?,
        function: function.clone()?,
        arity,
    })
}

/// What a process does next.
fn next(table: &CodeTable, goes: &Goes) -> Result<Next, AllocError>
    ensures { IfOk result (λ n. next_seen n ≡ next_of table.now goes.now) }
{
    match goes {
        Goes::At(place) => Ok(Next::Row(RowView {
            location: location(table, *place)?,
            image: image(table, place.instance())?,
            at: place.at(),
        })),
        Goes::Enter {
            module,
            function,
            arity,
        } => Ok(Next::Entry(entry(module, function, *arity)?)),
        Goes::Nowhere => Ok(Next::Nothing),
    }
}

/// Where a frame returns.
fn back(table: &CodeTable, place: Option<Place>) -> Result<Option<Location>, AllocError>
    ensures { IfOk result (λ s. option_map location_seen s ≡ option_map (location table.now) place) }
{
    match place {
        Some(place) => Ok(Some(location(table, place)?)),
        None => Ok(None),
    }
}

/// The views of a process's frames, the newest first.
#[tactic(auto, using(crate::proofs::Walks::one_more, crate::proofs::Walks::none_more, beam_stack::proofs::Tags::fewer, beam_stack::proofs::Tags::none_left))]
fn frames(alloc: Global, table: &CodeTable, process: &Process) -> Result<Vec<FrameView>, AllocError>
    ensures { IfOk result (λ views. map frame_seen views.items ≡ map (frame_view table.now) process.now.frames) }
{
    let mut views = Vec::new(alloc);
    let mut walk = process.walk();
    while !walk.is_done() {
        let back = back(table, walk.back())?;
        let Slots { items: y } = walk.y(alloc)?;
        views.push(FrameView { back, y })?;
        walk.pass();
    }
    Ok(views)
}

fn copy_status(status: &Status) -> Result<Status, AllocError>
    ensures { IfOk result (λ copy. copy ≡ status.now) }
{
    match status {
        Status::Running => Ok(Status::Running),
        Status::Waiting => Ok(Status::Waiting),
        Status::Ended { reason, value } => Ok(Status::Ended {
            reason: reason.clone()?,
            value: value.clone()?,
        }),
    }
}

/// The view of a process that hasn't ended.
fn live_view(
    alloc: Global,
    table: &CodeTable,
    held: bool,
    process: &Process,
) -> Result<LiveView, AllocError>
    ensures { IfOk result (λ v. live_seen v ≡ live_of table.now held process.now) }
{
    Ok(LiveView {
        pid: process.pid(),
        status: copy_status(process.status())?,
        held,
        next: next(table, process.goes())?,
        x: process.x().to_vec(alloc)?,
        frames: frames(alloc, table, process)?,
        messages: process.message_count(),
        save: process.save_position(),
        transit: process.transit_count(),
    })
}

/// The view of a process, held or not.
pub(crate) fn view(
    alloc: Global,
    table: &CodeTable,
    held: bool,
    process: &ProcessEntry,
) -> Result<View, AllocError>
    ensures { IfOk result (λ v. seen v ≡ view_of table.now held process.now) }
{
    if let Some((reason, _)) = process.end() {
        return Ok(View::Over {
            pid: process.pid(),
            reason: reason.clone()?,
        });
    }
    match process.living() {
        Some(process) => Ok(View::Live(live_view(alloc, table, held, process)?)),
        None => unreachable!(),
    }
}
