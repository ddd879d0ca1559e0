//! Records, read.
ghost use Rattle.std.specs.Prelude.{◌≡◌, ◌++◌, ℕ, List, IfOk, IsErrOf};
ghost use Rattle.beam_machine.specs.declared.debug.DebugEvent.{DebugEvent as TheEvent};
ghost use Rattle.beam_machine.specs.Frames.{Command as TheCommand, SpellsCommand};
ghost use Rattle.beam_machine.specs.Journal.{SentEvent as Sent};
ghost use Rattle.beam_model.specs.Listing.{Listing};
ghost use Rattle.beam_records.specs.JournalFile.{IsEventOf, IsRecord, SpellsBody};
ghost use Rattle.beam_records.specs.Pieces.{HasBody, HasWidth, SpellsEvent};

use crate::error::RecordError;
use crate::opening::{body_in, opening_in};
use crate::sent_event::SentEvent;
use beam_frame::{FrameError, kind_of, read_command};
use beam_image::Image;
use beam_machine::command::{Command, Response};
use beam_machine::debug::DebugEvent;
use beam_machine::event::Event;
use beam_remote::event_of;
use byteorder::{BigEndian, ByteOrder};
use std::alloc::Global;

/// The event of a command, whose files are prepared.
#[tactic(auto, using(crate::proofs::Images::event_prepared, crate::proofs::Images::event_unprepared))]
fn prepared(alloc: Global, command: Command) -> Result<DebugEvent<Image>, RecordError>
    ensures found { IfOk result (λ e. IsEventOf command e) }
    ensures none { IsErrOf result RecordError.NoRecord → (e : TheEvent Listing) → IsEventOf command e → ⊥ }
    ensures never_unspelled { IsErrOf result RecordError.Unspelled → ⊥ }
{
    match event_of(alloc, command) {
        Ok(event) => Ok(event),
        Err(
            Response::BadFile {
                layer: _layer,
                number: _number,
            },
        ) => Err(RecordError::NoRecord),
        Err(_) => Err(RecordError::NoMemory),
    }
}

/// The command that a body spells as in a frame.
#[tactic(auto, using(crate::proofs::Images::command_read, crate::proofs::Images::no_kind, crate::proofs::Images::no_command))]
fn framed_command(alloc: Global, kind: u8, body: &[u8]) -> Result<Command, RecordError>
    ensures found { IfOk result (λ c. SpellsCommand kind body.now c) }
    ensures none { IsErrOf result RecordError.NoRecord → (c : TheCommand) → SpellsCommand kind body.now c → ⊥ }
    ensures never_unspelled { IsErrOf result RecordError.Unspelled → ⊥ }
{
    let Some(known) = kind_of(kind) else {
        return Err(RecordError::NoRecord);
    };
    match read_command(alloc, known, body) {
        Ok(command) => Ok(command),
        Err(FrameError::NoMemory) => Err(RecordError::NoMemory),
        Err(_) => Err(RecordError::NoRecord),
    }
}

/// The event that a body spells as in a frame.
fn framed_event(alloc: Global, kind: u8, body: &[u8]) -> Result<DebugEvent<Image>, RecordError>
    ensures found { IfOk result (λ e. SpellsEvent kind body.now e) }
    ensures none { IsErrOf result RecordError.NoRecord → (c : TheCommand) (e : TheEvent Listing) → SpellsCommand kind body.now c → IsEventOf c e → ⊥ }
    ensures never_unspelled { IsErrOf result RecordError.Unspelled → ⊥ }
{
    let command = framed_command(alloc, kind, body)?;
    prepared(alloc, command)
}

/// The event `Steps`, from numbers of two bytes.
#[tactic(auto, using(crate::proofs::Spelled::steps_read, crate::proofs::Spelled::width_of_steps))]
fn short_steps(body: &[u8]) -> DebugEvent<Image>
    requires { HasWidth 32 body.now }
    ensures { SpellsEvent 32 body.now result }
{
    let (pid, rows) = body.split_at(2);
    let pid = u32::from(BigEndian::read_u16(pid));
    let rows = u32::from(BigEndian::read_u16(rows));
    DebugEvent::Node(Event::Steps { pid, rows })
}

/// The arrival of a process's signals, from a number of two bytes.
#[tactic(auto, using(crate::proofs::Spelled::deliver_read, crate::proofs::Spelled::width_of_deliver))]
fn short_deliver(body: &[u8]) -> DebugEvent<Image>
    requires { HasWidth 33 body.now }
    ensures { SpellsEvent 33 body.now result }
{
    let pid = u32::from(BigEndian::read_u16(body));
    DebugEvent::Node(Event::Deliver { pid })
}

/// The event that a body of a kind spells.
#[tactic(auto, using(crate::proofs::Spelled::is_framed))]
fn event_in(alloc: Global, kind: u8, body: &[u8]) -> Result<DebugEvent<Image>, RecordError>
    requires { HasWidth kind body.now }
    ensures found { IfOk result (λ e. SpellsEvent kind body.now e) }
    ensures none { IsErrOf result RecordError.NoRecord → (c : TheCommand) (e : TheEvent Listing) → SpellsBody kind body.now c → IsEventOf c e → ⊥ }
    ensures never_unspelled { IsErrOf result RecordError.Unspelled → ⊥ }
{
    match kind {
        32 => Ok(short_steps(body)),
        33 => Ok(short_deliver(body)),
        _ => framed_event(alloc, kind, body),
    }
}

/// What a body of a kind says, with the seat, and the bytes after it.
fn sent_in<'a>(
    alloc: Global,
    kind: u8,
    seat: Option<u32>,
    body: &[u8],
    rest: &'a [u8],
) -> Result<(SentEvent, &'a [u8]), RecordError>
    requires { HasWidth kind body.now }
    ensures found { IfOk result (λ r. SpellsEvent kind body.now r.0.event × (r.0.seat ≡ seat) × (r.1.now ≡ rest.now)) }
    ensures none { IsErrOf result RecordError.NoRecord → (c : TheCommand) (e : TheEvent Listing) → SpellsBody kind body.now c → IsEventOf c e → ⊥ }
    ensures never_unspelled { IsErrOf result RecordError.Unspelled → ⊥ }
{
    match event_in(alloc, kind, body) {
        Ok(event) => Ok((SentEvent { event, seat }, rest)),
        Err(error) => Err(error),
    }
}

/// What the body of a kind at the front of bytes says, with the seat, and the bytes after it.
fn opened_in(
    alloc: Global,
    kind: u8,
    seat: Option<u32>,
    bytes: &[u8],
) -> Result<(SentEvent, &[u8]), RecordError>
    ensures found { IfOk result (λ r. (body : List ℕ) × HasBody bytes.now kind body r.1.now × SpellsEvent kind body r.0.event × (r.0.seat ≡ seat)) }
    ensures none { IsErrOf result RecordError.NoRecord → (body rest : List ℕ) (c : TheCommand) (e : TheEvent Listing) → HasBody bytes.now kind body rest
        → SpellsBody kind body c → IsEventOf c e → ⊥ }
    ensures never_unspelled { IsErrOf result RecordError.Unspelled → ⊥ }
{
    match body_in(kind, bytes) {
        Some((body, rest)) => sent_in(alloc, kind, seat, body, rest),
        None => Err(RecordError::NoRecord),
    }
}

/// What the record at the front of bytes says, and the bytes after it.
///
/// `NoRecord` where no record stands there: the bytes end before it does, the number of its seat is 4,096 or above, there is no such kind,
/// its body spells no command, or no image can be made of a file in it. `NoMemory` where memory is refused. It is never `Unspelled`.
pub fn record_in(alloc: Global, bytes: &[u8]) -> Result<(SentEvent, &[u8]), RecordError>
    ensures found { IfOk result (λ r. (first : List ℕ) × (bytes.now ≡ first ++ r.1.now) × IsRecord first r.0) }
    ensures none { IsErrOf result RecordError.NoRecord → (first rest : List ℕ) (s : Sent) → bytes.now ≡ first ++ rest → IsRecord first s → ⊥ }
    ensures never_unspelled { IsErrOf result RecordError.Unspelled → ⊥ }
{
    match opening_in(bytes) {
        Some((kind, seat, rest)) => opened_in(alloc, kind, seat, rest),
        None => Err(RecordError::NoRecord),
    }
}
