//! Records, written.
ghost use Rattle.std.specs.Prelude.{◌≡◌, ◌<◌, ◌^◌, ◌++◌, ◌↔◌, ℕ, List, length, IfOk, IfSome, IsErrOf, IsTrue, OnOk, OnErr};
ghost use Rattle.std.specs.Result.{IsOkUnless};
ghost use Rattle.beam_machine.specs.declared.debug.DebugEvent.{DebugEvent as TheEvent};
ghost use Rattle.beam_machine.specs.declared.debug.DebugEvent.TheVariants.{Node};
ghost use Rattle.beam_machine.specs.Frames.{SpellsCommand};
ghost use Rattle.beam_model.specs.Listing.{Listing};
ghost use Rattle.beam_command_writer.specs.Bodies.{command_body, kind_number};
ghost use Rattle.beam_records.specs.JournalFile.{IsEventOf, IsRecord, IsSeat};
ghost use Rattle.beam_records.specs.Pieces.{Adds, HasNoBody, IsUnwritten, short_record};

use crate::command::{command_of, with_files};
use crate::error::RecordError;
use crate::pieces::put_body;
use crate::short_kinds::{put_clock, put_deliver, put_steps, put_timeout};
use beam_command_writer::{CommandError, kind_number, put_command};
use beam_image::Image;
use beam_machine::command::Command;
use beam_machine::debug::DebugEvent;
use beam_machine::event::Event;
use std::alloc::Global;

/// Whether the number is that of a seat that a node can have, if there is one.
fn is_seat(seat: Option<u32>) -> bool
    ensures { IsTrue result ↔ IsSeat seat }
{
    match seat {
        None => true,
        Some(seat) => seat < 4096,
    }
}

/// The body that spells a command.
fn body_of(alloc: Global, command: &Command) -> Result<Vec<u8>, RecordError>
    ensures body { IfOk result (λ body. body.items ≡ command_body command.now) }
    ensures short { IfOk result (λ body. length body.items < 2 ^ 32) }
    ensures spelled { IfOk result (λ body. SpellsCommand (kind_number command.now) (command_body command.now) command.now) }
    ensures unspelled { IsErrOf result RecordError.Unspelled → HasNoBody command.now }
    ensures never_no_record { IsErrOf result RecordError.NoRecord → ⊥ }
{
    let mut body = Vec::new(alloc);
    match put_command(&mut body, command) {
        Ok(()) => {
            if body.len() >= 1 << 32 {
                return Err(RecordError::Unspelled);
            }
            Ok(body)
        }
        Err(CommandError::Unspelled) => Err(RecordError::Unspelled),
        Err(CommandError::NoMemory) => Err(RecordError::NoMemory),
    }
}

/// Appends the record of a command that a body spells.
fn put_spelled(
    out: &mut Vec<u8>,
    command: &Command,
    kind: u8,
    body: &[u8],
    seat: Option<u32>,
) -> Result<(), RecordError>
    requires seat { IsSeat seat }
    requires kind { kind < 128 }
    requires short { length body.now < 2 ^ 32 }
    requires spelled { SpellsCommand kind body.now command.now }
    ensures ok { OnOk result ((e : TheEvent Listing) → IsEventOf command.now e → Adds out.old.items out.new.items (record { event = e; seat = seat })) }
    ensures memory { IsOkUnless result RecordError.NoMemory }
    ensures err { OnErr result (out.new.items ≡ out.old.items) }
{
    put_body(out, seat, kind, body)
}

/// Appends the record of a command.
fn put_framed(out: &mut Vec<u8>, command: &Command, seat: Option<u32>) -> Result<(), RecordError>
    requires { IsSeat seat }
    ensures ok { OnOk result ((e : TheEvent Listing) → IsEventOf command.now e → Adds out.old.items out.new.items (record { event = e; seat = seat })) }
    ensures unspelled { IsErrOf result RecordError.Unspelled → HasNoBody command.now }
    ensures never_no_record { IsErrOf result RecordError.NoRecord → ⊥ }
    ensures err { OnErr result (out.new.items ≡ out.old.items) }
{
    let body = body_of(*out.allocator(), command)?;
    put_spelled(out, command, kind_number(command), &body, seat)
}

/// Appends the record of an event of the node by the command that it is.
fn put_other(out: &mut Vec<u8>, event: &Event<Image>, seat: Option<u32>) -> Result<(), RecordError>
    requires { IsSeat seat }
    ensures ok { OnOk result (Adds out.old.items out.new.items (record { event = Node event.now; seat = seat })) }
    ensures unspelled { IsErrOf result RecordError.Unspelled → IsUnwritten (record { event = Node event.now; seat = seat }) }
    ensures never_no_record { IsErrOf result RecordError.NoRecord → ⊥ }
    ensures err { OnErr result (out.new.items ≡ out.old.items) }
{
    let Ok(event) = with_files(*out.allocator(), event) else {
        return Err(RecordError::NoMemory);
    };
    put_framed(out, &DebugEvent::Node(event), seat)
}

/// Appends the record of an event of the debugger by the command that it is.
fn put_command_record(
    out: &mut Vec<u8>,
    event: &DebugEvent<Image>,
    seat: Option<u32>,
) -> Result<(), RecordError>
    requires { IsSeat seat }
    ensures ok { OnOk result (Adds out.old.items out.new.items (record { event = event.now; seat = seat })) }
    ensures unspelled { IsErrOf result RecordError.Unspelled → IsUnwritten (record { event = event.now; seat = seat }) }
    ensures never_no_record { IsErrOf result RecordError.NoRecord → ⊥ }
    ensures err { OnErr result (out.new.items ≡ out.old.items) }
{
    let Ok(command) = command_of(*out.allocator(), event) else {
        return Err(RecordError::NoMemory);
    };
    put_framed(out, &command, seat)
}

/// Appends the record of an event of the node.
fn put_event(out: &mut Vec<u8>, event: &Event<Image>, seat: Option<u32>) -> Result<(), RecordError>
    requires { IsSeat seat }
    ensures ok { OnOk result (Adds out.old.items out.new.items (record { event = Node event.now; seat = seat })) }
    ensures short { OnOk result (IfSome (short_record seat (Node event.now)) (λ bytes. out.new.items ≡ out.old.items ++ bytes)) }
    ensures unspelled { IsErrOf result RecordError.Unspelled → IsUnwritten (record { event = Node event.now; seat = seat }) }
    ensures never_no_record { IsErrOf result RecordError.NoRecord → ⊥ }
    ensures err { OnErr result (out.new.items ≡ out.old.items) }
{
    match event {
        Event::Steps { pid, rows } => put_steps(out, *pid, *rows, seat),
        Event::Deliver { pid } => put_deliver(out, *pid, seat),
        Event::Clock { now } => put_clock(out, *now, seat),
        Event::Timeout { pid } => put_timeout(out, *pid, seat),
        _ => put_other(out, event, seat),
    }
}

/// Appends the record of an event that a seat sent, or none. Steps and deliveries whose numbers two bytes hold take the short kinds, and these
/// two, Clock and Timeout take no memory of their own.
///
/// `Unspelled` where the seat's number is 4,096 or above, where no body spells the command that the event is, and where this body has 2^32
/// bytes or more; that is never so of events of a node's sessions, which come in frames. `NoMemory` where memory is refused. After a
/// refusal nothing is appended.
pub fn put_record(
    out: &mut Vec<u8>,
    event: &DebugEvent<Image>,
    seat: Option<u32>,
) -> Result<(), RecordError>
    ensures ok { OnOk result ((bytes : List ℕ) × (out.new.items ≡ out.old.items ++ bytes) × IsRecord bytes (record { event = event.now; seat = seat })) }
    ensures short { OnOk result (IfSome (short_record seat event.now) (λ bytes. out.new.items ≡ out.old.items ++ bytes)) }
    ensures unspelled { IsErrOf result RecordError.Unspelled → IsUnwritten (record { event = event.now; seat = seat }) }
    ensures never_no_record { IsErrOf result RecordError.NoRecord → ⊥ }
    ensures err { OnErr result (out.new.items ≡ out.old.items) }
{
    if !is_seat(seat) {
        return Err(RecordError::Unspelled);
    }
    match event {
        DebugEvent::Node(event) => put_event(out, event, seat),
        _ => put_command_record(out, event, seat),
    }
}
