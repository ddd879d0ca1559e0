//! Commands, written.
ghost use Rattle.std.specs.Prelude.{◌≡◌, ◌++◌, OnOk, OnErr, IsErrOf};
ghost use Rattle.std.specs.Result.{IsOkUnless};
ghost use Rattle.beam_machine.specs.Frames.{SpellsCommand};
ghost use Rattle.beam_machine.specs.declared.debug.DebugEvent.TheVariants.{Node};
ghost use Rattle.beam_command_writer.specs.Bodies.{IsUnspelled, kind_number, command_body};

use crate::error::CommandError;
use crate::files::put_atomic_load;
use crate::numbers::{put_name, put_number, put_steps, put_time};
use crate::terms::{put_send, put_spawn, put_spot};
use beam_machine::command::{Bytes, Command};
use beam_machine::debug::DebugEvent;
use beam_machine::event::Event;

/// The number of a command's kind.
pub fn kind_number(command: &Command) -> u8
    ensures { result ≡ kind_number command.now }
{
    match command {
        DebugEvent::Node(Event::Load(_)) => 1,
        DebugEvent::Node(Event::LoadStrict(_)) => 2,
        DebugEvent::Node(Event::Delete(_)) => 3,
        DebugEvent::Node(Event::SoftPurge(_)) => 4,
        DebugEvent::Node(Event::Purge(_)) => 5,
        DebugEvent::Node(Event::Spawn { .. }) => 6,
        DebugEvent::Node(Event::Send { .. }) => 7,
        DebugEvent::Node(Event::Steps { .. }) => 8,
        DebugEvent::Node(Event::Deliver { .. }) => 9,
        DebugEvent::Node(Event::Clock { .. }) => 10,
        DebugEvent::Node(Event::Timeout { .. }) => 11,
        DebugEvent::SetBreak(_) => 12,
        DebugEvent::ClearBreak(_) => 13,
        DebugEvent::Resume { .. } => 14,
        DebugEvent::StepOne { .. } => 15,
        DebugEvent::Inspect { .. } => 16,
        DebugEvent::Node(Event::Versions(_)) => 17,
        DebugEvent::Node(Event::AtomicLoad { .. }) => 18,
    }
}

/// Appends a file.
fn put_file(out: &mut Vec<u8>, file: &Bytes) -> Result<(), CommandError>
    ensures ok { OnOk result (out.new.items ≡ out.old.items ++ file.now) }
    ensures memory { IsOkUnless result CommandError.NoMemory }
    ensures err { OnErr result (out.new.items ≡ out.old.items) }
{
    out.extend_from_slice(file.as_slice())?;
    Ok(())
}

/// Appends the body of an event of the node.
#[tactic(auto, using(crate::proofs::Spelled::written))]
fn put_event(out: &mut Vec<u8>, event: &Event<Bytes>) -> Result<(), CommandError>
    ensures ok { OnOk result (out.new.items ≡ out.old.items ++ command_body (Node event.now)) }
    ensures spelled { OnOk result (SpellsCommand (kind_number (Node event.now)) (command_body (Node event.now)) (Node event.now)) }
    ensures unspelled { IsErrOf result CommandError.Unspelled → IsUnspelled (Node event.now) }
    ensures err { OnErr result (out.new.items ≡ out.old.items) }
{
    match event {
        Event::Load(file) => put_file(out, file),
        Event::LoadStrict(file) => put_file(out, file),
        Event::Delete(name) => put_name(out, name),
        Event::SoftPurge(name) => put_name(out, name),
        Event::Purge(name) => put_name(out, name),
        Event::Versions(name) => put_name(out, name),
        Event::Spawn {
            module,
            function,
            arguments,
        } => put_spawn(out, module, function, arguments),
        Event::Send { to, message } => put_send(out, to, message),
        Event::Steps { pid, rows } => put_steps(out, *pid, *rows),
        Event::Deliver { pid } => put_number(out, *pid),
        Event::Clock { now } => put_time(out, *now),
        Event::Timeout { pid } => put_number(out, *pid),
        Event::AtomicLoad { mode, images } => put_atomic_load(out, *mode, images.as_slice()),
    }
}

/// Appends the body that spells a command. `Unspelled` where none does; that is never so of a command that was read from a frame. After a
/// refusal nothing is appended.
#[tactic(auto, using(crate::proofs::Spelled::written_to_debugger))]
pub fn put_command(out: &mut Vec<u8>, command: &Command) -> Result<(), CommandError>
    ensures ok { OnOk result (out.new.items ≡ out.old.items ++ command_body command.now) }
    ensures spelled { OnOk result (SpellsCommand (kind_number command.now) (command_body command.now) command.now) }
    ensures unspelled { IsErrOf result CommandError.Unspelled → IsUnspelled command.now }
    ensures err { OnErr result (out.new.items ≡ out.old.items) }
{
    match command {
        DebugEvent::Node(event) => put_event(out, event),
        DebugEvent::SetBreak(spot) => put_spot(out, spot),
        DebugEvent::ClearBreak(spot) => put_spot(out, spot),
        DebugEvent::Resume { pid } => put_number(out, *pid),
        DebugEvent::StepOne { pid } => put_number(out, *pid),
        DebugEvent::Inspect { pid } => put_number(out, *pid),
    }
}
