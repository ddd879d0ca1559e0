//! Starts, messages and spots, written as the bodies of commands.
ghost use Rattle.std.specs.Prelude.{◌≡◌, ◌++◌, OnOk, OnErr, IfOk, IsErrOf};
ghost use Rattle.std.specs.Result.{IsOkUnless};
ghost use Rattle.beam_model.specs.External.{external_bytes};
ghost use Rattle.beam_machine.specs.Frames.{SpellsCommand, names_process, version_text};
ghost use Rattle.beam_machine.specs.declared.debug.DebugEvent.TheVariants.{Node, SetBreak, ClearBreak};
ghost use Rattle.beam_machine.specs.declared.event.Event.TheVariants.{Send, Spawn};
ghost use Rattle.beam_command_writer.specs.Bodies.{IsUnspelled, spawn_term, send_term, term_of_spot};

use crate::error::CommandError;
use crate::fields::{list_of, put_fields};
use beam_machine::debug::{Spot, Version};
use beam_machine::event::SpawnArguments;
use beam_term::{Atom, Term, TermView};
use std::alloc::{AllocError, Global};

/// Appends a module, a function and a list of arguments.
#[tactic(auto, using(crate::proofs::Spelled::spawn_written, crate::proofs::Unspelled::deep_spawn, crate::proofs::Unspelled::deep_arguments))]
pub(crate) fn put_spawn(
    out: &mut Vec<u8>,
    module: &Atom,
    function: &Atom,
    arguments: &SpawnArguments,
) -> Result<(), CommandError>
    ensures ok { OnOk result (out.new.items ≡ out.old.items ++ external_bytes (spawn_term module.now function.now arguments.now)) }
    ensures spelled { OnOk result (SpellsCommand 6 (external_bytes (spawn_term module.now function.now arguments.now)) (Node (Spawn module.now function.now arguments.now))) }
    ensures unspelled { IsErrOf result CommandError.Unspelled → IsUnspelled (Node (Spawn module.now function.now arguments.now)) }
    ensures err { OnErr result (out.new.items ≡ out.old.items) }
{
    let alloc = *out.allocator();
    let arguments = list_of(alloc, arguments.as_slice())?;
    let mut fields = Vec::with_capacity(alloc, 3)?;
    fields.push(Term::atom(module.clone()?))?;
    fields.push(Term::atom(function.clone()?))?;
    fields.push(arguments)?;
    put_fields(out, fields)
}

/// Whether the term is a pid or a name.
fn names_process(term: &Term) -> bool
    ensures { result ≡ names_process term.now }
{
    match term.view() {
        TermView::Atom(_) | TermView::Pid(_) => true,
        _ => false,
    }
}

/// Appends a receiver and a message.
#[tactic(auto, using(crate::proofs::Spelled::send_written, crate::proofs::Unspelled::deep_send, crate::proofs::Unspelled::no_receiver))]
pub(crate) fn put_send(out: &mut Vec<u8>, to: &Term, message: &Term) -> Result<(), CommandError>
    ensures ok { OnOk result (out.new.items ≡ out.old.items ++ external_bytes (send_term to.now message.now)) }
    ensures spelled { OnOk result (SpellsCommand 7 (external_bytes (send_term to.now message.now)) (Node (Send to.now message.now))) }
    ensures unspelled { IsErrOf result CommandError.Unspelled → IsUnspelled (Node (Send to.now message.now)) }
    ensures err { OnErr result (out.new.items ≡ out.old.items) }
{
    if !names_process(to) {
        return Err(CommandError::Unspelled);
    }
    let mut fields = Vec::with_capacity(*out.allocator(), 2)?;
    fields.push(to.clone()?)?;
    fields.push(message.clone()?)?;
    put_fields(out, fields)
}

/// The atom that says which instance.
fn version_atom(alloc: Global, version: Version) -> Result<Atom, AllocError>
    ensures { IfOk result (λ a. a ≡ version_text version) }
{
    let text = match version {
        Version::Current => "current",
        Version::Old => "old",
    };
    match Atom::new(alloc, text) {
        Ok(atom) => Ok(atom),
        Err(_) => Err(AllocError),
    }
}

/// Appends a version, a module, a label and a count of rows.
#[tactic(auto, using(crate::proofs::Spelled::set_written, crate::proofs::Spelled::clear_written, crate::proofs::Unspelled::shallow_spot))]
pub(crate) fn put_spot(out: &mut Vec<u8>, spot: &Spot) -> Result<(), CommandError>
    ensures ok { OnOk result (out.new.items ≡ out.old.items ++ external_bytes (term_of_spot spot.now)) }
    ensures set { OnOk result (SpellsCommand 12 (external_bytes (term_of_spot spot.now)) (SetBreak spot.now)) }
    ensures clear { OnOk result (SpellsCommand 13 (external_bytes (term_of_spot spot.now)) (ClearBreak spot.now)) }
    ensures memory { IsOkUnless result CommandError.NoMemory }
    ensures err { OnErr result (out.new.items ≡ out.old.items) }
{
    let alloc = *out.allocator();
    let mut fields = Vec::with_capacity(alloc, 4)?;
    fields.push(Term::atom(version_atom(alloc, spot.version)?))?;
    fields.push(Term::atom(spot.module.clone()?))?;
    fields.push(Term::integer(i64::from(spot.label)))?;
    fields.push(Term::integer(i64::from(spot.rows)))?;
    put_fields(out, fields)
}
