//! Tuples, written as the bodies of commands.
ghost use Rattle.std.specs.Prelude.{◌≡◌, ◌<◌, ◌++◌, OnOk, OnErr, IfOk, IsErrOf, vec_len};
ghost use Rattle.beam_term.specs.TermValue.{IsTerm, tuple_of, list_of, depth_of};
ghost use Rattle.beam_model.specs.External.{IsExternal, external_bytes};

use crate::error::CommandError;
use beam_etf::write_term;
use beam_term::{Term, TermError, list, tuple};
use std::alloc::Global;

/// The tuple of a few terms.
fn tuple_of(alloc: Global, fields: Vec<Term>) -> Result<Term, CommandError>
    requires few { vec_len fields < 5 }
    ensures ok { IfOk result (λ t. t ≡ tuple_of fields.items) }
    ensures unspelled { IsErrOf result CommandError.Unspelled → 4096 < depth_of (tuple_of fields.items) }
{
    match tuple(alloc, fields) {
        Ok(tuple) => Ok(tuple),
        Err(TermError::TooDeep) => Err(CommandError::Unspelled),
        Err(TermError::NoMemory) => Err(CommandError::NoMemory),
    }
}

/// Appends a term with its version byte.
#[tactic(auto, using(beam_etf::proofs::Written::written_spelled))]
fn put_term(out: &mut Vec<u8>, term: &Term) -> Result<(), CommandError>
    ensures ok { OnOk result (out.new.items ≡ out.old.items ++ external_bytes term.now) }
    ensures spelled { IsExternal (external_bytes term.now) term.now }
    ensures memory { IsErrOf result CommandError.Unspelled → 4096 < depth_of term.now }
    ensures err { OnErr result (out.new.items ≡ out.old.items) }
{
    let _lawful = term.depth();
    match write_term(term, out) {
        Ok(()) => Ok(()),
        Err(_) => Err(CommandError::NoMemory),
    }
}

/// Appends the tuple of a few terms.
pub(crate) fn put_fields(out: &mut Vec<u8>, fields: Vec<Term>) -> Result<(), CommandError>
    requires few { vec_len fields < 5 }
    ensures ok { OnOk result (out.new.items ≡ out.old.items ++ external_bytes (tuple_of fields.items)) }
    ensures spelled { OnOk result (IsExternal (external_bytes (tuple_of fields.items)) (tuple_of fields.items)) }
    ensures unspelled { IsErrOf result CommandError.Unspelled → 4096 < depth_of (tuple_of fields.items) }
    ensures err { OnErr result (out.new.items ≡ out.old.items) }
{
    let term = tuple_of(*out.allocator(), fields)?;
    put_term(out, &term)
}

/// The list of these terms.
pub(crate) fn list_of(alloc: Global, terms: &[Term]) -> Result<Term, CommandError>
    ensures ok { IfOk result (λ t. t ≡ list_of terms.now) }
    ensures unspelled { IsErrOf result CommandError.Unspelled → 4096 < depth_of (list_of terms.now) }
{
    let mut items = Vec::with_capacity(alloc, terms.len())?;
    for term in terms {
        items.push(term.clone()?)?;
    }
    match list(alloc, items) {
        Ok(list) => Ok(list),
        Err(TermError::TooDeep) => Err(CommandError::Unspelled),
        Err(TermError::NoMemory) => Err(CommandError::NoMemory),
    }
}
