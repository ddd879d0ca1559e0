//! Terms that the node answers.
ghost use Rattle.std.specs.Prelude.{◌≡◌, IfOk, option_map};
ghost use Rattle.beam_term.specs.TermValue.{atom_term};
ghost use Rattle.beam_model.specs.Native.{truth, elements_in};
ghost use Rattle.beam_machine.specs.NodeNative.{pid_or_undefined};

use beam_bif::list::elements_in;
use beam_proc::known::Known;
use beam_term::{Atom, Term};
use std::alloc::{AllocError, Global};

/// An atom of a text.
fn name(alloc: Global, text: &str) -> Result<Atom, AllocError>
    ensures { IfOk result (λ a. a ≡ text.now) }
{
    match Atom::new(alloc, text) {
        Ok(atom) => Ok(atom),
        Err(_) => Err(AllocError),
    }
}

/// An atom of a text, as a term.
pub(crate) fn atom(alloc: Global, text: &str) -> Result<Term, AllocError>
    ensures { IfOk result (λ t. t ≡ atom_term text.now) }
{
    Ok(Term::atom(name(alloc, text)?))
}

/// The atom true or false.
pub(crate) fn truth(alloc: Global, value: bool) -> Result<Term, AllocError>
    ensures { IfOk result (λ t. t ≡ truth value) }
{
    let text = if value { "true" } else { "false" };
    Ok(Term::atom(name(alloc, text)?))
}

/// The pid of a process, or the atom undefined.
pub(crate) fn pid_or_undefined(
    alloc: Global,
    known: &Known,
    number: Option<u32>,
) -> Result<Term, AllocError>
    ensures { IfOk result (λ t. t ≡ pid_or_undefined number) }
{
    match number {
        Some(number) => known.pid(alloc, number),
        None => Ok(Term::atom(name(alloc, "undefined")?)),
    }
}

/// The elements of a list. None where it is improper or no list.
pub(crate) fn elements(alloc: Global, list: &Term) -> Result<Option<Vec<Term>>, AllocError>
    ensures { IfOk result (λ items. option_map (λ v. v.items) items ≡ elements_in list.now) }
{
    match elements_in(alloc, list) {
        Ok(items) => Ok(items),
        Err(_) => Err(AllocError),
    }
}
