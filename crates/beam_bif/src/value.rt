//! Terms that natives give.

ghost use Rattle.std.specs.Prelude.{◌≡◌, ◌≤◌, Ok, Err, length};
ghost use Rattle.beam_term.specs.TermValue.{atom_term, list_before, tuple_of};
ghost use Rattle.beam_model.specs.Native.{truth, limited_term, faulting};
ghost use Rattle.beam_model.specs.declared.exception.Exception.TheVariants as exception;
ghost use Rattle.beam_bif.specs.Gives.{Gives};

use crate::error::NativeError;
use beam_model::exception::{Exception, Fault};
use beam_term::{Atom, AtomError, Term, TermError, list_with_tail, tuple};
use std::alloc::Global;

/// A fault as the error of a native.
pub fn raised(fault: Fault) -> NativeError
    ensures { result ≡ NativeError.Raised (exception.Fault fault) }
{
    NativeError::Raised(Exception::Fault(fault))
}

/// A value or a fault as a native's result.
pub fn or_raised(outcome: Result<Term, Fault>) -> Result<Term, NativeError>
    ensures { Gives result (faulting outcome) }
{
    match outcome {
        Ok(term) => Ok(term),
        Err(fault) => Err(raised(fault)),
    }
}

/// A second owner of the term; nothing is copied.
pub fn shared(term: &Term) -> Result<Term, NativeError>
    ensures { Gives result (Ok term.now) }
{
    match term.try_share() {
        Ok(same) => Ok(same),
        Err(_) => Err(NativeError::NoMemory),
    }
}

/// The atom of this text, which has at most 255 characters.
pub fn atom(alloc: Global, text: &str) -> Result<Term, NativeError>
    requires { length text.now ≤ 255 }
    ensures { Gives result (Ok (atom_term text.now)) }
{
    match Atom::new(alloc, text) {
        Ok(name) => Ok(Term::atom(name)),
        Err(AtomError::NoMemory) => Err(NativeError::NoMemory),
        Err(AtomError::TooLong) => unreachable!(),
    }
}

/// The atom true or false.
pub fn truth(alloc: Global, value: bool) -> Result<Term, NativeError>
    ensures { Gives result (Ok (truth value)) }
{
    if value {
        atom(alloc, "true")
    } else {
        atom(alloc, "false")
    }
}

/// The list of these terms and then the tail. SystemLimit where it would be too deep.
#[tactic(auto, using(crate::proofs::MadeLemmas::made_terms))]
pub fn make_list(alloc: Global, items: Vec<Term>, tail: Term) -> Result<Term, NativeError>
    ensures { Gives result (faulting (limited_term (list_before items.items tail))) }
{
    match list_with_tail(alloc, items, tail) {
        Ok(list) => {
            let _lawful = list.depth();
            Ok(list)
        }
        Err(TermError::NoMemory) => Err(NativeError::NoMemory),
        Err(TermError::TooDeep) => Err(raised(Fault::SystemLimit)),
    }
}

/// The tuple of these terms. SystemLimit where it would be too deep or have 2^32 elements or more.
#[tactic(auto, using(crate::proofs::MadeLemmas::made_terms))]
pub fn make_tuple(alloc: Global, items: Vec<Term>) -> Result<Term, NativeError>
    ensures { Gives result (faulting (limited_term (tuple_of items.items))) }
{
    match tuple(alloc, items) {
        Ok(made) => {
            let _lawful = made.depth();
            Ok(made)
        }
        Err(TermError::NoMemory) => Err(NativeError::NoMemory),
        Err(TermError::TooDeep) => Err(raised(Fault::SystemLimit)),
    }
}
