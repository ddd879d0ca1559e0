//! Truth values: the atoms true and false.

ghost use Rattle.std.specs.Prelude.{◌≡◌};
ghost use Rattle.beam_model.specs.Native.{truth_in, and_of, or_of, xor_of, not_of, faulting};
ghost use Rattle.beam_bif.specs.Gives.{Gives};

use crate::error::NativeError;
use crate::value::{raised, truth};
use beam_model::exception::Fault;
use beam_term::{Term, TermView};
use std::alloc::Global;

/// The truth value that a term is.
pub fn truth_in(term: &Term) -> Option<bool>
    ensures { result ≡ truth_in term.now }
{
    match term.view() {
        TermView::Atom(name) => {
            let text = name.as_str();
            if text == "true" {
                Some(true)
            } else if text == "false" {
                Some(false)
            } else {
                None
            }
        }
        _ => None,
    }
}

/// `and`. Badarg where one isn't a truth value.
pub fn and_of(alloc: Global, left: &Term, right: &Term) -> Result<Term, NativeError>
    ensures { Gives result (faulting (and_of left.now right.now)) }
{
    match (truth_in(left), truth_in(right)) {
        (Some(a), Some(b)) => truth(alloc, a && b),
        _ => Err(raised(Fault::Badarg)),
    }
}

/// `or`. Badarg where one isn't a truth value.
pub fn or_of(alloc: Global, left: &Term, right: &Term) -> Result<Term, NativeError>
    ensures { Gives result (faulting (or_of left.now right.now)) }
{
    match (truth_in(left), truth_in(right)) {
        (Some(a), Some(b)) => truth(alloc, a || b),
        _ => Err(raised(Fault::Badarg)),
    }
}

/// `xor`. Badarg where one isn't a truth value.
pub fn xor_of(alloc: Global, left: &Term, right: &Term) -> Result<Term, NativeError>
    ensures { Gives result (faulting (xor_of left.now right.now)) }
{
    match (truth_in(left), truth_in(right)) {
        (Some(a), Some(b)) => truth(alloc, if a { !b } else { b }),
        _ => Err(raised(Fault::Badarg)),
    }
}

/// `not`. Badarg where it isn't a truth value.
pub fn not_of(alloc: Global, term: &Term) -> Result<Term, NativeError>
    ensures { Gives result (faulting (not_of term.now)) }
{
    match truth_in(term) {
        Some(a) => truth(alloc, !a),
        None => Err(raised(Fault::Badarg)),
    }
}
