//! Terms that a process makes.
ghost use Rattle.std.specs.Prelude.{◌≡◌, ◌<◌, ◌≤◌, IfOk, MatchOption};
ghost use Rattle.beam_term.specs.TermValue.{atom_term, depth_of};
ghost use Rattle.beam_model.specs.Exception.{pair_of};

use beam_term::{Atom, Term, TermError, tuple};
use std::alloc::{AllocError, Global};

/// An atom as a term.
pub fn atom(alloc: Global, text: &str) -> Result<Term, AllocError>
    ensures { IfOk result (λ term. term ≡ atom_term text.now) }
{
    match Atom::new(alloc, text) {
        Ok(atom) => Ok(Term::atom(atom)),
        Err(_) => Err(AllocError),
    }
}

/// A tuple of two terms, if it isn't too deep.
pub fn pair(alloc: Global, first: Term, second: Term) -> Result<Option<Term>, AllocError>
    ensures { IfOk result (λ made. MatchOption made (4096 < depth_of (pair_of first second)) (λ t. (t ≡ pair_of first second) × (depth_of t ≤ 4096))) }
{
    match tuple(alloc, vec![in alloc; first, second]?) {
        Ok(term) => {
            let _shallow = term.depth();
            Ok(Some(term))
        }
        Err(TermError::TooDeep) => Ok(None),
        Err(TermError::NoMemory) => Err(AllocError),
    }
}
