//! The arguments of a call, taken from the term that a text writes.
ghost use Rattle.std.specs.Prelude.{◌≡◌, ◌<◌, ◌≤◌, IfOk, IsErrOf, List, length, vec_len};
ghost use Rattle.beam_term.specs.TermValue.{TermValue, list_of};
ghost use Rattle.beam_tools.specs.declared.arguments.NoElements.TheVariants.{NoMemory};

use beam_term::{Term, TermView};
use std::alloc::{AllocFailed, Global};

/// The most arguments that a function takes.
pub const MAX_ARITY: usize = 255;

/// Why a term has no elements that a function can take.
#[derive(Clone, Copy)]
pub enum NoElements {
    /// It is no list of at most 255 terms.
    NoList,
    /// Memory was refused.
    NoMemory,
}

impl<T: Drop> From<AllocFailed<T>> for NoElements {
    ghost from_gives = { λ _ e. e ≡ NoMemory };

    fn from(_e: AllocFailed<T>) -> NoElements {
        NoElements::NoMemory
    }
}

/// The elements of a list.
///
/// `NoList` where the term is no list of at most 255 terms, and `NoMemory`.
pub fn elements(alloc: Global, list: &Term) -> Result<Vec<Term>, NoElements>
    ensures list { IfOk result (λ v. list.now ≡ list_of v.items) }
    ensures few { IfOk result (λ v. vec_len v ≤ 255) }
    ensures wrong { IsErrOf result NoElements.NoList → (xs : List TermValue) → list.now ≡ list_of xs → 255 < length xs }
{
    let mut items = Vec::new(alloc);
    let mut rest = list;
    loop {
        match rest.view() {
            TermView::Nil => return Ok(items),
            TermView::Pair(head, tail) => {
                if items.len() == MAX_ARITY {
                    return Err(NoElements::NoList);
                }
                let Ok(item) = head.try_share() else {
                    return Err(NoElements::NoMemory);
                };
                items.push(item)?;
                rest = tail;
            }
            _ => return Err(NoElements::NoList),
        }
    }
}
