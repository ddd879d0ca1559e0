//! Tuples.

ghost use Rattle.std.specs.Prelude.{◌≡◌, ◌+◌, ◌<◌, ◌⊎◌, ◌≤ℤ◌, ◌<ℤ◌, IfOk, MatchOption, length, pos, slice_set};
ghost use Rattle.std.specs.Result.{IsOkUnless};
ghost use Rattle.beam_model.specs.Native.{tuple_size_of, element_of, set_element_of, list_of_tuple, tuple_of_list, faulting};
ghost use Rattle.beam_bif.specs.Gives.{Gives};

use crate::error::NativeError;
use crate::list::elements_in;
use crate::value::{make_list, make_tuple, raised, shared};
use beam_model::exception::Fault;
use beam_term::{Term, TermView};
use std::alloc::Global;

/// How many elements a tuple has. Badarg where it isn't a tuple.
#[tactic(auto, using(crate::proofs::TupleLemmas::tuples))]
pub fn tuple_size_of(tuple: &Term) -> Result<Term, Fault>
    ensures { result ≡ tuple_size_of tuple.now }
{
    match tuple.view() {
        TermView::Tuple(items) => Ok(Term::integer(items.len() as i64)),
        _ => Err(Fault::Badarg),
    }
}

// The index, from 0, of the element at a position, from 1, of a tuple of `count` elements; None outside of it.
fn index_among(position: i64, count: usize) -> Option<usize>
    ensures { MatchOption result ((position ≤ℤ pos 0) ⊎ (pos count <ℤ position))
        (λ i. (position ≡ pos (i + 1)) × (i < count)) }
{
    if position >= 1 && position as usize <= count {
        Some(position as usize - 1)
    } else {
        None
    }
}

/// The element of a tuple, counted from 1. Badarg where the first isn't an integer, the second isn't a tuple, or there is no such
/// element.
#[tactic(auto, using(crate::proofs::TupleLemmas::tuples))]
pub fn element_of(position: &Term, tuple: &Term) -> Result<Term, NativeError>
    ensures { Gives result (faulting (element_of position.now tuple.now)) }
{
    let (TermView::Integer(n), TermView::Tuple(items)) = (position.view(), tuple.view()) else {
        return Err(raised(Fault::Badarg));
    };
    match index_among(n, items.len()) {
        Some(i) => shared(&items[i]),
        None => Err(raised(Fault::Badarg)),
    }
}

// Equal terms in a vector of their own.
fn copies(alloc: Global, items: &[Term]) -> Result<Vec<Term>, NativeError>
    ensures ok { IfOk result (λ v. v.items ≡ items.now) }
    ensures memory { IsOkUnless result NativeError.NoMemory }
{
    let mut copies = Vec::new(alloc);
    for item in items {
        copies.push(item.clone()?)?;
    }
    Ok(copies)
}

// Equal terms in a vector of their own, with another element at this index.
fn changed(
    alloc: Global,
    items: &[Term],
    i: usize,
    element: &Term,
) -> Result<Vec<Term>, NativeError>
    requires { i < length items.now }
    ensures ok { IfOk result (λ v. v.items ≡ slice_set items.now i element.now) }
    ensures memory { IsOkUnless result NativeError.NoMemory }
{
    let mut copies = copies(alloc, items)?;
    copies[i] = element.clone()?;
    Ok(copies)
}

/// The tuple with another element at this position, counted from 1. Badarg as for an element, SystemLimit where the tuple would be too
/// deep.
#[tactic(auto, using(crate::proofs::TupleLemmas::tuples))]
pub fn set_element_of(
    alloc: Global,
    position: &Term,
    tuple: &Term,
    element: &Term,
) -> Result<Term, NativeError>
    ensures { Gives result (faulting (set_element_of position.now tuple.now element.now)) }
{
    let (TermView::Integer(n), TermView::Tuple(items)) = (position.view(), tuple.view()) else {
        return Err(raised(Fault::Badarg));
    };
    match index_among(n, items.len()) {
        Some(i) => make_tuple(alloc, changed(alloc, items, i, element)?),
        None => Err(raised(Fault::Badarg)),
    }
}

/// The elements of a tuple as a list. Badarg where it isn't a tuple, SystemLimit where the list would be too deep.
#[tactic(auto, using(crate::proofs::TupleLemmas::tuples))]
pub fn list_of_tuple(alloc: Global, tuple: &Term) -> Result<Term, NativeError>
    ensures { Gives result (faulting (list_of_tuple tuple.now)) }
{
    match tuple.view() {
        TermView::Tuple(items) => make_list(alloc, copies(alloc, items)?, Term::nil()),
        _ => Err(raised(Fault::Badarg)),
    }
}

/// The elements of a list as a tuple. Badarg where it isn't a proper list, SystemLimit where the tuple would be too deep.
pub fn tuple_of_list(alloc: Global, list: &Term) -> Result<Term, NativeError>
    ensures { Gives result (faulting (tuple_of_list list.now)) }
{
    match elements_in(alloc, list)? {
        Some(items) => make_tuple(alloc, items),
        None => Err(raised(Fault::Badarg)),
    }
}
