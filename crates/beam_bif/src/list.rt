//! Lists.

ghost use Rattle.std.specs.Prelude.{◌≡◌, ◌<◌, ◌≤◌, ◌^◌, ℕ, Ok, IfOk, length, map, pos, List};
ghost use Rattle.std.specs.Option.{option_map};
ghost use Rattle.std.specs.Result.{IsOkUnless};
ghost use Rattle.std.specs.Str.{chars};
ghost use Rattle.std.specs.Fmt.{signed_decimal};
ghost use Rattle.beam_term.specs.TermValue.{int_term};
ghost use Rattle.beam_model.specs.Native.{elements_in, head_of, tail_of, length_of, append_of, list_of_atom, list_of_integer, faulting};
ghost use Rattle.beam_bif.specs.Gives.{Gives};

use crate::error::NativeError;
use crate::value::{make_list, raised, shared};
use beam_model::exception::Fault;
use beam_term::{Term, TermView};
use std::alloc::{AllocError, Global};

/// The first element of a list. Badarg where it isn't a nonempty list.
pub fn head_of(list: &Term) -> Result<Term, NativeError>
    ensures { Gives result (faulting (head_of list.now)) }
{
    match list.view() {
        TermView::Pair(head, _) => shared(head),
        _ => Err(raised(Fault::Badarg)),
    }
}

/// A list without its first element. Badarg where it isn't a nonempty list.
pub fn tail_of(list: &Term) -> Result<Term, NativeError>
    ensures { Gives result (faulting (tail_of list.now)) }
{
    match list.view() {
        TermView::Pair(_, tail) => shared(tail),
        _ => Err(raised(Fault::Badarg)),
    }
}

// How many elements a list has; None where it is improper or no list.
#[tactic(auto, using(crate::proofs::ElementLemmas::steps))]
fn count_in(list: &Term) -> Option<u16>
    ensures { result ≡ option_map length (elements_in list.now) }
{
    let _lawful = list.depth();
    let mut count = 0;
    let mut rest = list;
    while let TermView::Pair(_, tail) = rest.view() {
        count += 1;
        rest = tail;
    }
    if rest.is_nil() { Some(count) } else { None }
}

/// The elements of a list; None where it is improper or no list.
#[tactic(auto, using(crate::proofs::ElementLemmas::steps))]
pub fn elements_in(alloc: Global, list: &Term) -> Result<Option<Vec<Term>>, NativeError>
    ensures ok { IfOk result (λ items. option_map (λ v. v.items) items ≡ elements_in list.now) }
    ensures memory { IsOkUnless result NativeError.NoMemory }
{
    let mut items = Vec::new(alloc);
    let mut rest = list;
    while let TermView::Pair(head, tail) = rest.view() {
        items.push(head.clone()?)?;
        rest = tail;
    }
    Ok(if rest.is_nil() { Some(items) } else { None })
}

/// How many elements a list has. Badarg where it isn't a proper list.
pub fn length_of(list: &Term) -> Result<Term, Fault>
    ensures { result ≡ length_of list.now }
{
    match count_in(list) {
        Some(count) => Ok(Term::integer(i64::from(count))),
        None => Err(Fault::Badarg),
    }
}

/// `++`: the elements of a list before any term. Badarg where the first isn't a proper list, SystemLimit where the list would be too
/// deep.
pub fn append_of(alloc: Global, list: &Term, tail: &Term) -> Result<Term, NativeError>
    ensures { Gives result (faulting (append_of list.now tail.now)) }
{
    match elements_in(alloc, list)? {
        Some(items) => make_list(alloc, items, tail.clone()?),
        None => Err(raised(Fault::Badarg)),
    }
}

fn character_terms(alloc: Global, text: &str) -> Result<Vec<Term>, AllocError>
    ensures { IfOk result (λ v. v.items ≡ map (λ c. int_term (pos c)) (chars text.now)) }
{
    text.chars()
        .map(|c| Term::integer(i64::from(u32::from(c))))
        .collect(alloc)
}

fn digit_terms(alloc: Global, n: i64) -> Result<Vec<Term>, AllocError>
    ensures { IfOk result (λ v. v.items ≡ map (λ c. int_term (pos c)) (signed_decimal n)) }
{
    let text = n.to_string(alloc)?;
    text.as_str()
        .bytes()
        .map(|b| Term::integer(i64::from(b)))
        .collect(alloc)
}

/// The code points of an atom's text. Badarg where it isn't an atom.
pub fn list_of_atom(alloc: Global, atom: &Term) -> Result<Term, NativeError>
    ensures { Gives result (faulting (list_of_atom atom.now)) }
{
    match atom.view() {
        TermView::Atom(name) => {
            make_list(alloc, character_terms(alloc, name.as_str())?, Term::nil())
        }
        _ => Err(raised(Fault::Badarg)),
    }
}

/// The decimal digits of an integer, a minus sign first where it is negative. Badarg where it isn't an integer.
pub fn list_of_integer(alloc: Global, term: &Term) -> Result<Term, NativeError>
    ensures { Gives result (faulting (list_of_integer term.now)) }
{
    match term.view() {
        TermView::Integer(n) => make_list(alloc, digit_terms(alloc, n)?, Term::nil()),
        _ => Err(raised(Fault::Badarg)),
    }
}
