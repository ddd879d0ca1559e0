//! Whole texts: numbers, atoms, terms, and tuples with a name in front.

ghost use Rattle.std.specs.Prelude.{◌≡◌, IfOk};
ghost use Rattle.beam_term.specs.TermValue.{IsSmall};
ghost use Rattle.beam_model.specs.Forms.{tuple_parts, list_parts};
ghost use Rattle.beam_model.specs.ListingForms.{integer_of_text, atom_of_text, term_of, number_of_text, headed_by, only, part_of};
ghost use Rattle.beam_listing.specs.Gives.{Gives};

use crate::forms::elements;
use crate::miss::Miss;
use crate::part::FormPart;
use beam_erltext::ReadFault;
use beam_erltext::read::{MAX_DEPTH, read_term};
use beam_erltext::token::{read_atom, read_integer};
use beam_term::{Atom, Term};
use std::alloc::Global;

/// The integer that a text is.
#[tactic(auto, unfolding(beam_model::specs::ListingForms::integer_of_text))]
pub fn integer(text: &[u8]) -> Result<i64, Miss>
    ensures gives { Gives (λ z. z) result (integer_of_text text.now) }
    ensures small { IfOk result (λ z. IsSmall z) }
{
    match read_integer(text) {
        Ok((value, [])) => Ok(value),
        Ok(_) | Err(ReadFault::At(_)) => Err(Miss::Unknown),
        Err(ReadFault::NoMemory) => Err(Miss::NoMemory),
    }
}

/// The number of 32 bits that a text is.
#[tactic(auto, unfolding(beam_model::specs::ListingForms::number_of_text))]
pub fn number(text: &[u8]) -> Result<u32, Miss>
    ensures { Gives (λ n. n) result (number_of_text text.now) }
{
    let value = integer(text)?;
    match u32::try_from(value) {
        Ok(number) => Ok(number),
        Err(_) => Err(Miss::Unknown),
    }
}

/// The atom that a text is.
#[tactic(auto, unfolding(beam_model::specs::ListingForms::atom_of_text))]
pub fn atom(alloc: Global, text: &[u8]) -> Result<Atom, Miss>
    ensures { Gives (λ name. name) result (atom_of_text text.now) }
{
    match read_atom(alloc, text) {
        Ok((name, [])) => Ok(name),
        Ok(_) | Err(ReadFault::At(_)) => Err(Miss::Unknown),
        Err(ReadFault::NoMemory) => Err(Miss::NoMemory),
    }
}

/// The term that a text is.
#[tactic(auto, unfolding(beam_model::specs::ListingForms::term_of))]
pub fn term(alloc: Global, text: &[u8]) -> Result<Term, Miss>
    ensures { Gives (λ t. t) result (term_of text.now) }
{
    match read_term(alloc, MAX_DEPTH, text) {
        Ok((term, [])) => Ok(term),
        Ok(_) | Err(ReadFault::At(_)) => Err(Miss::Unknown),
        Err(ReadFault::NoMemory) => Err(Miss::NoMemory),
    }
}

/// The parts of `{..}`.
pub fn tuple_parts(alloc: Global, text: &[u8]) -> Result<Vec<FormPart<'_>>, Miss>
    ensures { Gives (λ v. v.items) result (tuple_parts text.now) }
{
    elements(alloc, b'{', b'}', text)
}

/// The elements of `[..]`.
pub fn list_parts(alloc: Global, text: &[u8]) -> Result<Vec<FormPart<'_>>, Miss>
    ensures { Gives (λ v. v.items) result (list_parts text.now) }
{
    elements(alloc, b'[', b']', text)
}

/// The name in front, and the parts after it.
pub fn headed<'p, 'a>(
    alloc: Global,
    parts: &'p [FormPart<'a>],
) -> Result<(Atom, &'p [FormPart<'a>]), Miss>
    ensures { Gives (λ x. (x.0, x.1.now)) result (headed_by parts.now) }
{
    match parts {
        [head, others @ ..] if !others.is_empty() => Ok((atom(alloc, head.text())?, others)),
        _ => Err(Miss::Unknown),
    }
}

/// The one part.
pub fn only<'a>(parts: &[FormPart<'a>]) -> Result<&'a [u8], Miss>
    ensures { Gives (λ part. part.now) result (only parts.now) }
{
    match parts {
        [part] => Ok(part.text()),
        _ => Err(Miss::Unknown),
    }
}

/// The part of `{name,part}`.
#[tactic(auto, unfolding(beam_model::specs::ListingForms::part_of, beam_model::specs::ListingForms::headed_of))]
pub fn part<'a>(alloc: Global, name: &str, text: &'a [u8]) -> Result<&'a [u8], Miss>
    ensures { Gives (λ part. part.now) result (part_of name.now text.now) }
{
    let parts = tuple_parts(alloc, text)?;
    let (head, others) = headed(alloc, &parts)?;
    let part = only(others)?;
    if head.as_str() != name {
        return Err(Miss::Unknown);
    }
    Ok(part)
}
