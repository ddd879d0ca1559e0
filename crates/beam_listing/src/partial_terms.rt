//! Whether a form that isn't one of a listing is terms.

ghost use Rattle.std.specs.Prelude.{◌≡◌, Some, IfOk};
ghost use Rattle.std.specs.List.{list_all};
ghost use Rattle.beam_model.specs.Forms.{list_parts};
ghost use Rattle.beam_model.specs.ListingForms.{atom_of_text, headed_of};
ghost use Rattle.beam_model.specs.ListingReading.{is_term, has_unparsed_part, is_raise, parsed_parts, is_partial_tuple, is_partial_list, is_partial_term};

use crate::miss::Miss;
use crate::part::FormPart;
use crate::value::{atom, headed, list_parts, term, tuple_parts};
use std::alloc::{AllocError, Global};

fn is_term(alloc: Global, text: &[u8]) -> Result<bool, AllocError>
    ensures { IfOk result (λ b. b ≡ is_term text.now) }
{
    match term(alloc, text) {
        Ok(_) => Ok(true),
        Err(Miss::Unknown) => Ok(false),
        Err(Miss::NoMemory) => Err(AllocError),
    }
}

fn are_terms(alloc: Global, parts: &[FormPart<'_>]) -> Result<bool, AllocError>
    ensures { IfOk result (λ b. b ≡ list_all is_term parts.now) }
{
    for part in parts {
        if !is_term(alloc, part.text())? {
            return Ok(false);
        }
    }
    Ok(true)
}

fn has_unparsed_part(name: &str) -> bool
    ensures { result ≡ has_unparsed_part name.now }
{
    name == "attributes" || name == "line" || name == "%"
}

fn is_raise(alloc: Global, text: &[u8]) -> Result<bool, AllocError>
    ensures { IfOk result (λ b. b ≡ is_raise (atom_of_text text.now)) }
{
    match atom(alloc, text) {
        Ok(name) => Ok(name.as_str() == "raise"),
        Err(Miss::Unknown) => Ok(false),
        Err(Miss::NoMemory) => Err(AllocError),
    }
}

// The parts after a name that have to be terms.
fn parsed_parts<'p, 'a>(
    alloc: Global,
    name: &str,
    parts: &'p [FormPart<'a>],
) -> Result<&'p [FormPart<'a>], AllocError>
    ensures { IfOk result (λ v. v.now ≡ parsed_parts name.now parts.now) }
{
    match parts {
        [_] if has_unparsed_part(name) => Ok(&parts[1..]),
        [_, _] if name == "tr" => Ok(&parts[..1]),
        [native, _, _, _] => {
            if name == "bif" && is_raise(alloc, native.text())? {
                return Ok(&parts[2..3]);
            }
            Ok(parts)
        }
        _ => Ok(parts),
    }
}

/// Whether a text is the text of a term, except for free parts in its first levels of brackets.
#[cycle(partial)]
#[tactic(auto, using(crate::proofs::Fuel::is_partial_term_is, crate::proofs::Fuel::is_partial_term_none))]
pub fn is_partial_term(alloc: Global, levels: u8, text: &[u8]) -> Result<bool, AllocError>
    ensures { IfOk result (λ b. b ≡ is_partial_term levels text.now) }
{
    if is_term(alloc, text)? {
        return Ok(true);
    }
    if levels == 0 {
        return Ok(false);
    }
    if is_partial_tuple(alloc, levels - 1, text)? {
        return Ok(true);
    }
    is_partial_list(alloc, levels - 1, text)
}

#[cycle(partial)]
#[tactic(auto, unfolding(beam_model::specs::ListingForms::headed_of))]
fn is_partial_tuple(alloc: Global, levels: u8, text: &[u8]) -> Result<bool, AllocError>
    ensures { IfOk result (λ b. b ≡ is_partial_tuple (is_partial_term levels) (headed_of text.now)) }
{
    let parts = match tuple_parts(alloc, text) {
        Ok(parts) => parts,
        Err(Miss::Unknown) => return Ok(false),
        Err(Miss::NoMemory) => return Err(AllocError),
    };
    match headed(alloc, &parts) {
        Ok((name, others)) => are_partial_after_name(alloc, levels, name.as_str(), others),
        Err(Miss::Unknown) => Ok(false),
        Err(Miss::NoMemory) => Err(AllocError),
    }
}

// The parts after a name.
#[cycle(partial)]
fn are_partial_after_name(
    alloc: Global,
    levels: u8,
    name: &str,
    parts: &[FormPart<'_>],
) -> Result<bool, AllocError>
    ensures { IfOk result (λ b. b ≡ is_partial_tuple (is_partial_term levels) (Some (name.now, parts.now))) }
{
    if name == "literal" {
        return are_terms(alloc, parts);
    }
    are_partial_terms(alloc, levels, parsed_parts(alloc, name, parts)?)
}

#[cycle(partial)]
fn is_partial_list(alloc: Global, levels: u8, text: &[u8]) -> Result<bool, AllocError>
    ensures { IfOk result (λ b. b ≡ is_partial_list (is_partial_term levels) (list_parts text.now)) }
{
    match list_parts(alloc, text) {
        Ok(parts) => are_partial_terms(alloc, levels, &parts),
        Err(Miss::Unknown) => Ok(false),
        Err(Miss::NoMemory) => Err(AllocError),
    }
}

#[cycle(partial)]
fn are_partial_terms(alloc: Global, levels: u8, parts: &[FormPart<'_>]) -> Result<bool, AllocError>
    ensures { IfOk result (λ b. b ≡ list_all (is_partial_term levels) parts.now) }
{
    for part in parts {
        if !is_partial_term(alloc, levels, part.text())? {
            return Ok(false);
        }
    }
    Ok(true)
}
