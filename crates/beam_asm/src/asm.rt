//! Assembling.

ghost use Rattle.std.specs.Prelude.{◌≡◌, true, nat_le, IfOk, IfErr, Ok, length};
ghost use Rattle.std.specs.List.{All, list_all};
ghost use Rattle.beam_term.specs.TermValue.{IsTerm};
ghost use Rattle.beam_model.specs.Loads.{IsLoadable};
ghost use Rattle.beam_model.specs.File.{listing_of_file};
ghost use Rattle.beam_model.specs.FileForm.{IsFile};
ghost use Rattle.beam_model.specs.Heads.{IsWellFormed};
ghost use Rattle.beam_model.specs.Assembly.{numbering_of, are_few_atoms, are_short_atoms, HasFile, without_line_numbers};
ghost use Rattle.beam_asm.specs.Refusals.{Refuses};

use crate::error::AsmError;
use crate::file::file;
use beam_check::check::check;
use beam_check::error::CheckError;
use beam_code::Numbering;
use beam_model::listing::Listing;
use beam_term::{Atom, Term};
use std::alloc::{AllocError, Global};

const MAX_ATOMS: usize = 65_535;

const MAX_FILE: usize = 8_388_608;

fn are_short(atoms: &[Atom]) -> bool
    ensures { result ≡ list_all (λ text. nat_le (length text) 255) atoms.now }
{
    atoms.iter().all(|atom| atom.as_str().len() <= 255)
}

/// Each of these terms has the invariant of its type.
fn are_terms(literals: &[Term])
    ensures { All IsTerm literals.now }
{
    for literal in literals {
        let _lawful = literal.depth();
    }
}

/// The numbers of a listing's atoms, imports and literals.
fn numbering(alloc: Global, listing: &Listing) -> Result<Numbering, AllocError>
    ensures numbers { IfOk result (λ n. n ≡ numbering_of listing.now) }
    ensures lawful { IfOk result (λ n. All IsTerm n.literals) }
{
    let numbering = Numbering::of(alloc, &listing.module, &listing.instructions)?;
    are_terms(numbering.literals.as_slice());
    Ok(numbering)
}

/// The file of a listing that can be loaded, whose atoms are few and short.
fn small_file(alloc: Global, numbering: &Numbering, listing: &Listing) -> Result<Vec<u8>, AsmError>
    requires numbers { numbering.now ≡ numbering_of listing.now }
    requires loadable { IsLoadable listing.now }
    requires few { are_few_atoms listing.now ≡ true }
    requires short { are_short_atoms listing.now ≡ true }
    ensures file { IfOk result (λ v. HasFile listing.now v.items) }
    ensures refused { IfErr result (λ e. Refuses e listing.now) }
{
    let bytes = file(alloc, numbering, listing)?;
    if bytes.len() > MAX_FILE {
        return Err(AsmError::Check(CheckError::LimitExceeded));
    }
    Ok(bytes)
}

/// The bytes of the BEAM file of a listing: the chunks `AtU8`, `Code`, `ImpT`, `ExpT`, and `LitT` where there is a literal. Atoms,
/// imports and literals are numbered by their first uses in the instructions, the module's name first. Integers, atoms and `[]`
/// stand in their operands; pairs, tuples, pids and references are literals. A line is written with 0.
///
/// The file spells the listing, but each line with the operand 0.
///
/// A listing that can't be loaded is refused with the check's fault. Then more than 65,535 atoms are TooManyAtoms, an atom of more
/// than 255 bytes is AtomTooLong, and a file of more than 8,388,608 bytes is LimitExceeded. NoMemory may stand in place of any
/// answer where memory was refused.
pub fn assemble(alloc: Global, listing: &Listing) -> Result<Vec<u8>, AsmError>
    // Only a well-formed listing has a file,
    ensures well_formed { IfOk result (λ _. IsWellFormed listing.now) }
    // and the file spells it, but each line with the operand 0.
    ensures stands { IfOk result (λ v. IsFile v.items (without_line_numbers listing.now)) }
    // The listing is also loadable by the definitions of the check; and the file, or the fault, is that of the definitions.
    ensures loadable { IfOk result (λ _. IsLoadable listing.now) }
    ensures atoms { IfOk result (λ _. (are_few_atoms listing.now ≡ true) × (are_short_atoms listing.now ≡ true)) }
    ensures file { IfOk result (λ v. HasFile listing.now v.items) }
    ensures refused { IfErr result (λ e. Refuses e listing.now) }
    ensures spells { IfOk result (λ v. listing_of_file v.items ≡ Ok (without_line_numbers listing.now)) }
{
    check(alloc, listing)?;
    let numbering = numbering(alloc, listing)?;
    if numbering.atoms.len() > MAX_ATOMS {
        return Err(AsmError::TooManyAtoms);
    }
    if !are_short(numbering.atoms.as_slice()) {
        return Err(AsmError::AtomTooLong);
    }
    let bytes = small_file(alloc, &numbering, listing)?;
    Ok(bytes)
}
