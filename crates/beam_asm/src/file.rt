//! The file of a listing whose atoms, imports and literals are numbered.

ghost use Rattle.std.specs.Prelude.{◌≡◌, Some, IfOk};
ghost use Rattle.std.specs.Result.{result_ok};
ghost use Rattle.beam_model.specs.Tables.{tables_bytes};
ghost use Rattle.beam_model.specs.Assembly.{code_bytes, code_parts, tables_with, file_with};
ghost use Rattle.beam_tables.specs.Written.{chunks_of};
ghost use Rattle.beam_asm.specs.Refusals.{Gives};

use beam_check::error::CheckError;
use beam_code::{CodeError, Numbering, write_code};
use beam_iff::{Chunks, write_form};
use beam_model::function::Export;
use beam_model::listing::Listing;
use beam_tables::{TableChunks, TablesError, write_tables};
use std::alloc::Global;

fn tables(
    alloc: Global,
    numbering: &Numbering,
    exports: &[Export],
) -> Result<TableChunks, CheckError>
    ensures { Gives chunks_of result (result_ok (tables_bytes (tables_with numbering.now exports.now))) }
{
    let atoms = &numbering.atoms;
    let imports = numbering.imports.as_slice();
    let literals = numbering.literals.as_slice();
    match write_tables(alloc, atoms, imports, exports, literals) {
        Ok(chunks) => Ok(chunks),
        Err(TablesError::NoMemory) => Err(CheckError::NoMemory),
        Err(_) => Err(CheckError::LimitExceeded),
    }
}

fn code(alloc: Global, numbering: &Numbering, listing: &Listing) -> Result<Vec<u8>, CheckError>
    ensures { Gives (λ v. v.items) result (code_bytes numbering.now (code_parts listing.now)) }
{
    let labels = listing.label_count;
    let functions = listing.function_count;
    match write_code(alloc, numbering, labels, functions, &listing.instructions) {
        Ok(bytes) => Ok(bytes),
        Err(CodeError::NoMemory) => Err(CheckError::NoMemory),
        Err(_) => Err(CheckError::LimitExceeded),
    }
}

/// The file of a listing with these numbers. LimitExceeded: a number or a size doesn't fit where it is to be written.
#[tactic(auto, unfolding(beam_model::specs::Assembly::file_with))]
pub fn file(alloc: Global, numbering: &Numbering, listing: &Listing) -> Result<Vec<u8>, CheckError>
    ensures { Gives (λ v. v.items) result (file_with numbering.now listing.now) }
{
    let chunks = tables(alloc, numbering, &listing.exports)?;
    let code = code(alloc, numbering, listing)?;
    let form = Chunks {
        atoms: Some(&chunks.atoms),
        code: Some(&code),
        imports: Some(&chunks.imports),
        exports: Some(&chunks.exports),
        literals: chunks.literals.as_deref(),
    };
    match write_form(alloc, &form) {
        Ok(bytes) => Ok(bytes),
        Err(_) => Err(CheckError::NoMemory),
    }
}
