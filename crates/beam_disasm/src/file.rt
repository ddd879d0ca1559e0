//! Files and the listings that they spell.
ghost use Rattle.std.specs.Prelude.{◌≡◌, true, IfOk, IfErr, MatchResult, Ok};
ghost use Rattle.beam_iff.specs.Chunks.{form_of};
ghost use Rattle.beam_model.specs.Listing.{Listing as TheListing};
ghost use Rattle.beam_model.specs.File.{parts_of_form, listing_of_parts, listing_of_form, listing_of_file};
ghost use Rattle.beam_model.specs.FileForm.{IsFile};
ghost use Rattle.beam_code.specs.Bytes.{instructions_in};
ghost use Rattle.beam_disasm.specs.FileParts.{parts_of_file, parts_in};
ghost use Rattle.beam_disasm.specs.Refusals.{is_memory, Fails, Gives};

use crate::error::FileError;
use beam_code::{CodeBytes, CodeChunk};
use beam_iff::{Chunks, chunks};
use beam_model::listing::Listing;
use beam_tables::{Tables, TablesError, read_tables};
use std::alloc::Global;

/// The tables of a form, and the content of its code chunk.
#[tactic(auto, unfolding(beam_model::specs::File::parts_of_form, beam_model::specs::Tables::required_chunk))]
fn parts<'a>(alloc: Global, chunks: Chunks<'a>) -> Result<(Tables, &'a [u8]), FileError>
    ensures { Gives (λ p. record { tables = p.0; code = p.1.now }) result (parts_of_form (form_of chunks.entry)) }
{
    let tables = read_tables(alloc, &chunks)?;
    let Some(code) = chunks.code else {
        return Err(TablesError::MissingChunk.into());
    };
    Ok((tables, code))
}

/// A file's listing, and its code chunk's bytes with the tables that they speak of by index.
#[derive(Drop)]
pub struct Disassembled {
    pub listing: Listing,
    pub code: CodeBytes,
}

/// The listing that tables and a code chunk spell.
#[tactic(auto, unfolding(beam_model::specs::File::listing_of_parts))]
fn of_parts(alloc: Global, tables: Tables, code: &[u8]) -> Result<Disassembled, FileError>
    ensures listing { Gives (λ d. d.listing) result (listing_of_parts (record { tables = tables; code = code.now })) }
    ensures instructions { IfOk result (λ d. instructions_in d.code ≡ d.listing.instructions) }
    ensures chunk { IfOk result (λ d. parts_in d ≡ record { tables = tables; code = code.now }) }
{
    let Tables {
        atoms,
        imports,
        exports,
        literals,
    } = tables;
    let module = atoms.module().clone().map_err(TablesError::from)?;
    let (code, chunk) = CodeBytes::read(alloc, code, atoms.as_slice(), &imports, &literals)?;
    let CodeChunk {
        label_count,
        function_count,
        instructions,
    } = chunk;
    let listing = Listing {
        module,
        exports,
        label_count,
        function_count,
        instructions,
    };
    Ok(Disassembled { listing, code })
}

/// The listing that a form spells.
#[tactic(auto, unfolding(beam_model::specs::File::listing_of_form))]
fn of_form(alloc: Global, chunks: Chunks) -> Result<Disassembled, FileError>
    ensures listing { Gives (λ d. d.listing) result (listing_of_form (form_of chunks.entry)) }
    ensures instructions { IfOk result (λ d. instructions_in d.code ≡ d.listing.instructions) }
    ensures chunk { IfOk result (λ d. parts_of_form (form_of chunks.entry) ≡ Ok (parts_in d)) }
{
    let (tables, code) = parts(alloc, chunks)?;
    of_parts(alloc, tables, code)
}

/// The listing that the bytes of a BEAM file spell, as `disassemble` reads it, and the bytes of its `Code` chunk, which are copied, with
/// its atoms, imports and literals.
#[tactic(auto, unfolding(beam_model::specs::File::listing_of_file, crate::specs::FileParts::parts_of_file))]
pub fn disassemble_bytes(alloc: Global, bytes: &[u8]) -> Result<Disassembled, FileError>
    ensures ok { IfOk result (λ d. listing_of_file bytes.now ≡ Ok d.listing) }
    // The file spells the listing that is read.
    ensures spelled { IfOk result (λ d. IsFile bytes.now d.listing) }
    // A spelled listing is read, unless memory runs out.
    ensures only { (l : TheListing) → IsFile bytes.now l → MatchResult result (λ d. d.listing ≡ l) (λ e. is_memory e ≡ true) }
    ensures fault { IfErr result (λ e. Fails e (listing_of_file bytes.now)) }
    // The bytes that are kept spell the listing's instructions.
    ensures instructions { IfOk result (λ d. instructions_in d.code ≡ d.listing.instructions) }
    // The bytes are the file's code chunk, with the file's tables.
    ensures chunk { IfOk result (λ d. parts_of_file bytes.now ≡ Ok (parts_in d)) }
{
    of_form(alloc, chunks(bytes)?)
}

/// The listing that the bytes of a BEAM file spell: its form, its tables `AtU8`, `ImpT`, `ExpT` and, where it has literals, `LitT`,
/// and the instructions of its `Code` chunk up to `int_code_end`. Nothing is checked beyond that: labels, heads and exports are as
/// they are written.
///
/// A file that spells no listing is refused with the first fault of the earliest layer that has one: the form, the tables,
/// the instructions, each in the order of the bytes. Where memory was refused the answer says so, in place of any other.
pub fn disassemble(alloc: Global, bytes: &[u8]) -> Result<Listing, FileError>
    ensures ok { IfOk result (λ l. listing_of_file bytes.now ≡ Ok l) }
    // The file spells the listing that is read.
    ensures spelled { IfOk result (λ l. IsFile bytes.now l) }
    // A spelled listing is read, unless memory runs out.
    ensures only { (l : TheListing) → IsFile bytes.now l → MatchResult result (λ m. m ≡ l) (λ e. is_memory e ≡ true) }
    ensures fault { IfErr result (λ e. Fails e (listing_of_file bytes.now)) }
{
    let Disassembled { listing, code: _ } = disassemble_bytes(alloc, bytes)?;
    Ok(listing)
}
