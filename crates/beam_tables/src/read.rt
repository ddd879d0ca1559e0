ghost use Rattle.std.specs.Prelude.{◌≡◌, ℕ, List, IfOk, IfErr, MatchResult, Some, Ok};
ghost use Rattle.std.specs.Option.{option_copied};
ghost use Rattle.beam_model.specs.Tables.{Tables as TheTables, atoms_at, imports_at, exports_at, literals_at, literals_in, tables_at};
ghost use Rattle.beam_model.specs.TablesForm.{AreTables};
ghost use Rattle.beam_iff.specs.Chunks.{form_of};
ghost use Rattle.beam_tables.specs.Readings.{Fails, Gives};

use crate::entries::{atom_entries, export_entries, import_entries};
use crate::error::TablesError;
use crate::fields::{number, present};
use crate::literal::literal_entries;
use crate::tables::{AtomTable, Tables};
use beam_iff::Chunks;
use beam_model::function::{Export, Import};
use beam_term::Term;
use std::alloc::Global;

/// The atoms of an `AtU8` chunk: from 1 to 65,535 of them.
#[tactic(auto, unfolding(beam_model::specs::Tables::atoms_at))]
fn atoms(alloc: Global, bytes: &[u8]) -> Result<AtomTable, TablesError>
    ensures { Gives (λ t. t) result (atoms_at bytes.now) }
{
    let (count, rest) = number(bytes)?;
    if count == 0 || count > 65535 {
        return Err(TablesError::BadTable);
    }
    Ok(AtomTable {
        atoms: atom_entries(alloc, count, rest)?,
    })
}

/// The imports of an `ImpT` chunk.
#[tactic(auto, unfolding(beam_model::specs::Tables::imports_at))]
fn imports(alloc: Global, atoms: &AtomTable, bytes: &[u8]) -> Result<Vec<Import>, TablesError>
    ensures { Gives (λ v. v.items) result (imports_at atoms.now bytes.now) }
{
    let (count, rest) = number(bytes)?;
    import_entries(alloc, atoms, count, rest)
}

/// The exports of an `ExpT` chunk.
#[tactic(auto, unfolding(beam_model::specs::Tables::exports_at))]
fn exports(alloc: Global, atoms: &AtomTable, bytes: &[u8]) -> Result<Vec<Export>, TablesError>
    ensures { Gives (λ v. v.items) result (exports_at atoms.now bytes.now) }
{
    let (count, rest) = number(bytes)?;
    export_entries(alloc, atoms, count, rest)
}

/// The literals of a `LitT` chunk that isn't compressed.
#[tactic(auto, unfolding(beam_model::specs::Tables::literals_at))]
fn literals(alloc: Global, bytes: &[u8]) -> Result<Vec<Term>, TablesError>
    ensures { Gives (λ v. v.items) result (literals_at bytes.now) }
{
    let (compressed, rest) = number(bytes)?;
    if compressed != 0 {
        return Err(TablesError::CompressedLiterals);
    }
    let (count, rest) = number(rest)?;
    literal_entries(alloc, count, rest)
}

/// The literals of a chunk that may be left out.
#[tactic(auto, unfolding(beam_model::specs::Tables::literals_in))]
fn optional_literals(alloc: Global, chunk: Option<&[u8]>) -> Result<Vec<Term>, TablesError>
    ensures { Gives (λ v. v.items) result (literals_in (option_copied chunk.entry)) }
{
    match chunk {
        Some(bytes) => literals(alloc, bytes),
        None => Ok(Vec::new(alloc)),
    }
}

/// The tables of the chunks of a file.
#[tactic(auto, unfolding(beam_model::specs::Tables::tables_at))]
fn tables(alloc: Global, chunks: &Chunks) -> Result<Tables, TablesError>
    ensures { Gives (λ t. t) result (tables_at (form_of chunks.now)) }
{
    let atoms = atoms(alloc, present(chunks.atoms)?)?;
    present(chunks.code)?;
    let imports = imports(alloc, &atoms, present(chunks.imports)?)?;
    let exports = exports(alloc, &atoms, present(chunks.exports)?)?;
    let literals = optional_literals(alloc, chunks.literals)?;
    Ok(Tables {
        atoms,
        imports,
        exports,
        literals,
    })
}

/// The tables that the chunks of a file spell; without a chunk `LitT` there are no literals.
///
/// MissingChunk: no `AtU8`, `Code`, `ImpT` or `ExpT`. BadTable: a table or a literal's size passes its chunk's end, an atom
/// isn't UTF-8, there are no atoms or more than 65,535, or an import or an export has no atom of the table.
/// CompressedLiterals: the first number of `LitT` isn't 0. BadLiteral: the bytes of a literal don't spell one term, to their
/// end. The first fault is answered, in the order of the atoms, a missing code chunk, the imports, the exports, the literals.
/// Bytes after a table's last entry are ignored, and nothing is reserved by a count that a chunk claims.
pub fn read_tables(alloc: Global, chunks: &Chunks) -> Result<Tables, TablesError>
    ensures found { IfOk result (λ t. tables_at (form_of chunks.now) ≡ Ok t) }
    // The chunks spell the tables that are read.
    ensures spelled { IfOk result (λ t. AreTables (form_of chunks.now) t) }
    // Spelled tables are read, if there is a code chunk too, unless memory runs out.
    ensures only { (t : TheTables) (code : List ℕ) → AreTables (form_of chunks.now) t → (form_of chunks.now).code ≡ Some code
        → MatchResult result (λ u. u ≡ t) (λ e. e ≡ TablesError.NoMemory) }
    ensures fault { IfErr result (λ e. Fails e (tables_at (form_of chunks.now))) }
{
    tables(alloc, chunks)
}
