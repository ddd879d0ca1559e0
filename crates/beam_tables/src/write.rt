ghost use Rattle.std.specs.Prelude.{◌≡◌, List, ℕ, IfOk, IfErr, Ok, option_map};
ghost use Rattle.std.specs.List.{All};
ghost use Rattle.beam_term.specs.TermValue.{IsTerm};
ghost use Rattle.beam_model.specs.Tables.{atom_bytes, import_bytes, export_bytes, literal_bytes, table_bytes, atoms_bytes, literals_bytes, tables_bytes};
ghost use Rattle.beam_tables.specs.Readings.{Fails, Gives};
ghost use Rattle.beam_tables.specs.Written.{AreReadAs, chunks_of, tables_of};

use crate::error::TablesError;
use crate::put::{put_atom, put_count, put_export, put_import, put_literal};
use crate::tables::TableChunks;
use beam_model::function::{Export, Import};
use beam_term::{Atom, Term};
use indexmap::IndexSet;
use std::alloc::Global;

/// The count of the atoms, and the atoms.
#[tactic(auto, unfolding(beam_model::specs::Tables::table_bytes))]
fn counted_atoms(alloc: Global, atoms: &[Atom]) -> Result<Vec<u8>, TablesError>
    ensures { Gives (λ v. v.items) result (table_bytes atom_bytes atoms.now) }
{
    let mut out = Vec::new(alloc);
    put_count(&mut out, atoms.len())?;
    for atom in atoms {
        put_atom(&mut out, atom)?;
    }
    Ok(out)
}

/// An `AtU8` chunk.
#[tactic(auto, unfolding(beam_model::specs::Tables::atoms_bytes))]
fn atom_table(alloc: Global, atoms: &IndexSet<Atom>) -> Result<Vec<u8>, TablesError>
    ensures { Gives (λ v. v.items) result (atoms_bytes atoms.now.keys) }
{
    if atoms.is_empty() || atoms.len() > 65535 {
        return Err(TablesError::BadTable);
    }
    counted_atoms(alloc, atoms.as_slice())
}

/// An `ImpT` chunk.
#[tactic(auto, unfolding(beam_model::specs::Tables::table_bytes))]
fn import_table(
    alloc: Global,
    atoms: &IndexSet<Atom>,
    imports: &[Import],
) -> Result<Vec<u8>, TablesError>
    ensures { Gives (λ v. v.items) result (table_bytes (import_bytes atoms.now.keys) imports.now) }
{
    let mut out = Vec::new(alloc);
    put_count(&mut out, imports.len())?;
    for import in imports {
        put_import(&mut out, atoms, import)?;
    }
    Ok(out)
}

/// An `ExpT` chunk.
#[tactic(auto, unfolding(beam_model::specs::Tables::table_bytes))]
fn export_table(
    alloc: Global,
    atoms: &IndexSet<Atom>,
    exports: &[Export],
) -> Result<Vec<u8>, TablesError>
    ensures { Gives (λ v. v.items) result (table_bytes (export_bytes atoms.now.keys) exports.now) }
{
    let mut out = Vec::new(alloc);
    put_count(&mut out, exports.len())?;
    for export in exports {
        put_export(&mut out, atoms, export)?;
    }
    Ok(out)
}

/// The count of the literals, and the literals.
#[tactic(auto, unfolding(beam_model::specs::Tables::table_bytes))]
fn counted_literals(alloc: Global, literals: &[Term]) -> Result<Vec<u8>, TablesError>
    ensures gives { Gives (λ v. v.items) result (table_bytes literal_bytes literals.now) }
    ensures lawful { IfOk result (λ _. All IsTerm literals.now) }
{
    let mut out = Vec::new(alloc);
    put_count(&mut out, literals.len())?;
    for literal in literals {
        put_literal(&mut out, literal)?;
    }
    Ok(out)
}

/// A `LitT` chunk, where there are literals.
#[tactic(auto, unfolding(beam_model::specs::Tables::literals_bytes))]
fn literal_table(alloc: Global, literals: &[Term]) -> Result<Option<Vec<u8>>, TablesError>
    ensures gives { Gives (λ o. option_map (λ v. v.items) o) result (literals_bytes literals.now) }
    ensures lawful { IfOk result (λ _. All IsTerm literals.now) }
{
    if literals.is_empty() {
        return Ok(None);
    }
    let mut out = Vec::new(alloc);
    put_count(&mut out, 0)?;
    let table = counted_literals(alloc, literals)?;
    out.extend_from_slice(&table)?;
    Ok(Some(out))
}

/// The chunks of tables: the atoms in their order, of which the first names the module, imports
/// and exports by the indices of their atoms, and the literals, without a chunk where there are none.
///
/// Refused as BadTable: no atom, or more than 65,535; an atom of more than 255 bytes; an import or
/// an export with an atom that isn't among them; 2^32 imports, exports, literals or bytes of a literal.
#[tactic(auto, unfolding(beam_model::specs::Tables::tables_bytes))]
pub fn write_tables(
    alloc: Global,
    atoms: &IndexSet<Atom>,
    imports: &[Import],
    exports: &[Export],
    literals: &[Term],
) -> Result<TableChunks, TablesError>
    ensures bytes { IfOk result (λ w. tables_bytes (tables_of atoms.now.keys imports.now exports.now literals.now) ≡ Ok (chunks_of w)) }
    // The chunks are read as these tables again.
    ensures read_back { IfOk result (λ w. AreReadAs w (tables_of atoms.now.keys imports.now exports.now literals.now)) }
    ensures fault { IfErr result (λ e. Fails e (tables_bytes (tables_of atoms.now.keys imports.now exports.now literals.now))) }
{
    Ok(TableChunks {
        atoms: atom_table(alloc, atoms)?,
        imports: import_table(alloc, atoms, imports)?,
        exports: export_table(alloc, atoms, exports)?,
        literals: literal_table(alloc, literals)?,
    })
}
