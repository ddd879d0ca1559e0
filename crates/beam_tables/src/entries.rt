//! The entries of a table, one after the other.

ghost use Rattle.std.specs.Prelude.{◌≡◌};
ghost use Rattle.beam_model.specs.Tables.{atom_of_index, entries_at, table_atom_at, import_at, export_at};
ghost use Rattle.beam_tables.specs.Readings.{Gives};

use crate::error::TablesError;
use crate::fields::{atom, number};
use crate::tables::AtomTable;
use beam_model::function::{Export, Import};
use beam_term::Atom;
use std::alloc::Global;

/// This many atoms.
pub(crate) fn atom_entries(
    alloc: Global,
    count: u32,
    bytes: &[u8],
) -> Result<Vec<Atom>, TablesError>
    ensures { Gives (λ v. v.items) result (entries_at table_atom_at count bytes.now) }
{
    let mut atoms = Vec::new(alloc);
    let mut rest = bytes;
    for _ in 0..count {
        let (atom, behind) = atom(alloc, rest)?;
        atoms.push(atom)?;
        rest = behind;
    }
    Ok(atoms)
}

/// The atom of an index, shared.
#[tactic(auto, unfolding(beam_model::specs::Tables::atom_of_index))]
fn named(atoms: &AtomTable, index: u32) -> Result<Atom, TablesError>
    ensures { Gives (λ a. a) result (atom_of_index atoms.now index) }
{
    let Some(atom) = atoms.get(index) else {
        return Err(TablesError::BadTable);
    };
    let Ok(atom) = atom.try_share() else {
        return Err(TablesError::NoMemory);
    };
    Ok(atom)
}

/// An import, and the bytes after it.
#[tactic(auto, unfolding(beam_model::specs::Tables::import_at))]
fn import<'a>(atoms: &AtomTable, bytes: &'a [u8]) -> Result<(Import, &'a [u8]), TablesError>
    ensures { Gives (λ r. (r.0, r.1.now)) result (import_at atoms.now bytes.now) }
{
    let (module_index, rest) = number(bytes)?;
    let (function_index, rest) = number(rest)?;
    let (arity, rest) = number(rest)?;
    let module = named(atoms, module_index)?;
    let function = named(atoms, function_index)?;
    Ok((
        Import {
            module,
            function,
            arity,
        },
        rest,
    ))
}

/// This many imports.
pub(crate) fn import_entries(
    alloc: Global,
    atoms: &AtomTable,
    count: u32,
    bytes: &[u8],
) -> Result<Vec<Import>, TablesError>
    ensures { Gives (λ v. v.items) result (entries_at (import_at atoms.now) count bytes.now) }
{
    let mut imports = Vec::new(alloc);
    let mut rest = bytes;
    for _ in 0..count {
        let (import, behind) = import(atoms, rest)?;
        imports.push(import)?;
        rest = behind;
    }
    Ok(imports)
}

/// An export, and the bytes after it.
#[tactic(auto, unfolding(beam_model::specs::Tables::export_at))]
fn export<'a>(atoms: &AtomTable, bytes: &'a [u8]) -> Result<(Export, &'a [u8]), TablesError>
    ensures { Gives (λ r. (r.0, r.1.now)) result (export_at atoms.now bytes.now) }
{
    let (index, rest) = number(bytes)?;
    let (arity, rest) = number(rest)?;
    let (label, rest) = number(rest)?;
    let name = named(atoms, index)?;
    Ok((Export { name, arity, label }, rest))
}

/// This many exports.
pub(crate) fn export_entries(
    alloc: Global,
    atoms: &AtomTable,
    count: u32,
    bytes: &[u8],
) -> Result<Vec<Export>, TablesError>
    ensures { Gives (λ v. v.items) result (entries_at (export_at atoms.now) count bytes.now) }
{
    let mut exports = Vec::new(alloc);
    let mut rest = bytes;
    for _ in 0..count {
        let (export, behind) = export(atoms, rest)?;
        exports.push(export)?;
        rest = behind;
    }
    Ok(exports)
}
