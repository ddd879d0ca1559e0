//! Writing the fields and the entries of tables.

ghost use Rattle.std.specs.Prelude.{◌≡◌, ◌++◌, OnOk};
ghost use Rattle.std.specs.Result.{IsOkUnless};
ghost use Rattle.byteorder.specs.Endian.{big_bytes};
ghost use Rattle.beam_term.specs.TermValue.{IsTerm};
ghost use Rattle.beam_model.specs.Tables.{number_bytes, atom_bytes, index_bytes, import_bytes, export_bytes, literal_bytes};
ghost use Rattle.beam_tables.specs.Readings.{Adds, Gives};

use crate::error::TablesError;
use beam_etf::write_term;
use beam_model::function::{Export, Import};
use beam_term::{Atom, Term};
use byteorder::{BigEndian, ByteOrder};
use indexmap::IndexSet;

/// Adds a number in four bytes.
fn put_number(out: &mut Vec<u8>, number: u32) -> Result<(), TablesError>
    ensures ok { OnOk result (out.new.items ≡ out.old.items ++ big_bytes 4 number) }
    ensures memory { IsOkUnless result TablesError.NoMemory }
{
    let mut bytes = [0; 4];
    BigEndian::write_u32(&mut bytes, number);
    out.extend_from_slice(&bytes)?;
    Ok(())
}

/// Adds a number of entries.
#[tactic(auto, unfolding(beam_model::specs::Tables::number_bytes))]
pub(crate) fn put_count(out: &mut Vec<u8>, count: usize) -> Result<(), TablesError>
    ensures { Adds out.old.items out.new.items result (number_bytes count) }
{
    let Ok(count) = u32::try_from(count) else {
        return Err(TablesError::BadTable);
    };
    put_number(out, count)
}

/// Adds an atom, after its length.
#[tactic(auto, unfolding(beam_model::specs::Tables::atom_bytes, beam_model::specs::Tables::utf8_text), using(crate::proofs::Texts::texts))]
pub(crate) fn put_atom(out: &mut Vec<u8>, atom: &Atom) -> Result<(), TablesError>
    ensures { Adds out.old.items out.new.items result (atom_bytes atom.now) }
{
    let text = atom.as_str().as_bytes();
    let Ok(size) = u8::try_from(text.len()) else {
        return Err(TablesError::BadTable);
    };
    out.push(size)?;
    out.extend_from_slice(text)?;
    Ok(())
}

/// The index of an atom, counted from 1.
#[tactic(auto, unfolding(beam_model::specs::Tables::index_bytes, beam_model::specs::Tables::index_of, beam_model::specs::Tables::number_bytes))]
fn index(atoms: &IndexSet<Atom>, atom: &Atom) -> Result<u32, TablesError>
    ensures { Gives (λ i. big_bytes 4 i) result (index_bytes atoms.now.keys atom.now) }
{
    let Some(place) = atoms.get_index_of(atom) else {
        return Err(TablesError::BadTable);
    };
    if place >= u32::MAX as usize {
        return Err(TablesError::BadTable);
    }
    Ok(place as u32 + 1)
}

/// Adds an import.
#[tactic(auto, unfolding(beam_model::specs::Tables::import_bytes, beam_model::specs::Tables::number_bytes))]
pub(crate) fn put_import(
    out: &mut Vec<u8>,
    atoms: &IndexSet<Atom>,
    import: &Import,
) -> Result<(), TablesError>
    ensures { Adds out.old.items out.new.items result (import_bytes atoms.now.keys import.now) }
{
    let module = index(atoms, &import.module)?;
    let function = index(atoms, &import.function)?;
    put_number(out, module)?;
    put_number(out, function)?;
    put_number(out, import.arity)?;
    Ok(())
}

/// Adds an export.
#[tactic(auto, unfolding(beam_model::specs::Tables::export_bytes, beam_model::specs::Tables::number_bytes))]
pub(crate) fn put_export(
    out: &mut Vec<u8>,
    atoms: &IndexSet<Atom>,
    export: &Export,
) -> Result<(), TablesError>
    ensures { Adds out.old.items out.new.items result (export_bytes atoms.now.keys export.now) }
{
    let name = index(atoms, &export.name)?;
    put_number(out, name)?;
    put_number(out, export.arity)?;
    put_number(out, export.label)?;
    Ok(())
}

/// Adds a literal, after its size.
#[tactic(auto, unfolding(beam_model::specs::Tables::literal_bytes))]
pub(crate) fn put_literal(out: &mut Vec<u8>, literal: &Term) -> Result<(), TablesError>
    ensures adds { Adds out.old.items out.new.items result (literal_bytes literal.now) }
    ensures lawful { IsTerm literal.now }
{
    let _lawful = literal.depth();
    let mut bytes = Vec::new(*out.allocator());
    let Ok(()) = write_term(literal, &mut bytes) else {
        return Err(TablesError::NoMemory);
    };
    put_count(out, bytes.len())?;
    out.extend_from_slice(&bytes)?;
    Ok(())
}
