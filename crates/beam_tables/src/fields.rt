//! The fields of table entries.

ghost use Rattle.std.specs.Prelude.{◌≡◌, ◌≤◌, length, IfOk};
ghost use Rattle.std.specs.Result.{IsOkUnless};
ghost use Rattle.beam_model.specs.Tables.{table_number_at, utf8_text, table_atom_at, required_chunk};
ghost use Rattle.std.specs.Option.{option_copied};
ghost use Rattle.beam_tables.specs.Readings.{Gives};

use crate::error::TablesError;
use beam_term::{Atom, AtomError};
use byteorder::{BigEndian, ByteOrder};
use std::alloc::Global;

/// A number in four bytes, and the bytes after it.
#[tactic(auto, unfolding(beam_model::specs::Tables::table_number_at))]
pub(crate) fn number(bytes: &[u8]) -> Result<(u32, &[u8]), TablesError>
    ensures { Gives (λ r. (r.0, r.1.now)) result (table_number_at bytes.now) }
{
    if bytes.len() < 4 {
        return Err(TablesError::BadTable);
    }
    Ok((BigEndian::read_u32(bytes), &bytes[4..]))
}

/// Bytes that are UTF-8.
#[tactic(auto, unfolding(beam_model::specs::Tables::utf8_text), using(crate::proofs::Texts::texts))]
fn text(bytes: &[u8]) -> Result<&str, TablesError>
    ensures gives { Gives (λ r. r.now) result (utf8_text bytes.now) }
    ensures same { IfOk result (λ t. t.now ≡ bytes.now) }
{
    match str::from_utf8(bytes) {
        Ok(text) => Ok(text),
        Err(_) => Err(TablesError::BadTable),
    }
}

/// An atom of at most 255 bytes.
fn atom_of_text(alloc: Global, text: &str) -> Result<Atom, TablesError>
    requires { length text.now ≤ 255 }
    ensures ok { IfOk result (λ a. a ≡ text.now) }
    ensures memory { IsOkUnless result TablesError.NoMemory }
{
    match Atom::new(alloc, text) {
        Ok(atom) => Ok(atom),
        Err(AtomError::NoMemory) => Err(TablesError::NoMemory),
        Err(AtomError::TooLong) => unreachable!(),
    }
}

/// An atom with its length, and the bytes after it.
#[tactic(auto, unfolding(beam_model::specs::Tables::table_atom_at))]
pub(crate) fn atom(alloc: Global, bytes: &[u8]) -> Result<(Atom, &[u8]), TablesError>
    ensures { Gives (λ r. (r.0, r.1.now)) result (table_atom_at bytes.now) }
{
    let Some((size, rest)) = bytes.split_first() else {
        return Err(TablesError::BadTable);
    };
    let size = *size as usize;
    if rest.len() < size {
        return Err(TablesError::BadTable);
    }
    let text = text(&rest[..size])?;
    Ok((atom_of_text(alloc, text)?, &rest[size..]))
}

/// A chunk that has to be there.
#[tactic(auto, unfolding(beam_model::specs::Tables::required_chunk))]
pub(crate) fn present(chunk: Option<&[u8]>) -> Result<&[u8], TablesError>
    ensures { Gives (λ r. r.now) result (required_chunk (option_copied chunk.entry)) }
{
    match chunk {
        Some(bytes) => Ok(bytes),
        None => Err(TablesError::MissingChunk),
    }
}
