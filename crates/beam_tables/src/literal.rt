//! Literals: terms in the External Term Format, each after its size in four bytes.

ghost use Rattle.std.specs.Prelude.{◌≡◌};
ghost use Rattle.beam_model.specs.Tables.{sized_at, literal_of, literal_at, entries_at};
ghost use Rattle.beam_tables.specs.Readings.{Gives};

use crate::error::TablesError;
use crate::fields::number;
use beam_etf::{EtfError, read_term};
use beam_term::Term;
use std::alloc::Global;

/// The bytes after a size in four bytes, as many as the size is, and the bytes after them.
#[tactic(auto, unfolding(beam_model::specs::Tables::sized_at))]
fn sized(bytes: &[u8]) -> Result<(&[u8], &[u8]), TablesError>
    ensures { Gives (λ r. (r.0.now, r.1.now)) result (sized_at bytes.now) }
{
    let (size, rest) = number(bytes)?;
    let size = size as usize;
    if rest.len() < size {
        return Err(TablesError::BadTable);
    }
    Ok((&rest[..size], &rest[size..]))
}

/// The term that bytes spell, all of them.
#[tactic(auto, using(crate::proofs::Literals::literals))]
fn whole_term(alloc: Global, bytes: &[u8]) -> Result<Term, TablesError>
    ensures { Gives (λ t. t) result (literal_of bytes.now) }
{
    match read_term(alloc, bytes) {
        Ok((term, size)) => {
            if size < bytes.len() {
                return Err(TablesError::BadLiteral);
            }
            Ok(term)
        }
        Err(EtfError::NoMemory) => Err(TablesError::NoMemory),
        Err(_) => Err(TablesError::BadLiteral),
    }
}

/// A literal, and the bytes after it.
#[tactic(auto, unfolding(beam_model::specs::Tables::literal_at))]
fn literal(alloc: Global, bytes: &[u8]) -> Result<(Term, &[u8]), TablesError>
    ensures { Gives (λ r. (r.0, r.1.now)) result (literal_at bytes.now) }
{
    let (field, rest) = sized(bytes)?;
    Ok((whole_term(alloc, field)?, rest))
}

/// This many literals.
pub(crate) fn literal_entries(
    alloc: Global,
    count: u32,
    bytes: &[u8],
) -> Result<Vec<Term>, TablesError>
    ensures { Gives (λ v. v.items) result (entries_at literal_at count bytes.now) }
{
    let mut literals = Vec::new(alloc);
    let mut rest = bytes;
    for _ in 0..count {
        let (literal, behind) = literal(alloc, rest)?;
        literals.push(literal)?;
        rest = behind;
    }
    Ok(literals)
}
