// The fields of the format: numbers, bytes and the texts of atoms. Each answers the field and the bytes after it.
ghost use Rattle.std.specs.Prelude.{◌≡◌, IfOk, length};
ghost use Rattle.std.specs.Int.{w16, w32};
ghost use Rattle.beam_model.specs.ExternalReading.{bytes_at, byte_at, big_endian_at, text_at};
ghost use Rattle.beam_etf.specs.Faults.{Gives};

use crate::error::EtfError;
use beam_term::{Atom, AtomError};
use std::alloc::Global;

#[tactic(auto, unfolding(beam_model::specs::ExternalReading::bytes_at))]
pub fn read_bytes(count: usize, bytes: &[u8]) -> Result<(&[u8], &[u8]), EtfError>
    ensures read { Gives (λ x. (x.0.now, x.1.now)) result (bytes_at count bytes.now) }
    ensures count { IfOk result (λ x. length x.0.now ≡ count) }
{
    if bytes.len() < count {
        return Err(EtfError::Truncated);
    }
    Ok(bytes.split_at(count))
}

#[tactic(auto, unfolding(beam_model::specs::ExternalReading::byte_at))]
pub fn read_byte(bytes: &[u8]) -> Result<(u8, &[u8]), EtfError>
    ensures { Gives (λ x. (x.0, x.1.now)) result (byte_at bytes.now) }
{
    match bytes {
        [] => Err(EtfError::Truncated),
        [byte, rest @ ..] => Ok((*byte, rest)),
    }
}

#[tactic(auto, unfolding(beam_model::specs::ExternalReading::big_endian_at, beam_model::specs::ExternalReading::bytes_at))]
pub fn read_u16(bytes: &[u8]) -> Result<(u16, &[u8]), EtfError>
    ensures { Gives (λ x. (x.0, x.1.now)) result (big_endian_at w16 bytes.now) }
{
    if bytes.len() < 2 {
        return Err(EtfError::Truncated);
    }
    let (field, rest) = bytes.split_at(2);
    Ok((u16::from_be_bytes([field[0], field[1]]), rest))
}

#[tactic(auto, unfolding(beam_model::specs::ExternalReading::big_endian_at, beam_model::specs::ExternalReading::bytes_at))]
pub fn read_u32(bytes: &[u8]) -> Result<(u32, &[u8]), EtfError>
    ensures { Gives (λ x. (x.0, x.1.now)) result (big_endian_at w32 bytes.now) }
{
    if bytes.len() < 4 {
        return Err(EtfError::Truncated);
    }
    let (field, rest) = bytes.split_at(4);
    Ok((
        u32::from_be_bytes([field[0], field[1], field[2], field[3]]),
        rest,
    ))
}

// The text of an atom, of `count` bytes.
#[tactic(auto, unfolding(beam_model::specs::ExternalReading::text_at))]
pub fn read_text(alloc: Global, count: usize, bytes: &[u8]) -> Result<(Atom, &[u8]), EtfError>
    ensures { Gives (λ x. (x.0, x.1.now)) result (text_at count bytes.now) }
{
    let (field, rest) = read_bytes(count, bytes)?;
    let Ok(text) = str::from_utf8(field) else {
        return Err(EtfError::BadUtf8);
    };
    match Atom::new(alloc, text) {
        Ok(atom) => Ok((atom, rest)),
        Err(AtomError::TooLong) => Err(EtfError::OutOfProfile),
        Err(AtomError::NoMemory) => Err(EtfError::NoMemory),
    }
}
