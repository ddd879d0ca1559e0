ghost use Rattle.std.specs.Prelude.{◌≡◌, ◌++◌, ◌<◌, ◌^◌, length, IfOk, OnOk, Ok};
ghost use Rattle.std.specs.Result.{IsOkUnless};
ghost use Rattle.std.specs.Option.{option_copied};
ghost use Rattle.byteorder.specs.Endian.{big_bytes};
ghost use Rattle.beam_model.specs.Form.{padding, chunk_bytes, form_body, form_bytes, form_at};
ghost use Rattle.beam_iff.specs.Chunks.{form_of};

use crate::error::IffError;
use crate::form::{ATOMS, CODE, Chunks, EXPORTS, IMPORTS, LITERALS};
use byteorder::{BigEndian, ByteOrder};
use std::alloc::Global;

/// Adds a size in four bytes, where it fits.
fn put_size(out: &mut Vec<u8>, size: usize) -> Result<(), IffError>
    ensures ok { OnOk result (out.new.items ≡ out.old.items ++ big_bytes 4 size) }
    ensures fits { OnOk result (size < 2 ^ 32) }
    ensures memory { IsOkUnless result IffError.NoMemory }
{
    let Ok(size) = u32::try_from(size) else {
        return Err(IffError::NoMemory);
    };
    let mut bytes = [0; 4];
    BigEndian::write_u32(&mut bytes, size);
    out.extend_from_slice(&bytes)?;
    Ok(())
}

/// Adds zeros after this many bytes, up to a multiple of 4.
#[tactic(auto, using(std::proofs::lemmas::Grind::common_steps, std::proofs::lemmas::List::replicate_more))]
fn put_padding(out: &mut Vec<u8>, size: usize) -> Result<(), IffError>
    requires { size < 2 ^ 32 }
    ensures ok { OnOk result (out.new.items ≡ out.old.items ++ padding size) }
    ensures memory { IsOkUnless result IffError.NoMemory }
{
    let zeros = [0; 4];
    out.extend_from_slice(&zeros[..size.div_ceil(4) * 4 - size])?;
    Ok(())
}

/// Adds a chunk with its padding, if it is there.
fn put_chunk(out: &mut Vec<u8>, name: &[u8], content: Option<&[u8]>) -> Result<(), IffError>
    ensures ok { OnOk result (out.new.items ≡ out.old.items ++ chunk_bytes name.now (option_copied content.entry)) }
    ensures memory { IsOkUnless result IffError.NoMemory }
{
    let Some(content) = content else {
        return Ok(());
    };
    out.extend_from_slice(name)?;
    put_size(out, content.len())?;
    out.extend_from_slice(content)?;
    put_padding(out, content.len())?;
    Ok(())
}

/// The type of a form and its chunks.
fn body(alloc: Global, chunks: &Chunks) -> Result<Vec<u8>, IffError>
    ensures ok { IfOk result (λ v. v.items ≡ form_body (form_of chunks.now)) }
    ensures memory { IsOkUnless result IffError.NoMemory }
{
    let mut out = Vec::new(alloc);
    out.extend_from_slice(b"BEAM")?;
    put_chunk(&mut out, ATOMS, chunks.atoms)?;
    put_chunk(&mut out, CODE, chunks.code)?;
    put_chunk(&mut out, IMPORTS, chunks.imports)?;
    put_chunk(&mut out, EXPORTS, chunks.exports)?;
    put_chunk(&mut out, LITERALS, chunks.literals)?;
    Ok(out)
}

/// A file with these chunks, in the order atoms, code, imports, exports, literals, with padding 0.
///
/// A form of 2^32 bytes or more has no file; it is refused as NoMemory.
pub fn write_form(alloc: Global, chunks: &Chunks) -> Result<Vec<u8>, IffError>
    ensures bytes { IfOk result (λ v. v.items ≡ form_bytes (form_of chunks.now)) }
    ensures read_back { IfOk result (λ v. form_at v.items ≡ Ok (form_of chunks.now)) }
    ensures memory { IsOkUnless result IffError.NoMemory }
{
    let body = body(alloc, chunks)?;
    let mut out = Vec::new(alloc);
    out.extend_from_slice(b"FOR1")?;
    put_size(&mut out, body.len())?;
    out.extend_from_slice(&body)?;
    Ok(out)
}
