ghost use Rattle.std.specs.Prelude.{◌≡◌, length, IfOk, IfErr, MatchResult, Ok};
ghost use Rattle.std.specs.Option.{option_copied};
ghost use Rattle.beam_model.specs.Form.{Form, empty_form, agree, content_at, chunk_at, once, with_chunk, with_chunks, form_at};
ghost use Rattle.beam_model.specs.ChunkForm.{IsForm};
ghost use Rattle.beam_iff.specs.Chunks.{form_of, Fails, Gives};

use crate::error::IffError;
use crate::form::{ATOMS, CODE, Chunks, EXPORTS, IMPORTS, LITERALS};
use byteorder::{BigEndian, ByteOrder};

/// Whether the bytes and the name agree as far as both go.
fn agrees(bytes: &[u8], name: &[u8]) -> bool
    ensures { result ≡ agree bytes.now name.now }
{
    bytes.iter().zip(name).all(|(byte, letter)| byte == letter)
}

/// The bytes between the type of the form and its end.
#[tactic(auto, unfolding(beam_model::specs::Form::content_at))]
fn content(bytes: &[u8]) -> Result<&[u8], IffError>
    ensures { Gives (λ r. r.now) result (content_at bytes.now) }
{
    if bytes.starts_with(&[0x1F, 0x8B]) {
        return Err(IffError::CompressedFile);
    }
    let kind = &bytes[bytes.len().min(8)..];
    if !agrees(bytes, b"FOR1") || !agrees(kind, b"BEAM") {
        return Err(IffError::NotForm);
    }
    if bytes.len() < 12 {
        return Err(IffError::Truncated);
    }
    let size = BigEndian::read_u32(&bytes[4..]) as usize;
    if size < 4 || bytes.len() < 8 + size {
        return Err(IffError::Truncated);
    }
    Ok(&bytes[12..][..size - 4])
}

/// The name and the content of the chunk at the front, and the bytes after its padding.
#[tactic(auto, unfolding(beam_model::specs::Form::chunk_at))]
fn split_chunk(bytes: &[u8]) -> Result<(&[u8], &[u8], &[u8]), IffError>
    ensures { Gives (λ r. (record { name = r.0.now; content = r.1.now }, r.2.now)) result (chunk_at bytes.now) }
{
    if bytes.len() < 8 {
        return Err(IffError::Truncated);
    }
    let size = BigEndian::read_u32(&bytes[4..]) as usize;
    if bytes.len() < 8 + size {
        return Err(IffError::Truncated);
    }
    let behind = &bytes[8..];
    let padded = size.div_ceil(4) * 4;
    Ok((
        &bytes[..4],
        &behind[..size],
        &behind[padded.min(behind.len())..],
    ))
}

/// The content, where there was none.
fn only<'a>(earlier: Option<&'a [u8]>, content: &'a [u8]) -> Result<Option<&'a [u8]>, IffError>
    ensures { Gives option_copied result (once (option_copied earlier.entry) content.now) }
{
    match earlier {
        None => Ok(Some(content)),
        Some(_) => Err(IffError::DuplicateChunk),
    }
}

/// The chunks with one more.
#[tactic(auto, unfolding(beam_model::specs::Form::with_chunk))]
fn with<'a>(chunks: Chunks<'a>, name: &[u8], content: &'a [u8]) -> Result<Chunks<'a>, IffError>
    ensures { Gives form_of result (with_chunk (form_of chunks.entry) (record { name = name.now; content = content.now })) }
{
    let mut chunks = chunks;
    if name == ATOMS {
        chunks.atoms = only(chunks.atoms, content)?;
    } else if name == CODE {
        chunks.code = only(chunks.code, content)?;
    } else if name == IMPORTS {
        chunks.imports = only(chunks.imports, content)?;
    } else if name == EXPORTS {
        chunks.exports = only(chunks.exports, content)?;
    } else if name == LITERALS {
        chunks.literals = only(chunks.literals, content)?;
    }
    Ok(chunks)
}

/// The chunks of the bytes.
fn all_chunks(bytes: &[u8]) -> Result<Chunks<'_>, IffError>
    ensures { Gives form_of result (with_chunks (length bytes.now) empty_form bytes.now) }
{
    let mut chunks = Chunks {
        atoms: None,
        code: None,
        imports: None,
        exports: None,
        literals: None,
    };
    let mut rest = bytes;
    while !rest.is_empty() {
        let (name, content, behind) = split_chunk(rest)?;
        chunks = with(chunks, name, content)?;
        rest = behind;
    }
    Ok(chunks)
}

/// The chunks of a file, as slices of it.
#[tactic(auto, unfolding(beam_model::specs::Form::form_at))]
pub fn chunks(bytes: &[u8]) -> Result<Chunks<'_>, IffError>
    ensures found { IfOk result (λ c. form_at bytes.now ≡ Ok (form_of c)) }
    // The bytes spell the form that is read.
    ensures spelled { IfOk result (λ c. IsForm (form_of c) bytes.now) }
    // A spelled form is read.
    ensures only { (form : Form) → IsForm form bytes.now → MatchResult result (λ c. form_of c ≡ form) (λ _. ⊥) }
    ensures fault { IfErr result (λ e. Fails e (form_at bytes.now)) }
{
    all_chunks(content(bytes)?)
}
