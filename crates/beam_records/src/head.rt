//! The head of a journal's file.
ghost use Rattle.std.specs.Prelude.{◌≡◌, ◌↔◌, ◌++◌, ℕ, List, length, IfOk, IsErrOf, MatchOption, OnOk, OnErr};
ghost use Rattle.std.specs.Result.{IsOkUnless};
ghost use Rattle.byteorder.specs.Endian.{big_bytes};
ghost use Rattle.beam_records.specs.JournalFile.{IsOtherVersion, head_of, signature};

use crate::error::RecordError;
use crate::page::page_in;
use thiserror::Error;

/// Why bytes are no head of a journal's file.
#[derive(Clone, Copy, Debug, PartialEq, Eq, Error)]
pub enum HeadError {
    /// They aren't the head of a journal's file: they begin with no signature and version, or they are of version 1 and aren't such a head.
    #[error("NoJournal")]
    NoJournal,
    /// They begin with the signature and a version that isn't 1.
    #[error("OtherVersion")]
    OtherVersion,
}

/// Appends the head of a new journal's file, of 35 bytes, with its identifier. `NoMemory` where memory is refused; then nothing is appended.
pub fn put_head(out: &mut Vec<u8>, id: &[u8; 16]) -> Result<(), RecordError>
    ensures ok { OnOk result (out.new.items ≡ out.old.items ++ head_of id.now) }
    ensures memory { IsOkUnless result RecordError.NoMemory }
    ensures err { OnErr result (out.new.items ≡ out.old.items) }
{
    out.reserve(35)?;
    out.extend_from_slice(b"KANGURIWE\0\x01")?;
    out.extend_from_slice(id)?;
    out.extend_from_slice(&[0; 8])?;
    Ok(())
}

/// The bytes after the signature; `None` exactly where they don't begin with it.
fn after_signature(bytes: &[u8]) -> Option<&[u8]>
    ensures { MatchOption result ((rest : List ℕ) → bytes.now ≡ signature ++ rest → ⊥) (λ rest. bytes.now ≡ signature ++ rest.now) }
{
    bytes.strip_prefix(b"KANGURIWE\0")
}

/// The identifier in what follows version 1.
fn id_in(bytes: &[u8]) -> Option<[u8; 16]>
    ensures { MatchOption result ((id : List ℕ) → length id ≡ 16 → bytes.now ≡ id ++ big_bytes 8 0 → ⊥) (λ id. bytes.now ≡ id ++ big_bytes 8 0) }
{
    if bytes.len() != 24 {
        return None;
    }
    let (front, back) = bytes.split_at(16);
    let Some((first, _rest)) = page_in(back) else {
        return None;
    };
    if first != 0 {
        return None;
    }
    let mut id = [0; 16];
    id.copy_from_slice(front);
    Some(id)
}

/// The identifier in the head of a journal's file: the content of its first block. It takes no memory.
pub fn head_in(bytes: &[u8]) -> Result<[u8; 16], HeadError>
    ensures head { IfOk result (λ id. bytes.now ≡ head_of id) }
    ensures other { IsErrOf result HeadError.OtherVersion ↔ IsOtherVersion bytes.now }
    ensures none { IsErrOf result HeadError.NoJournal → (id : List ℕ) → length id ≡ 16 → bytes.now ≡ head_of id → ⊥ }
{
    let Some(rest) = after_signature(bytes) else {
        return Err(HeadError::NoJournal);
    };
    let Some((version, rest)) = rest.split_first() else {
        return Err(HeadError::NoJournal);
    };
    if *version != 1 {
        return Err(HeadError::OtherVersion);
    }
    match id_in(rest) {
        Some(id) => Ok(id),
        None => Err(HeadError::NoJournal),
    }
}
