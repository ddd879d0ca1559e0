//! The openings and bodies of records, read.
ghost use Rattle.std.specs.Prelude.{◌≡◌, ℕ, List, Option, MatchOption};
ghost use Rattle.beam_records.specs.Pieces.{OpensWith, Sized, HasBody};

use crate::fields::{bytes_in, four_in, two_in};
use crate::pieces::width_of;

/// The kind of the record at the front of bytes, the seat, and the bytes after them.
pub(crate) fn opening_in(bytes: &[u8]) -> Option<(u8, Option<u32>, &[u8])>
    ensures { MatchOption result ((seat : Option ℕ) (kind : ℕ) (rest : List ℕ) → OpensWith bytes.now seat kind rest → ⊥)
        (λ p. OpensWith bytes.now p.1 p.0 p.2.now) }
{
    let Some((first, rest)) = bytes.split_first() else {
        return None;
    };
    if *first < 128 {
        return Some((*first, None, rest));
    }
    let Some((seat, rest)) = two_in(rest) else {
        return None;
    };
    if seat >= 4096 {
        return None;
    }
    Some((*first - 128, Some(u32::from(seat)), rest))
}

/// Bytes that stand after their size in four bytes, and the bytes after them.
fn sized_in(bytes: &[u8]) -> Option<(&[u8], &[u8])>
    ensures { MatchOption result ((body rest : List ℕ) → Sized bytes.now body rest → ⊥) (λ p. Sized bytes.now p.0.now p.1.now) }
{
    let Some((size, rest)) = four_in(bytes) else {
        return None;
    };
    bytes_in(rest, size as usize)
}

/// The body of a kind at the front of bytes, without its size, and the bytes after it.
pub(crate) fn body_in(kind: u8, bytes: &[u8]) -> Option<(&[u8], &[u8])>
    ensures { MatchOption result ((body rest : List ℕ) → HasBody bytes.now kind body rest → ⊥) (λ p. HasBody bytes.now kind p.0.now p.1.now) }
{
    match width_of(kind) {
        Some(width) => bytes_in(bytes, width),
        None => sized_in(bytes),
    }
}
