//! Numbers and pieces at the front of bytes.
ghost use Rattle.std.specs.Prelude.{◌≡◌, ◌<◌, ◌++◌, length, MatchOption};
ghost use Rattle.byteorder.specs.Endian.{big_bytes};

/// The number in the first two bytes, and the bytes after them.
pub(crate) fn two_in(bytes: &[u8]) -> Option<(u16, &[u8])>
    ensures { MatchOption result (length bytes.now < 2) (λ p. bytes.now ≡ big_bytes 2 p.0 ++ p.1.now) }
{
    if bytes.len() < 2 {
        return None;
    }
    let (field, rest) = bytes.split_at(2);
    Some((u16::from_be_bytes([field[0], field[1]]), rest))
}

/// The number in the first four bytes, and the bytes after them.
pub(crate) fn four_in(bytes: &[u8]) -> Option<(u32, &[u8])>
    ensures { MatchOption result (length bytes.now < 4) (λ p. bytes.now ≡ big_bytes 4 p.0 ++ p.1.now) }
{
    if bytes.len() < 4 {
        return None;
    }
    let (field, rest) = bytes.split_at(4);
    let number = u32::from_be_bytes([field[0], field[1], field[2], field[3]]);
    Some((number, rest))
}

/// The first `count` bytes, and the bytes after them.
pub(crate) fn bytes_in(bytes: &[u8], count: usize) -> Option<(&[u8], &[u8])>
    ensures { MatchOption result (length bytes.now < count) (λ p. (bytes.now ≡ p.0.now ++ p.1.now) × (length p.0.now ≡ count)) }
{
    if bytes.len() < count {
        return None;
    }
    let (piece, rest) = bytes.split_at(count);
    Some((piece, rest))
}
