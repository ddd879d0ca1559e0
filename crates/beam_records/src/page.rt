//! Pages: records after the number of the first one's entry.
ghost use Rattle.std.specs.Prelude.{◌≡◌, ◌<◌, ◌++◌, length, MatchOption, OnOk, OnErr};
ghost use Rattle.std.specs.Result.{IsOkUnless};
ghost use Rattle.byteorder.specs.Endian.{big_bytes};

use crate::error::RecordError;

/// Begins a page after bytes: appends the number of its first entry, in eight bytes. `NoMemory` where memory is refused; then nothing is
/// appended.
pub fn begin_page(out: &mut Vec<u8>, number: u64) -> Result<(), RecordError>
    ensures ok { OnOk result (out.new.items ≡ out.old.items ++ big_bytes 8 number) }
    ensures memory { IsOkUnless result RecordError.NoMemory }
    ensures err { OnErr result (out.new.items ≡ out.old.items) }
{
    out.extend_from_slice(&number.to_be_bytes())?;
    Ok(())
}

/// The number of a page's first entry, and its records; `None` exactly where the page has fewer than eight bytes. It takes no memory.
pub fn page_in(bytes: &[u8]) -> Option<(u64, &[u8])>
    ensures { MatchOption result (length bytes.now < 8) (λ p. bytes.now ≡ big_bytes 8 p.0 ++ p.1.now) }
{
    if bytes.len() < 8 {
        return None;
    }
    let (field, rest) = bytes.split_at(8);
    let number = u64::from_be_bytes([
        field[0], field[1], field[2], field[3], field[4], field[5], field[6], field[7],
    ]);
    Some((number, rest))
}
