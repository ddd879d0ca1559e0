//! Records, put together from their pieces.
ghost use Rattle.std.specs.Prelude.{◌≡◌, ◌<◌, ◌≤◌, ◌+◌, ◌^◌, ◌++◌, length, OnOk, OnErr};
ghost use Rattle.std.specs.Result.{IsOkUnless};
ghost use Rattle.beam_records.specs.JournalFile.{IsSeat, opening, sized, width_of};

use crate::error::RecordError;

/// How many bytes a body of the kind has, where the kind says it.
#[tactic(auto, unfolding(crate::specs::JournalFile::width_of))]
pub(crate) fn width_of(kind: u8) -> Option<usize>
    ensures { result ≡ width_of kind }
{
    match kind {
        8 | 10 => Some(8),
        9 | 11 | 14 | 15 | 16 | 32 => Some(4),
        33 => Some(2),
        _ => None,
    }
}

/// Appends bytes, or none of them.
fn put_pieces(
    out: &mut Vec<u8>,
    opening: &[u8],
    size: &[u8],
    body: &[u8],
) -> Result<(), RecordError>
    requires opening { length opening.now ≤ 3 }
    requires size { length size.now ≤ 4 }
    requires body { length body.now < 2 ^ 32 }
    ensures ok { OnOk result (out.new.items ≡ out.old.items ++ (opening.now ++ (size.now ++ body.now))) }
    ensures memory { IsOkUnless result RecordError.NoMemory }
    ensures err { OnErr result (out.new.items ≡ out.old.items) }
{
    out.reserve(opening.len() + size.len() + body.len())?;
    out.extend_from_slice(opening)?;
    out.extend_from_slice(size)?;
    out.extend_from_slice(body)?;
    Ok(())
}

/// Appends an opening, a size and a body.
fn put_opened(
    out: &mut Vec<u8>,
    seat: Option<u32>,
    kind: u8,
    size: &[u8],
    body: &[u8],
) -> Result<(), RecordError>
    requires seat { IsSeat seat }
    requires kind { kind < 128 }
    requires size { length size.now ≤ 4 }
    requires body { length body.now < 2 ^ 32 }
    ensures ok { OnOk result (out.new.items ≡ out.old.items ++ (opening seat kind ++ (size.now ++ body.now))) }
    ensures memory { IsOkUnless result RecordError.NoMemory }
    ensures err { OnErr result (out.new.items ≡ out.old.items) }
{
    match seat {
        None => put_pieces(out, &[kind], size, body),
        Some(seat) => {
            let [high, low] = (seat as u16).to_be_bytes();
            put_pieces(out, &[kind + 128, high, low], size, body)
        }
    }
}

/// Appends the record of a kind and a body, or nothing.
pub(crate) fn put_body(
    out: &mut Vec<u8>,
    seat: Option<u32>,
    kind: u8,
    body: &[u8],
) -> Result<(), RecordError>
    requires seat { IsSeat seat }
    requires kind { kind < 128 }
    requires body { length body.now < 2 ^ 32 }
    ensures ok { OnOk result (out.new.items ≡ out.old.items ++ (opening seat kind ++ sized kind body.now)) }
    ensures memory { IsOkUnless result RecordError.NoMemory }
    ensures err { OnErr result (out.new.items ≡ out.old.items) }
{
    match width_of(kind) {
        Some(_) => put_opened(out, seat, kind, &[], body),
        None => put_opened(out, seat, kind, &(body.len() as u32).to_be_bytes(), body),
    }
}
