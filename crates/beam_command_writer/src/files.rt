//! Files that are loaded together, written as the body of a command.
ghost use Rattle.std.specs.Prelude.{◌≡◌, ◌++◌, OnOk, OnErr, IsErrOf};
ghost use Rattle.std.specs.List.{flat_map, list_all};
ghost use Rattle.std.specs.Result.{IsOkUnless};
ghost use Rattle.byteorder.specs.Endian.{big_bytes};
ghost use Rattle.beam_machine.specs.Frames.{SpellsCommand, mode_number};
ghost use Rattle.beam_machine.specs.declared.debug.DebugEvent.TheVariants.{Node};
ghost use Rattle.beam_machine.specs.declared.event.Event.TheVariants.{AtomicLoad};
ghost use Rattle.beam_command_writer.specs.Bodies.{IsUnspelled, is_short, sized_bytes, command_body};

use crate::error::CommandError;
use beam_machine::command::Bytes;
use beam_machine::event::UpgradeMode;
use byteorder::{BigEndian, ByteOrder};

/// Whether four bytes can say how many bytes each file has.
fn are_short(files: &[Bytes]) -> bool
    ensures { result ≡ list_all is_short files.now }
{
    files.iter().all(|file| file.as_slice().len() < 1 << 32)
}

/// Appends the lowest four bytes of a count.
fn put_count(out: &mut Vec<u8>, count: usize) -> Result<(), CommandError>
    ensures ok { OnOk result (out.new.items ≡ out.old.items ++ big_bytes 4 count) }
    ensures memory { IsOkUnless result CommandError.NoMemory }
{
    let mut bytes = [0; 8];
    BigEndian::write_u64(&mut bytes, count as u64);
    out.extend_from_slice(&bytes[4..])?;
    Ok(())
}

/// Appends a file after its size.
fn put_file(out: &mut Vec<u8>, file: &Bytes) -> Result<(), CommandError>
    ensures ok { OnOk result (out.new.items ≡ out.old.items ++ sized_bytes file.now) }
    ensures memory { IsOkUnless result CommandError.NoMemory }
{
    let bytes = file.as_slice();
    put_count(out, bytes.len())?;
    out.extend_from_slice(bytes)?;
    Ok(())
}

/// Appends files, each after its size.
fn put_files(out: &mut Vec<u8>, files: &[Bytes]) -> Result<(), CommandError>
    ensures ok { OnOk result (out.new.items ≡ out.old.items ++ flat_map sized_bytes files.now) }
    ensures memory { IsOkUnless result CommandError.NoMemory }
{
    for file in files {
        put_file(out, file)?;
    }
    Ok(())
}

/// The number of a mode.
fn mode_number(mode: UpgradeMode) -> u8
    ensures { result ≡ mode_number mode }
{
    match mode {
        UpgradeMode::Strict => 0,
        UpgradeMode::Soft => 1,
        UpgradeMode::Hard => 2,
    }
}

/// Appends a mode, how many files there are, and these.
#[tactic(auto, using(crate::proofs::UpgradeFiles::load_written, crate::proofs::Unspelled::many_files, crate::proofs::Unspelled::long_file))]
pub(crate) fn put_atomic_load(
    out: &mut Vec<u8>,
    mode: UpgradeMode,
    files: &[Bytes],
) -> Result<(), CommandError>
    ensures ok { OnOk result (out.new.items ≡ out.old.items ++ command_body (Node (AtomicLoad mode files.now))) }
    ensures spelled { OnOk result (SpellsCommand 18 (command_body (Node (AtomicLoad mode files.now))) (Node (AtomicLoad mode files.now))) }
    ensures unspelled { IsErrOf result CommandError.Unspelled → IsUnspelled (Node (AtomicLoad mode files.now)) }
    ensures err { OnErr result (out.new.items ≡ out.old.items) }
{
    if files.len() >= 1 << 32 {
        return Err(CommandError::Unspelled);
    }
    if !are_short(files) {
        return Err(CommandError::Unspelled);
    }
    let mut body = Vec::new(*out.allocator());
    body.push(mode_number(mode))?;
    put_count(&mut body, files.len())?;
    put_files(&mut body, files)?;
    out.extend_from_slice(&body)?;
    Ok(())
}
