//! Numbers and names, written as the bodies of commands.
ghost use Rattle.std.specs.Prelude.{◌≡◌, ◌++◌, OnOk, OnErr};
ghost use Rattle.std.specs.Result.{IsOkUnless};
ghost use Rattle.byteorder.specs.Endian.{big_bytes};
ghost use Rattle.beam_term.specs.Atom.{IsAtomText};
ghost use Rattle.beam_machine.specs.Frames.{IsNumber, SpellsCommand};
ghost use Rattle.beam_machine.specs.declared.debug.DebugEvent.TheVariants.{Node};
ghost use Rattle.beam_machine.specs.declared.event.Event.TheVariants.{Steps};

use crate::error::CommandError;
use beam_term::Atom;
use byteorder::{BigEndian, ByteOrder};

/// Appends a number in four bytes.
#[tactic(auto, using(crate::proofs::BigNumbers::number_written))]
pub(crate) fn put_number(out: &mut Vec<u8>, number: u32) -> Result<(), CommandError>
    ensures ok { OnOk result (out.new.items ≡ out.old.items ++ big_bytes 4 number) }
    ensures spelled { IsNumber 4 (big_bytes 4 number) number }
    ensures memory { IsOkUnless result CommandError.NoMemory }
    ensures err { OnErr result (out.new.items ≡ out.old.items) }
{
    let mut bytes = [0; 4];
    BigEndian::write_u32(&mut bytes, number);
    out.extend_from_slice(&bytes)?;
    Ok(())
}

/// Appends a time in eight bytes.
#[tactic(auto, using(crate::proofs::BigNumbers::number_written))]
pub(crate) fn put_time(out: &mut Vec<u8>, time: u64) -> Result<(), CommandError>
    ensures ok { OnOk result (out.new.items ≡ out.old.items ++ big_bytes 8 time) }
    ensures spelled { IsNumber 8 (big_bytes 8 time) time }
    ensures memory { IsOkUnless result CommandError.NoMemory }
    ensures err { OnErr result (out.new.items ≡ out.old.items) }
{
    let mut bytes = [0; 8];
    BigEndian::write_u64(&mut bytes, time);
    out.extend_from_slice(&bytes)?;
    Ok(())
}

/// Appends a pid and how many rows.
#[tactic(auto, using(crate::proofs::BigNumbers::steps_written))]
pub(crate) fn put_steps(out: &mut Vec<u8>, pid: u32, rows: u32) -> Result<(), CommandError>
    ensures ok { OnOk result (out.new.items ≡ out.old.items ++ (big_bytes 4 pid ++ big_bytes 4 rows)) }
    ensures spelled { SpellsCommand 8 (big_bytes 4 pid ++ big_bytes 4 rows) (Node (Steps pid rows)) }
    ensures memory { IsOkUnless result CommandError.NoMemory }
    ensures err { OnErr result (out.new.items ≡ out.old.items) }
{
    let mut first = [0; 4];
    BigEndian::write_u32(&mut first, pid);
    let mut second = [0; 4];
    BigEndian::write_u32(&mut second, rows);
    out.reserve(8)?;
    out.extend_from_slice(&first)?;
    out.extend_from_slice(&second)?;
    Ok(())
}

/// Appends the characters of a name.
pub(crate) fn put_name(out: &mut Vec<u8>, name: &Atom) -> Result<(), CommandError>
    ensures ok { OnOk result (out.new.items ≡ out.old.items ++ name.now) }
    ensures lawful { IsAtomText name.now }
    ensures memory { IsOkUnless result CommandError.NoMemory }
    ensures err { OnErr result (out.new.items ≡ out.old.items) }
{
    out.extend_from_slice(name.as_str().as_bytes())?;
    Ok(())
}
