//! Texts that are written in blocks. Text that was printed and isn't written yet waits in a vector of bytes.

ghost use Rattle.std.specs.Prelude.{◌≤◌, IfOk, OnErr, OnOk, length};
ghost use Rattle.std.specs.Io.KnownBytes.{Appends, WriteAppends};
ghost use Rattle.beam_print.specs.Begun.{IsBegun, IsWrittenUpTo};

use crate::print_error::PrintError;
use std::io::{ErrorKind, Write};

// Waiting text is written once it has this many bytes.
const BLOCK: usize = 65_536;

// Writes some of the bytes, none where a signal interrupts, and answers how many.
fn write_some<W: Write>(bytes: &[u8], out: &mut W) -> Result<usize, PrintError>
    ensures count { IfOk result (λ count. count ≤ length bytes.now) }
    ensures bytes { WriteAppends (W.contents out.old) (W.contents out.new) result bytes.now }
{
    match out.write(bytes) {
        Ok(0) => Err(PrintError::Unwritten),
        Ok(count) => Ok(count),
        Err(error) if error.kind() == ErrorKind::Interrupted => Ok(0),
        Err(_) => Err(PrintError::Unwritten),
    }
}

/// Writes a text. Where the writer fails, a beginning of the text was written, which `Write::write_all` doesn't promise.
///
/// `Unwritten` where the writer fails or takes no more bytes.
pub fn write_text<W: Write>(text: &[u8], out: &mut W) -> Result<(), PrintError>
    ensures written { OnOk result (Appends (W.contents out.old) (W.contents out.new) text.now) }
    ensures begun { OnErr result (IsBegun (W.contents out.old) (W.contents out.new) text.now) }
{
    let mut rest = text;
    for _ in 0..u64::MAX {
        if rest.is_empty() {
            return Ok(());
        }
        let count = write_some(rest, out)?;
        rest = &rest[count..];
    }
    Err(PrintError::Unwritten)
}

/// Writes the waiting text, if it is a block or more.
pub fn write_block<W: Write>(waiting: &mut Vec<u8>, out: &mut W) -> Result<(), PrintError>
    ensures written { OnOk result (IsWrittenUpTo (W.contents out.old) (W.contents out.new) waiting.old.items waiting.new.items) }
    ensures begun { OnErr result (IsBegun (W.contents out.old) (W.contents out.new) waiting.old.items) }
{
    if waiting.len() < BLOCK {
        return Ok(());
    }
    write_text(waiting, out)?;
    waiting.clear();
    Ok(())
}
