//! Listings and instructions, printed into memory.

ghost use Rattle.std.specs.Prelude.{◌≡◌, ◌++◌, OnOk, OnErr};
ghost use Rattle.beam_model.specs.ListingText.{instruction_text, listing_text};

use crate::instruction_text::append_instruction;
use crate::write::write_listing;
use beam_model::instruction::Instruction;
use beam_model::listing::Listing;
use std::alloc::AllocError;

/// Appends the one printed text of a listing, in UTF-8: the heads `{module,M}.`, `{exports,[{F,A},..]}.`,
/// `{attributes,[]}.` and `{labels,N}.`, then the instructions, one a line with a full stop, and
/// before the first label of each function `{function,F,A,Entry}.` (the compiler's .S files).
/// Each listing is printed, also one that can't be loaded; its pids and references aren't read again.
///
/// Fails only for memory, and then nothing is appended.
pub fn print_listing(listing: &Listing, out: &mut Vec<u8>) -> Result<(), AllocError>
    ensures printed { OnOk result (out.new.items ≡ out.old.items ++ listing_text listing.now) }
    ensures err { OnErr result (out.new.items ≡ out.old.items) }
{
    let mut text = Vec::new(*out.allocator());
    if write_listing(*out.allocator(), listing, &mut text).is_err() {
        return Err(AllocError);
    }
    out.extend_from_slice(&text)?;
    Ok(())
}

/// Appends the one printed text of an instruction, without its full stop.
///
/// Fails only for memory, and then nothing is appended.
pub fn print_instruction(instruction: &Instruction, out: &mut Vec<u8>) -> Result<(), AllocError>
    ensures printed { OnOk result (out.new.items ≡ out.old.items ++ instruction_text instruction.now) }
    ensures err { OnErr result (out.new.items ≡ out.old.items) }
{
    let mut text = Vec::new(*out.allocator());
    if append_instruction(instruction, &mut text).is_err() {
        return Err(AllocError);
    }
    out.extend_from_slice(&text)?;
    Ok(())
}
