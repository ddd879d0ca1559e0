//! Listings and instructions, printed.

ghost use Rattle.std.specs.Prelude.{◌≡◌, ◌++◌, OnOk, OnErr};
ghost use Rattle.std.specs.Result.{IsOkUnless};
ghost use Rattle.beam_model.specs.ListingText.{instruction_text, listing_text};

use crate::error::ListingError;
use beam_model::instruction::Instruction;
use beam_model::listing::Listing;

/// Appends the one printed text of a listing, in UTF-8: the heads `{module,M}.`, `{exports,[{F,A},..]}.`,
/// `{attributes,[]}.` and `{labels,N}.`, then the instructions, one a line with a full stop, and
/// before the first label of each function `{function,F,A,Entry}.` (the compiler's .S files).
/// Each listing is printed, also one that can't be loaded; its pids and references aren't read again.
///
/// `NoMemory`, and nothing is appended.
pub fn print_listing(listing: &Listing, out: &mut Vec<u8>) -> Result<(), ListingError>
    ensures printed { OnOk result (out.new.items ≡ out.old.items ++ listing_text listing.now) }
    ensures err { OnErr result (out.new.items ≡ out.old.items) }
    ensures memory { IsOkUnless result ListingError.NoMemory }
{
    beam_print::print::print_listing(listing, out)?;
    Ok(())
}

/// Appends the one printed text of an instruction, without its full stop.
///
/// `NoMemory`, and nothing is appended.
pub fn print_instruction(instruction: &Instruction, out: &mut Vec<u8>) -> Result<(), ListingError>
    ensures printed { OnOk result (out.new.items ≡ out.old.items ++ instruction_text instruction.now) }
    ensures err { OnErr result (out.new.items ≡ out.old.items) }
    ensures memory { IsOkUnless result ListingError.NoMemory }
{
    beam_print::print::print_instruction(instruction, out)?;
    Ok(())
}
