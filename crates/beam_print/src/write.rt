//! Listings, written.

ghost use Rattle.std.specs.Prelude.{OnErr, OnOk};
ghost use Rattle.std.specs.Io.KnownBytes.{Appends};
ghost use Rattle.beam_model.specs.ListingText.{listing_text};
ghost use Rattle.beam_print.specs.Begun.{IsBegun};

pub use crate::blocks::write_text;
use crate::listing_text::write_forms;
use crate::print_error::PrintError;
use beam_model::listing::Listing;
use std::alloc::Global;
use std::io::Write;

/// Writes the one printed text of a listing, as `print_listing` appends it, in blocks of about 64 KiB. Beside a block it
/// takes memory for the text of one argument of a list, or of one instruction without a list, never for the whole text.
///
/// `NoMemory` where memory is refused, `Unwritten` where the writer fails or takes no more bytes: then a beginning of the
/// text was written. The writer isn't flushed.
pub fn write_listing<W: Write>(
    alloc: Global,
    listing: &Listing,
    out: &mut W,
) -> Result<(), PrintError>
    ensures written { OnOk result (Appends (W.contents out.old) (W.contents out.new) (listing_text listing.now)) }
    ensures begun { OnErr result (IsBegun (W.contents out.old) (W.contents out.new) (listing_text listing.now)) }
{
    let mut waiting = Vec::new(alloc);
    write_forms(listing, &mut waiting, out)?;
    write_text(&waiting, out)
}
