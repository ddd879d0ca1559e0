//! Listings: their texts, read and printed, and their files, assembled and disassembled.

use crate::draft::text_of;
use crate::error::{TestRowError, unless_refused};
use crate::file::refusal;
use crate::given::{given_file, named_file};
use beam_asm::{AsmError, assemble};
use beam_disasm::disassemble;
use beam_listing::print::print_listing;
use beam_listing::read_listing;
use beam_model::listing::Listing;
use beam_tools::files::Files;
use hex;
use std::alloc::Global;

/// A column's spelling of a listing.
#[derive(Drop)]
enum Spelling {
    Text(String),
    File(Vec<u8>),
}

// The file `NAME.S` is a text; `NAME.beam` and `chunks NAME=HEX; ..` are files; all else is a text itself.
fn read_spelling<F: Files>(
    alloc: Global,
    files: &mut F,
    column: &str,
) -> Result<Spelling, TestRowError> {
    if column.ends_with(".S") {
        Ok(Spelling::Text(text_of(named_file(alloc, files, column)?)?))
    } else if column.starts_with("chunks ") || column.contains(".beam") {
        Ok(Spelling::File(given_file(alloc, files, column)?))
    } else {
        Ok(Spelling::Text(String::from_str(alloc, column)?))
    }
}

// The file of a listing, in hexadecimal digits, or why it has none.
fn assembled(alloc: Global, listing: &Listing) -> Result<String, TestRowError> {
    match assemble(alloc, listing) {
        Ok(bytes) => unless_refused(hex::encode_upper(alloc, &bytes)),
        Err(error) => {
            let number = error.number();
            match error {
                AsmError::Check(error) => unless_refused(format!(in alloc; "{number} {error:?}")),
                _ => unless_refused(format!(in alloc; "{number} {error:?}")),
            }
        }
    }
}

fn printed(alloc: Global, listing: &Listing) -> Result<String, TestRowError> {
    let mut out = Vec::new(alloc);
    match print_listing(listing, &mut out) {
        Ok(()) => text_of(out),
        Err(_) => Err(TestRowError::NoMemory),
    }
}

// The text of the listing, or the file to which it is assembled.
fn spelled(alloc: Global, listing: &Listing, as_text: bool) -> Result<String, TestRowError> {
    if as_text {
        printed(alloc, listing)
    } else {
        assembled(alloc, listing)
    }
}

// The text or the file of the listing with this spelling, or the fault of the spelling.
fn made(alloc: Global, given: &Spelling, as_text: bool) -> Result<String, TestRowError> {
    match given {
        Spelling::Text(text) => match read_listing(alloc, text) {
            Ok(listing) => spelled(alloc, &listing, as_text),
            Err(error) => {
                let number = error.number();
                unless_refused(format!(in alloc; "{number} {error:?}"))
            }
        },
        Spelling::File(bytes) => match disassemble(alloc, bytes) {
            Ok(listing) => spelled(alloc, &listing, as_text),
            Err(error) => refusal(alloc, error),
        },
    }
}

/// The text of the listing in a column, if the text of a listing is wanted, or else the file to which it is assembled; or the fault. If
/// that is the wanted file, the answer names it as the row does.
pub fn found<F: Files>(
    alloc: Global,
    files: &mut F,
    given: &str,
    wanted: &str,
) -> Result<String, TestRowError> {
    let given = read_spelling(alloc, files, given)?;
    let text = match read_spelling(alloc, files, wanted)? {
        Spelling::Text(text) => text,
        Spelling::File(bytes) => hex::encode_upper(alloc, &bytes)?,
    };
    let found = made(alloc, &given, text.starts_with('{'))?;
    if found == text {
        unless_refused(String::from_str(alloc, wanted))
    } else {
        Ok(found)
    }
}
