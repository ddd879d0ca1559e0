//! The files that stories load.

use beam_asm::assemble;
use beam_image::Image;
use beam_listing::{ListingError, read_listing};
use beam_tools::fault::FileFaultKind;
use beam_tools::files::Files;
use std::alloc::Global;

fn no_listing(error: ListingError) -> FileFaultKind {
    match error {
        ListingError::Syntax(line) => FileFaultKind::Syntax(line),
        ListingError::UnknownForm(line) => FileFaultKind::UnknownForm(line),
        ListingError::NoMemory => FileFaultKind::NoMemory,
    }
}

// The file of a listing, given by the bytes of its text.
fn assembled(alloc: Global, text: &[u8]) -> Result<Vec<u8>, FileFaultKind> {
    match str::from_utf8(text) {
        Ok(text) => match read_listing(alloc, text) {
            Ok(listing) => assemble(alloc, &listing).map_err(FileFaultKind::Unassembled),
            Err(error) => Err(no_listing(error)),
        },
        Err(_) => Err(FileFaultKind::NoText),
    }
}

// The bytes of a file; where its name ends with `.S`, those of its listing's file.
fn bytes_of<F: Files>(alloc: Global, files: &mut F, name: &str) -> Result<Vec<u8>, FileFaultKind> {
    match files.read(alloc, name) {
        Ok(bytes) if name.ends_with(".S") => assembled(alloc, &bytes),
        Ok(bytes) => Ok(bytes),
        Err(error) => Err(FileFaultKind::Unread(error)),
    }
}

/// The image of the first bytes of a file, `h1.S` or `t.beam`.
pub fn image_of<F: Files>(
    alloc: Global,
    files: &mut F,
    name: &str,
    length: usize,
) -> Result<Image, FileFaultKind> {
    match bytes_of(alloc, files, name) {
        Ok(bytes) => {
            let first = bytes.get(..length).unwrap_or(&bytes);
            Image::prepare(alloc, first).map_err(FileFaultKind::BadFile)
        }
        Err(why) => Err(why),
    }
}
