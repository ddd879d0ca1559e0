//! Files, prepared and disassembled.

use crate::error::{TestRowError, unless_refused};
use crate::given::given_file;
use beam_disasm::{FileError, disassemble};
use beam_image::Image;
use beam_tools::files::Files;
use std::alloc::Global;

/// Layer, number and name of a refusal.
pub fn refusal(alloc: Global, error: FileError) -> Result<String, TestRowError> {
    let layer = error.layer();
    let number = error.number();
    let name = error.name();
    unless_refused(format!(in alloc; "{layer},{number} {name}"))
}

// `ok`, or the refusal, with the place of a fault of the instructions if `is_placed`.
fn told(
    alloc: Global,
    refused: Option<FileError>,
    is_placed: bool,
) -> Result<String, TestRowError> {
    match refused {
        None => unless_refused(String::from_str(alloc, "ok")),
        Some(FileError::Code(error)) if is_placed => {
            let number = error.number();
            unless_refused(format!(in alloc; "3,{number} {error:?}"))
        }
        Some(error) => refusal(alloc, error),
    }
}

/// `ok` if the file in a text can be loaded, or else the refusal: `LAYER,NUMBER NAME`, and then the place of the fault, if it is wanted. A
/// file with a fault of the check has to be disassembled; otherwise preparing and disassembling have to answer the same.
pub fn found<F: Files>(
    alloc: Global,
    files: &mut F,
    file: &str,
    wanted: &str,
) -> Result<String, TestRowError> {
    let bytes = given_file(alloc, files, file)?;
    let prepared = Image::prepare(alloc, &bytes).err();
    match (prepared, disassemble(alloc, &bytes).err()) {
        (Some(FileError::Check(_)), None) => told(alloc, prepared, wanted.ends_with(')')),
        (_, spelled) if prepared == spelled => told(alloc, prepared, wanted.ends_with(')')),
        (_, spelled) => told(alloc, spelled, true),
    }
}
