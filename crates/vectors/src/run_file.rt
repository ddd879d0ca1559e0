//! The files that lines of runs make.

use crate::draft::Draft;
use crate::error::TestRowError;
use crate::given::{given_file, named_file, parted};
use crate::memory::{Content, OverlayFiles};
use beam_tools::files::Files;
use std::alloc::Global;

// `OTHER 20`: the first bytes of another file.
fn cut<F: Files>(
    alloc: Global,
    desk: &mut OverlayFiles<'_, F>,
    text: &str,
) -> Result<Vec<u8>, TestRowError> {
    let (other, length) = parted(text);
    let mut bytes = named_file(alloc, desk, other)?;
    bytes.truncate(length.parse::<usize>().unwrap_or(0));
    Ok(bytes)
}

// `TEXT`: a line after those that the file in memory has.
fn lengthened<F: Files>(
    alloc: Global,
    desk: &OverlayFiles<'_, F>,
    name: &str,
    text: &str,
) -> Result<Vec<u8>, TestRowError> {
    let mut lines = Draft::new(alloc);
    lines.push(desk.memory.bytes(name).unwrap_or(&[]));
    lines.push_text(text);
    lines.push(b"\n");
    lines.bytes()
}

fn text_bytes(alloc: Global, text: &str) -> Result<Vec<u8>, TestRowError> {
    match Vec::from_slice(alloc, text.as_bytes()) {
        Ok(bytes) => Ok(bytes),
        Err(_) => Err(TestRowError::NoMemory),
    }
}

// The bytes of a file of that form.
fn bytes<F: Files>(
    alloc: Global,
    desk: &mut OverlayFiles<'_, F>,
    name: &str,
    form: &str,
    text: &str,
) -> Result<Vec<u8>, TestRowError> {
    match form {
        "bytes" => given_file(alloc, desk, text),
        "line" => lengthened(alloc, desk, name, text),
        "text" => text_bytes(alloc, text),
        "cut" => cut(alloc, desk, text),
        _ => Err(TestRowError::No("file in a line")),
    }
}

fn content<F: Files>(
    alloc: Global,
    desk: &mut OverlayFiles<'_, F>,
    name: &str,
    text: &str,
) -> Result<Content, TestRowError> {
    let (form, text) = parted(text);
    match form {
        "long" => Ok(Content::Long),
        "closed" => Ok(Content::Closed),
        form => match bytes(alloc, desk, name, form, text) {
            Ok(bytes) => Ok(Content::Bytes(bytes)),
            Err(why) => Err(why),
        },
    }
}

/// Makes the file of a line: `NAME bytes FILE` (as in rows of files), `NAME text TEXT`, `NAME line TEXT` (a further line),
/// `NAME cut OTHER 20`, `NAME long` or `NAME closed`.
pub fn make_file<F: Files>(
    alloc: Global,
    desk: &mut OverlayFiles<'_, F>,
    line: &str,
) -> Result<(), TestRowError> {
    let (name, text) = parted(line);
    let content = content(alloc, desk, name, text)?;
    desk.memory.put(name, content)?;
    Ok(())
}
