//! The files in a column: by name, by name with some bytes changed, by their chunks, or in hexadecimal digits.

use crate::draft::Draft;
use crate::error::TestRowError;
use beam_tools::files::Files;
use hex;
use std::alloc::Global;

/// The bytes of the file of this name.
pub fn named_file<F: Files>(
    alloc: Global,
    files: &mut F,
    name: &str,
) -> Result<Vec<u8>, TestRowError> {
    match files.read(alloc, name) {
        Ok(bytes) => Ok(bytes),
        Err(why) => Err(TestRowError::File(why)),
    }
}

/// The bytes of a text of hexadecimal digits, with blanks between them.
pub fn bytes_of(alloc: Global, text: &str) -> Result<Vec<u8>, TestRowError> {
    let mut digits = Vec::with_capacity(alloc, text.len())?;
    for digit in text.bytes() {
        if digit != b' ' {
            digits.push(digit)?;
        }
    }
    match hex::decode(alloc, &digits) {
        Ok(bytes) => Ok(bytes),
        Err(_) => Err(TestRowError::No("hexadecimal digits")),
    }
}

/// The two parts of a text before and after its first blank; the second is empty where there is no blank.
pub fn parted(text: &str) -> (&str, &str) {
    text.split_once(' ').unwrap_or((text, ""))
}

// A change of a byte: `AT=HEX`, with its place counted from 0.
fn change_of(text: &str) -> Option<(usize, u8)> {
    let (at, digits) = text.split_once('=').unwrap_or(("", ""));
    match (at.parse::<usize>(), u8::from_str_radix(digits, 16)) {
        (Ok(at), Ok(value)) => Some((at, value)),
        _ => None,
    }
}

fn change(bytes: &mut [u8], text: &str) -> Result<(), TestRowError> {
    let (at, value) = change_of(text).unwrap_or((usize::MAX, 0));
    match bytes.get_mut(at) {
        Some(byte) => {
            *byte = value;
            Ok(())
        }
        None => Err(TestRowError::No("change of a byte")),
    }
}

// The file of the first word, changed by each further word.
fn changed_file<F: Files>(
    alloc: Global,
    files: &mut F,
    text: &str,
) -> Result<Vec<u8>, TestRowError> {
    let (name, changes) = parted(text);
    let mut bytes = named_file(alloc, files, name)?;
    for text in changes.split_whitespace() {
        change(&mut bytes, text)?;
    }
    Ok(bytes)
}

/// The four bytes of a length, the highest first.
pub fn number_of(length: usize) -> [u8; 4] {
    u32::try_from(length).unwrap_or(u32::MAX).to_be_bytes()
}

// The zeros after `length` bytes, up to a multiple of 4.
fn padding(length: usize) -> &'static [u8] {
    match length % 4 {
        1 => &[0, 0, 0],
        2 => &[0, 0],
        3 => &[0],
        _ => &[],
    }
}

// Appends a chunk: `NAME=HEX`, with four characters in the name, and with blanks in front.
fn push_chunk(alloc: Global, form: &mut Draft, text: &str) {
    let (name, digits) = text.trim_start().split_once('=').unwrap_or(("", "="));
    match bytes_of(alloc, digits) {
        Ok(content) => {
            form.push_text(name);
            form.push(&number_of(content.len()));
            form.push(&content);
            form.push(padding(content.len()));
        }
        Err(why) => form.fail(why),
    }
}

// The file of the chunks in a text, which semicolons separate.
fn form_of(alloc: Global, text: &str) -> Result<Vec<u8>, TestRowError> {
    let mut chunks = Draft::new(alloc);
    for part in text.split(';') {
        push_chunk(alloc, &mut chunks, part);
    }
    let mut form = Draft::new(alloc);
    form.push(b"FOR1");
    form.push(&number_of(chunks.as_slice().len().saturating_add(4)));
    form.push(b"BEAM");
    form.push(&chunks.bytes()?);
    form.bytes()
}

/// The file in a text: `NAME.beam`, which lies in data/, with changed bytes as `AT=HEX` after it; `chunks NAME=HEX; ..`, to which head,
/// sizes and padding are added; or else its bytes in hexadecimal digits.
pub fn given_file<F: Files>(
    alloc: Global,
    files: &mut F,
    text: &str,
) -> Result<Vec<u8>, TestRowError> {
    match text.strip_prefix("chunks ") {
        Some(chunks) => form_of(alloc, chunks),
        None if text.contains(".beam") => changed_file(alloc, files, text),
        None => bytes_of(alloc, text),
    }
}
