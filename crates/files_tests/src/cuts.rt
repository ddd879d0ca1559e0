//! Each bit of a file, and each cut.

use crate::example::{t_beam, with_literal};
use beam_code::{CodeError, read_code};
use beam_disasm::{FileError, disassemble};
use beam_iff::{IffError, chunks};
use beam_image::Image;
use beam_tables::{Tables, read_tables};
use std::alloc::Global;
use std::process::Abort;
use std::test::Fail;

/// Why the bytes are no file that can be prepared. The one function here that owns an image.
fn fault_of_image(alloc: Global, bytes: &[u8]) -> Option<FileError> {
    Image::prepare(alloc, bytes).err()
}

/// Why the bytes spell no listing. The one function here that owns a listing.
fn fault_of_listing(alloc: Global, bytes: &[u8]) -> Option<FileError> {
    disassemble(alloc, bytes).err()
}

fn is_truncated(alloc: Global, bytes: &[u8]) -> bool {
    let fault = Some(FileError::Form(IffError::Truncated));
    fault_of_image(alloc, bytes) == fault && fault_of_listing(alloc, bytes) == fault
}

fn cuts_are_truncated(rt: &impl Abort, alloc: Global, file: &[u8]) {
    for size in 0..file.len() {
        assert!(rt; is_truncated(alloc, &file[..size]), "cut to {size} bytes");
    }
}

#[test]
fn each_cut(rt: HostRuntime) {
    cuts_are_truncated(&rt, rt.alloc(), t_beam());
    cuts_are_truncated(&rt, rt.alloc(), with_literal());
}

/// Whether `disassemble` accepts the file with one bit turned, if `prepare` does.
fn is_spelled(alloc: Global, file: &[u8], at: usize, bit: u32) -> Result<bool, Fail> {
    let mut bytes = file.to_vec(alloc)?;
    if let Some(byte) = bytes.get_mut(at) {
        *byte ^= 1u8.rotate_left(bit);
    }
    Ok(fault_of_image(alloc, &bytes).is_some() || fault_of_listing(alloc, &bytes).is_none())
}

fn bits_are_spelled(rt: &impl Abort, alloc: Global, file: &[u8]) -> Result<(), Fail> {
    for at in 0..file.len() {
        for bit in 0..8u32 {
            assert!(rt; is_spelled(alloc, file, at, bit)?, "bit {bit} of byte {at}");
        }
    }
    Ok(())
}

#[test]
fn each_bit(rt: HostRuntime) -> Result<(), Fail> {
    bits_are_spelled(&rt, rt.alloc(), t_beam())?;
    bits_are_spelled(&rt, rt.alloc(), with_literal())
}

/// Why the bytes are no code chunk of a file with these tables.
fn fault_of_code(alloc: Global, code: &[u8], tables: &Tables) -> Option<CodeError> {
    read_code(alloc, code, tables.atoms.as_slice(), &tables.imports, &[]).err()
}

fn fronts_are_truncated(rt: &impl Abort, alloc: Global, code: &[u8], tables: &Tables) {
    for size in 0..code.len() {
        let fault = fault_of_code(alloc, &code[..size], tables);
        assert_eq!(rt; fault, Some(CodeError::Truncated));
    }
}

#[test]
fn each_front_of_the_code(rt: HostRuntime) -> Result<(), Fail> {
    let chunks = chunks(t_beam())?;
    let code = chunks.code.ok_or("no code")?;
    let tables = read_tables(rt.alloc(), &chunks)?;
    fronts_are_truncated(&rt, rt.alloc(), code, &tables);
    Ok(())
}
