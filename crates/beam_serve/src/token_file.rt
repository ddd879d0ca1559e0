//! The token of a page, in a file that its owner alone may read.

use std::alloc::{AllocError, Global};
use std::fs::{File, OpenOptions};
use std::io::{Read, Write};
use std::os::unix::fs::OpenOptionsExt;
use std::{fs, io, rt};

/// How many random bytes a token has.
const TOKEN_BYTES: usize = 32;

/// The system's source of random bytes.
const RANDOM: &str = "/dev/urandom";

const DIGITS: [u8; 16] = *b"0123456789abcdef";

/// Bytes in hexadecimal.
fn hexadecimal(alloc: Global, bytes: &[u8]) -> Result<Vec<u8>, AllocError> {
    let mut text = Vec::new(alloc);
    for byte in bytes {
        text.push(DIGITS[usize::from(*byte / 16)])?;
        text.push(DIGITS[usize::from(*byte % 16)])?;
    }
    Ok(text)
}

/// A new token: 64 hexadecimal digits of random bytes.
fn new_token<R: rt::Files<File = File>>(rt: &R, alloc: Global) -> io::Result<Vec<u8>> {
    let mut bytes = [0; TOKEN_BYTES];
    let mut source = File::open(rt, RANDOM)?;
    source.read_exact(&mut bytes)?;
    Ok(hexadecimal(alloc, &bytes)?)
}

/// Makes a token, and puts it into the file of that name, with a line's end. The file is new, has the mode 0600 before anything is written,
/// and then takes the place of one that has its name.
pub fn write_token<R: rt::Files<File = File>>(
    rt: &R,
    alloc: Global,
    name: &str,
) -> io::Result<Vec<u8>> {
    let token = new_token(rt, alloc)?;
    let beside = format!(in alloc; "{name}.new")?;
    let _ = fs::remove_file(rt, beside.as_str());
    let mut options = OpenOptions::new();
    options.write(true).create_new(true).mode(0o600);
    let mut file = options.open(rt, beside.as_str())?;
    file.write_all(&token)?;
    file.write_all(b"\n")?;
    drop(file);
    fs::rename(rt, beside.as_str(), name)?;
    Ok(token)
}
