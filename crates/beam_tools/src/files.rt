//! Files by name.
ghost use Rattle.std.specs.Prelude.{◌≡◌, ◌≤◌, ℕ, List, Option, None, IfOk, IfSome, OnErr, OnOk, vec_len};
ghost use Rattle.beam_tools.specs.Files.{with_file};
ghost use Rattle.beam_tools.specs.declared.files.ReadError.TheVariants.{NoMemory};

use crate::os_error::OsError;
use crate::replacing::replace;
use std::alloc::{AllocError, AllocFailed, Global};
use std::io::Read;
use std::{fs, io, rt};
use thiserror::Error;

/// The most bytes of a file.
pub const MAX_FILE: usize = 8_388_608;

/// Why a file has no bytes.
#[derive(Clone, Copy, Debug, Error)]
pub enum ReadError {
    /// The device failed, or there is no such file: the operating system's error.
    #[error("ReadFailed")]
    ReadFailed(OsError),
    /// The file has more than 8,388,608 bytes.
    #[error("TooLong")]
    TooLong,
    /// Memory was refused.
    #[error("NoMemory")]
    NoMemory,
}

impl ReadError {
    ghost use Rattle.beam_tools.specs.Names.{read_name};

    /// Its name.
    pub fn name(&self) -> &'static str
        ensures { result.now ≡ read_name self.now }
    {
        match self {
            ReadError::ReadFailed(_) => "ReadFailed",
            ReadError::TooLong => "TooLong",
            ReadError::NoMemory => "NoMemory",
        }
    }
}

impl From<AllocError> for ReadError {
    ghost from_gives = { λ _ e. e ≡ NoMemory };

    fn from(_e: AllocError) -> ReadError {
        ReadError::NoMemory
    }
}

impl<T: Drop> From<AllocFailed<T>> for ReadError {
    ghost from_gives = { λ _ e. e ≡ NoMemory };

    fn from(_e: AllocFailed<T>) -> ReadError {
        ReadError::NoMemory
    }
}

/// A file couldn't be written whole: the operating system's error, also where memory was refused. What the file holds then isn't known.
#[derive(Clone, Copy, Debug, Error)]
pub enum WriteError {
    #[error("WriteFailed")]
    WriteFailed(OsError),
}

/// Reads and writes files whole.
pub trait Files {
    // The bytes of the file of a name, if the device reports them.
    ghost contents: { Self → List ℕ → Option (List ℕ) } = { λ _ _. None };

    // The names and bytes that were written whole, in their order, if the device reports them.
    ghost written: { Self → Option (List (List ℕ × List ℕ)) } = { λ _. None };

    /// The bytes of the file of that name.
    fn read(&mut self, alloc: Global, name: &str) -> Result<Vec<u8>, ReadError>
        ensures whole { IfOk result (λ v. IfSome (contents self.old name.now) (λ bytes. v.items ≡ bytes)) }
        ensures keeps { (n : List ℕ) → contents self.new n ≡ contents self.old n }
        ensures unwritten { written self.new ≡ written self.old };

    /// Writes a file of that name with these bytes. What it holds after a failure isn't said here.
    fn write(&mut self, alloc: Global, name: &str, bytes: &[u8]) -> Result<(), WriteError>
        ensures writes { OnOk result (written self.new ≡ with_file (written self.old) name.now bytes.now) }
        ensures fails { OnErr result (written self.new ≡ written self.old) };
}

/// The file system. Where a plain file can't be written whole, the old one stays, if its folder takes a new file (`replace`).
#[derive(Drop)]
pub struct FileSystem<'a, R: rt::Files>(pub &'a R);

impl<R: rt::Files> Files for FileSystem<'_, R> {
    fn read(&mut self, alloc: Global, name: &str) -> Result<Vec<u8>, ReadError> {
        match fs::open(self.0, name) {
            Ok(file) => read_whole(alloc, file),
            Err(error) => Err(refusal(&error)),
        }
    }

    fn write(&mut self, alloc: Global, name: &str, bytes: &[u8]) -> Result<(), WriteError> {
        match replace(self.0, alloc, name, bytes) {
            Ok(()) => Ok(()),
            Err(error) => Err(WriteError::WriteFailed(OsError::of(&error))),
        }
    }
}

fn refusal(error: &io::Error) -> ReadError {
    match error.kind() {
        io::ErrorKind::OutOfMemory => ReadError::NoMemory,
        _ => ReadError::ReadFailed(OsError::of(error)),
    }
}

/// The bytes up to the end, if they are at most 8,388,608.
pub fn read_whole<R: Read + Drop>(alloc: Global, file: R) -> Result<Vec<u8>, ReadError>
    ensures bound { IfOk result (λ v. vec_len v ≤ 8388608) }
    ensures whole { IfOk result (λ v. IfSome (R.remaining file) (λ xs. v.items ≡ xs)) }
{
    let mut bytes = Vec::new(alloc);
    let mut file = file.take(MAX_FILE as u64 + 1);
    if let Err(error) = file.read_to_end(&mut bytes) {
        return Err(refusal(&error));
    }
    if bytes.len() > MAX_FILE {
        return Err(ReadError::TooLong);
    }
    Ok(bytes)
}
