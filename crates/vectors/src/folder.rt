//! The files beside a file.

use beam_tools::files::{Files, ReadError, WriteError};
use beam_tools::os_error::OsError;
use std::alloc::Global;
use std::io::ErrorKind;

/// The files of the folder that a file lies in, by their names there.
#[derive(Drop)]
pub struct Folder<'a, F> {
    files: &'a mut F,
    /// The part of the path before their names, up to the last `/`.
    path: &'a str,
}

impl<'a, F: Files> Folder<'a, F> {
    /// The folder of the file of that name.
    pub fn of(name: &'a str, files: &'a mut F) -> Folder<'a, F> {
        let path = match name.rsplit_once('/') {
            Some((path, _)) => path,
            None => ".",
        };
        Folder { files, path }
    }
}

impl<F: Files> Files for Folder<'_, F> {
    fn read(&mut self, alloc: Global, name: &str) -> Result<Vec<u8>, ReadError> {
        let path = self.path;
        let whole = format!(in alloc; "{path}/{name}")?;
        self.files.read(alloc, &whole)
    }

    fn write(&mut self, _alloc: Global, _name: &str, _bytes: &[u8]) -> Result<(), WriteError> {
        Err(WriteError::WriteFailed(OsError {
            kind: ErrorKind::ReadOnlyFilesystem,
            code: 30,
        }))
    }
}
