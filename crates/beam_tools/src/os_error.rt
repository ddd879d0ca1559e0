//! The operating system's error of a device that fails.
ghost use Rattle.std.specs.Prelude.{◌≡◌};
ghost use Rattle.std.specs.IoError.{error_kind};
ghost use Rattle.beam_tools.specs.Names.{kind_text};

use std::io::{Error, ErrorKind};

/// The operating system's error of a device that failed: its kind, and its number, 0 where it has none.
#[derive(Clone, Copy, Debug, PartialEq, Eq)]
pub struct OsError {
    pub kind: ErrorKind,
    pub code: u32,
}

impl OsError {
    /// The kind and number of an error.
    pub fn of(error: &Error) -> OsError
        ensures kind { result.kind ≡ error_kind error.now }
    {
        let code = match error.raw_os_error() {
            Some(code) => code.unsigned_abs(),
            None => 0,
        };
        OsError {
            kind: error.kind(),
            code,
        }
    }

    /// The words for its kind.
    pub fn kind_text(&self) -> &'static str
        ensures { result.now ≡ kind_text self.now.kind }
    {
        match self.kind {
            ErrorKind::NotFound => "no such file or directory",
            ErrorKind::PermissionDenied => "permission denied",
            ErrorKind::AddrInUse => "address in use",
            ErrorKind::AddrNotAvailable => "address not available",
            ErrorKind::NotADirectory => "not a directory",
            ErrorKind::IsADirectory => "is a directory",
            ErrorKind::ReadOnlyFilesystem => "read-only file system",
            ErrorKind::FilesystemLoop => "too many symbolic links",
            ErrorKind::InvalidFilename => "invalid file name",
            ErrorKind::InvalidInput => "invalid input",
            ErrorKind::StorageFull => "no space left on the device",
            ErrorKind::QuotaExceeded => "quota exceeded",
            ErrorKind::FileTooLarge => "file too large",
            ErrorKind::BrokenPipe => "broken pipe",
            ErrorKind::ConnectionReset => "connection reset",
            ErrorKind::ConnectionAborted => "connection aborted",
            ErrorKind::TimedOut => "timed out",
            ErrorKind::WouldBlock => "would block",
            ErrorKind::WriteZero => "nothing was taken",
            ErrorKind::OutOfMemory => "out of memory",
            _ => "another failure",
        }
    }
}
