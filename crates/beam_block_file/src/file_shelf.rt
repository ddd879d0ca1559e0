//! Files of the operating system.
ghost use Rattle.std.specs.Prelude.{◌≡◌, None};
ghost use Rattle.beam_block_file.specs.Shelves.{saturating_increment};

use crate::shelf::{Shelf, ShelfFailed};
use std::fs::{File, OpenOptions, TryLockError};
use std::io::{Error, ErrorKind, Write};
use std::os::unix::fs::{FileExt, OpenOptionsExt};
use std::{fs, io, rt};
use thiserror::Error as ErrorDerive;

/// Why a file wasn't opened.
#[derive(Clone, Copy, Debug, PartialEq, Eq, ErrorDerive)]
pub enum OpenFault {
    /// Another program has the file.
    #[error("InUse")]
    InUse,
    /// The operating system refused it.
    #[error("ShelfFailed")]
    ShelfFailed(ShelfFailed),
}

/// A file of the operating system, which is locked while it is open: for this program alone, or against a program that writes it.
#[derive(Drop)]
pub struct FileShelf {
    file: File,
    failures: u64,
}

/// A file that is opened so, locked for this program alone or for all that read it.
fn open_locked<R: rt::Files<File = File>>(
    rt: &R,
    options: &OpenOptions,
    path: &str,
    alone: bool,
) -> Result<File, OpenFault> {
    let file = match options.open(rt, path) {
        Ok(file) => file,
        Err(error) => return Err(OpenFault::ShelfFailed(ShelfFailed::of(&error))),
    };
    let locked = if alone {
        file.try_lock()
    } else {
        file.try_lock_shared()
    };
    match locked {
        Ok(()) => Ok(file),
        Err(TryLockError::WouldBlock) => Err(OpenFault::InUse),
        Err(TryLockError::Error(error)) => Err(OpenFault::ShelfFailed(ShelfFailed::of(&error))),
    }
}

impl FileShelf {
    /// A file of that name that has no bytes, which only its owner may read and write. A file that is there is emptied once it is locked.
    pub fn create<R: rt::Files<File = File>>(rt: &R, path: &str) -> Result<FileShelf, OpenFault> {
        let mut options = OpenOptions::new();
        options.read(true).append(true).create(true).mode(0o600);
        let file = open_locked(rt, &options, path, true)?;
        match file.set_len(0) {
            Ok(()) => Ok(FileShelf { file, failures: 0 }),
            Err(error) => Err(OpenFault::ShelfFailed(ShelfFailed::of(&error))),
        }
    }

    /// The file of that name, to be read and added to.
    pub fn open<R: rt::Files<File = File>>(rt: &R, path: &str) -> Result<FileShelf, OpenFault> {
        let mut options = OpenOptions::new();
        options.read(true).append(true);
        let file = open_locked(rt, &options, path, true)?;
        Ok(FileShelf { file, failures: 0 })
    }

    /// The file of that name, to be read. Other programs may read it too.
    pub fn open_to_read<R: rt::Files<File = File>>(
        rt: &R,
        path: &str,
    ) -> Result<FileShelf, OpenFault> {
        let mut options = OpenOptions::new();
        options.read(true);
        let file = open_locked(rt, &options, path, false)?;
        Ok(FileShelf { file, failures: 0 })
    }

    /// Another handle of the same open file, which shares its lock.
    pub fn try_clone(&self) -> Result<FileShelf, ShelfFailed> {
        match self.file.try_clone() {
            Ok(file) => Ok(FileShelf { file, failures: 0 }),
            Err(error) => Err(ShelfFailed::of(&error)),
        }
    }

    fn fail(&mut self, error: &Error) -> ShelfFailed
        ensures { self.new.failures ≡ saturating_increment self.old.failures }
    {
        self.failures = self.failures.saturating_add(1);
        ShelfFailed::of(error)
    }

    /// Cuts a file that is longer: a system would make a shorter one longer.
    fn cut_longer(&self, length: u64) -> io::Result<()> {
        if self.file.metadata()?.len() > length {
            self.file.set_len(length)?;
        }
        Ok(())
    }
}

/// Gives a file another name in the same folder, on the device too, once this returns Ok. A file that has the other name is replaced.
pub fn rename<R: rt::Files<File = File>>(
    rt: &R,
    from: &str,
    to: &str,
    folder: &str,
) -> Result<(), ShelfFailed> {
    match rename_and_sync(rt, from, to, folder) {
        Ok(()) => Ok(()),
        Err(error) => Err(ShelfFailed::of(&error)),
    }
}

fn rename_and_sync<R: rt::Files<File = File>>(
    rt: &R,
    from: &str,
    to: &str,
    folder: &str,
) -> io::Result<()> {
    fs::rename(rt, from, to)?;
    fs::open(rt, folder)?.sync_all()
}

impl Shelf for FileShelf {
    ghost bytes = { λ _. None };

    ghost failed = { λ s. s.failures };

    // A signal that interrupts a call is no failure: it is called again.
    fn append(&mut self, piece: &[u8]) -> Result<usize, ShelfFailed> {
        if piece.is_empty() {
            return Ok(0);
        }
        for _ in 0..u64::MAX {
            match self.file.write(piece) {
                Ok(0) => return Err(self.fail(&Error::from(ErrorKind::WriteZero))),
                Ok(count) => return Ok(count),
                Err(error) if error.kind() == ErrorKind::Interrupted => {}
                Err(error) => return Err(self.fail(&error)),
            }
        }
        Err(self.fail(&Error::from(ErrorKind::Interrupted)))
    }

    fn sync(&mut self) -> Result<(), ShelfFailed> {
        match self.file.sync_data() {
            Ok(()) => Ok(()),
            Err(error) => Err(self.fail(&error)),
        }
    }

    fn cut(&mut self, length: u64) -> Result<(), ShelfFailed> {
        match self.cut_longer(length) {
            Ok(()) => Ok(()),
            Err(error) => Err(self.fail(&error)),
        }
    }

    fn read_at(&mut self, at: u64, buffer: &mut [u8]) -> Result<usize, ShelfFailed> {
        if at.checked_add(buffer.len() as u64).is_none() {
            return Err(self.fail(&Error::from(ErrorKind::InvalidInput)));
        }
        for _ in 0..u64::MAX {
            match self.file.read_at(buffer, at) {
                Ok(count) => return Ok(count),
                Err(error) if error.kind() == ErrorKind::Interrupted => {}
                Err(error) => return Err(self.fail(&error)),
            }
        }
        Err(self.fail(&Error::from(ErrorKind::Interrupted)))
    }
}
