//! Files in memory, before those of a folder.

use beam_tools::files::{Files, ReadError, WriteError};
use beam_tools::os_error::OsError;
use std::alloc::{AllocError, Global};
use std::io::ErrorKind;

/// The content of a file in memory.
pub enum Content {
    Bytes(Vec<u8>),
    /// More bytes than a file may have.
    Long,
    /// It can be neither read nor written.
    Closed,
}

impl Drop for Content {
    fn drop(self) {
        match self {
            Content::Bytes(_of) => {}
            Content::Long | Content::Closed => {}
        }
    }
}

// The operating system's error of a file that is closed.
fn denied() -> OsError {
    OsError {
        kind: ErrorKind::PermissionDenied,
        code: 13,
    }
}

struct NamedFile {
    name: String,
    content: Content,
}

impl Drop for NamedFile {
    fn drop(self) {
        let NamedFile {
            name: _name,
            content: _content,
        } = self;
    }
}

/// Files by name, the newest of a name first, and how many of them a program has written.
pub struct MemoryFiles {
    entries: Vec<NamedFile>,
    pub written: usize,
}

impl Drop for MemoryFiles {
    fn drop(self) {
        let MemoryFiles {
            entries: _entries,
            written: _written,
        } = self;
    }
}

impl MemoryFiles {
    /// No files.
    pub fn new(alloc: Global) -> MemoryFiles {
        MemoryFiles {
            entries: Vec::new(alloc),
            written: 0,
        }
    }

    /// The newest file of that name.
    pub fn get(&self, name: &str) -> Option<&Content> {
        for entry in self.entries.iter().rev() {
            if entry.name.as_str() == name {
                return Some(&entry.content);
            }
        }
        None
    }

    /// The bytes of that file, if it has any.
    pub fn bytes(&self, name: &str) -> Option<&[u8]> {
        match self.get(name) {
            Some(Content::Bytes(bytes)) => Some(bytes),
            _ => None,
        }
    }

    fn is_closed(&self, name: &str) -> bool {
        matches!(self.get(name), Some(Content::Closed))
    }

    /// Puts a file before the others of its name.
    pub fn put(&mut self, name: &str, content: Content) -> Result<(), AllocError> {
        let name = String::from_str(*self.entries.allocator(), name)?;
        self.entries.push(NamedFile { name, content })?;
        Ok(())
    }

    /// Puts a file with these bytes before the others of its name.
    pub fn put_bytes(&mut self, name: &str, bytes: &[u8]) -> Result<(), AllocError> {
        match Vec::from_slice(*self.entries.allocator(), bytes) {
            Ok(bytes) => self.put(name, Content::Bytes(bytes)),
            Err(refused) => Err(refused),
        }
    }
}

/// The files in memory over those of a folder.
#[derive(Drop)]
pub struct OverlayFiles<'a, F> {
    pub memory: &'a mut MemoryFiles,
    pub files: &'a mut F,
}

impl<F: Files> Files for OverlayFiles<'_, F> {
    fn read(&mut self, alloc: Global, name: &str) -> Result<Vec<u8>, ReadError> {
        match self.memory.get(name) {
            Some(Content::Bytes(bytes)) => Ok(Vec::from_slice(alloc, bytes)?),
            Some(Content::Long) => Err(ReadError::TooLong),
            Some(Content::Closed) => Err(ReadError::ReadFailed(denied())),
            None => self.files.read(alloc, name),
        }
    }

    fn write(&mut self, _alloc: Global, name: &str, bytes: &[u8]) -> Result<(), WriteError> {
        if self.memory.is_closed(name) || self.memory.put_bytes(name, bytes).is_err() {
            return Err(WriteError::WriteFailed(denied()));
        }
        self.memory.written = self.memory.written.saturating_add(1);
        Ok(())
    }
}
