//! How much memory the program has.

use std::fs::File;
use std::os::unix::fs::FileExt;
use std::rt;

/// How many bytes a page of memory has.
const PAGE_BYTES: u64 = 4_096;

/// The file of the system that tells how much memory this program has, opened once.
#[derive(Drop)]
pub struct ResidentMemory {
    file: Option<File>,
}

impl ResidentMemory {
    /// What is never told.
    pub fn none() -> ResidentMemory {
        ResidentMemory { file: None }
    }

    /// Opens the system's file, if there is one.
    pub fn new<R: rt::Files<File = File>>(rt: &R) -> ResidentMemory {
        ResidentMemory {
            file: File::open(rt, "/proc/self/statm").ok(),
        }
    }

    /// How many bytes of the program's memory are resident; none where that can't be read.
    pub fn bytes(&self) -> Option<u64> {
        let mut buffer = [0; 128];
        let count = self.file.as_ref()?.read_at(&mut buffer, 0).ok()?;
        let text = str::from_utf8(buffer.get(..count)?).ok()?;
        let pages = text.split(' ').nth(1)?.parse::<u64>().ok()?;
        pages.checked_mul(PAGE_BYTES)
    }
}
