//! Devices over memory, for tests.
ghost use Rattle.std.specs.Prelude.{◌≡◌, ◌<◌, ◌≤◌, ◌^◌, Some, OnErr, OnOk, length, min, take};
ghost use Rattle.beam_block_file.specs.Shelves.{saturating_increment};

use crate::shelf::{Shelf, ShelfFailed};
use std::io::ErrorKind;

/// A device over memory. It takes and gives a few bytes a call, and one call of each kind may fail.
#[derive(Drop)]
pub struct MemoryShelf {
    bytes: Vec<u8>,
    /// The most bytes of one call, but at least one.
    most: usize,
    /// How many calls that add bytes come before the one that fails.
    before_failed_append: Option<u64>,
    /// How many syncs come before the one that fails.
    before_failed_sync: Option<u64>,
    /// How many cuts come before the one that fails.
    before_failed_cut: Option<u64>,
    /// How many reads come before the one that fails.
    before_failed_read: Option<u64>,
    failures: u64,
}

impl MemoryShelf {
    /// A device that has these bytes, and takes and gives at most `most` of them a call, but at least one. No call fails.
    pub fn new(bytes: Vec<u8>, most: usize) -> MemoryShelf
        ensures bytes { result.bytes.items ≡ bytes.items }
        ensures quiet { result.failures ≡ 0 }
    {
        MemoryShelf {
            bytes,
            most,
            before_failed_append: None,
            before_failed_sync: None,
            before_failed_cut: None,
            before_failed_read: None,
            failures: 0,
        }
    }

    /// Makes a call that adds bytes fail: the one after `before` others.
    pub fn failing_append(self, before: u64) -> MemoryShelf
        ensures bytes { result.bytes.items ≡ self.bytes.items }
        ensures quiet { result.failures ≡ self.failures }
    {
        MemoryShelf {
            before_failed_append: Some(before),
            ..self
        }
    }

    /// Makes a sync fail: the one after `before` others.
    pub fn failing_sync(self, before: u64) -> MemoryShelf
        ensures bytes { result.bytes.items ≡ self.bytes.items }
        ensures quiet { result.failures ≡ self.failures }
    {
        MemoryShelf {
            before_failed_sync: Some(before),
            ..self
        }
    }

    /// Makes a cut fail: the one after `before` others.
    pub fn failing_cut(self, before: u64) -> MemoryShelf
        ensures bytes { result.bytes.items ≡ self.bytes.items }
        ensures quiet { result.failures ≡ self.failures }
    {
        MemoryShelf {
            before_failed_cut: Some(before),
            ..self
        }
    }

    /// Makes a read fail: the one after `before` others.
    pub fn failing_read(self, before: u64) -> MemoryShelf
        ensures bytes { result.bytes.items ≡ self.bytes.items }
        ensures quiet { result.failures ≡ self.failures }
    {
        MemoryShelf {
            before_failed_read: Some(before),
            ..self
        }
    }

    /// Its bytes.
    pub fn bytes(&self) -> &[u8]
        ensures { result.now ≡ self.now.bytes.items }
    {
        &self.bytes
    }

    /// How many calls failed.
    pub fn failures(&self) -> u64
        ensures { result ≡ self.now.failures }
    {
        self.failures
    }

    fn fail(&mut self) -> ShelfFailed
        ensures bytes { self.new.bytes.items ≡ self.old.bytes.items }
        ensures failed { self.new.failures ≡ saturating_increment self.old.failures }
    {
        self.failures = self.failures.saturating_add(1);
        ShelfFailed {
            kind: ErrorKind::Other,
            code: None,
        }
    }
}

/// Whether the call that is to fail is the next one. It is then forgotten; otherwise it is one call nearer.
fn due(before: &mut Option<u64>) -> bool {
    match *before {
        Some(0) => {
            *before = None;
            true
        }
        Some(calls) => {
            *before = Some(calls - 1);
            false
        }
        None => false,
    }
}

/// Copies the first bytes, at most `most` of them, to the front of `buffer`, and tells how many.
#[tactic(auto, using(crate::proofs::BytesAdded::front))]
fn copy_front(bytes: &[u8], buffer: &mut [u8], most: usize) -> usize
    ensures count { result ≡ min (min (length bytes.now) (length buffer.old)) most }
    ensures copied { take result bytes.now ≡ take result buffer.new }
{
    let count = bytes.len().min(buffer.len()).min(most);
    buffer[..count].copy_from_slice(&bytes[..count]);
    count
}

impl Shelf for MemoryShelf {
    ghost bytes = { λ m. Some m.bytes.items };

    ghost failed = { λ m. m.failures };

    fn append(&mut self, piece: &[u8]) -> Result<usize, ShelfFailed> {
        if due(&mut self.before_failed_append) {
            return Err(self.fail());
        }
        let count = piece.len().min(self.most.max(1));
        if self.bytes.extend_from_slice(&piece[..count]).is_err() {
            return Err(self.fail());
        }
        Ok(count)
    }

    fn sync(&mut self) -> Result<(), ShelfFailed> {
        if due(&mut self.before_failed_sync) {
            return Err(self.fail());
        }
        Ok(())
    }

    fn cut(&mut self, length: u64) -> Result<(), ShelfFailed> {
        if due(&mut self.before_failed_cut) {
            return Err(self.fail());
        }
        if length < self.bytes.len() as u64 {
            self.bytes.truncate(length as usize);
        }
        Ok(())
    }

    fn read_at(&mut self, at: u64, buffer: &mut [u8]) -> Result<usize, ShelfFailed> {
        if due(&mut self.before_failed_read) {
            return Err(self.fail());
        }
        if self.bytes.len() as u64 <= at {
            return Ok(0);
        }
        Ok(copy_front(&self.bytes[at as usize..], buffer, self.most.max(1)))
    }
}
