//! A device over memory, for tests.
ghost use Rattle.std.specs.Prelude.{◌≡◌, ◌<◌, ◌≤◌, ◌+◌, ◌∷◌, ◌++◌, ℕ, List, [], Some, OnOk, OnErr, length, min, take, vec_len};
ghost use Rattle.beam_remote.specs.Tape.{AreTaken, Tape, given_so_far, moments_of, with_read};
ghost use Rattle.beam_remote.specs.DeviceHistory.{Moment, appended, saturating_increment};

use crate::port::{DeviceFailed, Port};
use crate::source::Source;
use std::alloc::Global;
use std::marker::Model;

/// How many bytes a device had given and taken.
#[derive(Clone, Copy)]
pub struct Counts {
    pub given: usize,
    pub taken: usize,
}

/// A device over memory. It gives and takes a few bytes a call, and one read and one write may fail.
#[derive(Drop)]
pub struct Memory {
    given: Vec<u8>,
    at: usize,
    taken: Vec<u8>,
    /// The most bytes of one call.
    piece: usize,
    /// How many reads come before the one that fails.
    before_failed_read: Option<u64>,
    /// How many writes come before the one that fails.
    before_failed_write: Option<u64>,
    failures: u64,
    /// What the device had given and taken when each read began that didn't fail.
    reads: Vec<Counts>,
}

impl Model for Memory {
    ghost Value = { Tape };

    ghost view = { λ m. record { given = m.given.items; at = m.at; taken = m.taken.items; failures = m.failures; reads = m.reads.items } };

    ghost invariant = { λ m. (m.at ≤ vec_len m.given) × (0 < m.piece) × AreTaken (length m.taken.items) m.reads.items };
}

impl Memory {
    /// A device that has these bytes to give, `piece` of them a call, but at least one. No call fails.
    pub fn new(alloc: Global, given: Vec<u8>, piece: usize) -> Memory
        ensures { result ≡ record { given = given.items; at = 0; taken = []; failures = 0; reads = [] } }
    {
        Memory {
            given,
            at: 0,
            taken: Vec::new(alloc),
            piece: piece.max(1),
            before_failed_read: None,
            before_failed_write: None,
            failures: 0,
            reads: Vec::new(alloc),
        }
    }

    /// Makes a read fail: the one after `before` others.
    pub fn failing_read(self, before: u64) -> Memory
        ensures { result ≡ self }
    {
        Memory {
            before_failed_read: Some(before),
            ..self
        }
    }

    /// Makes a write fail: the one after `before` others.
    pub fn failing_write(self, before: u64) -> Memory
        ensures { result ≡ self }
    {
        Memory {
            before_failed_write: Some(before),
            ..self
        }
    }

    /// The bytes that the device took.
    pub fn taken(&self) -> &[u8]
        ensures { result.now ≡ self.now.taken }
    {
        &self.taken
    }

    fn fail(&mut self) -> DeviceFailed
        ensures { self.new ≡ record self.old { failures = saturating_increment self.old.failures } }
    {
        self.failures = self.failures.saturating_add(1);
        DeviceFailed
    }

    /// A read begins.
    fn begin_read(&mut self) -> Result<(), DeviceFailed>
        ensures begins { OnOk result (self.new ≡ with_read self.old) }
        ensures same { OnErr result (moments_of self.new ≡ moments_of self.old) }
        ensures fails { OnErr result (self.new ≡ record self.old { failures = saturating_increment self.old.failures }) }
    {
        if due(&mut self.before_failed_read) {
            return Err(self.fail());
        }
        let counts = Counts {
            given: self.at,
            taken: self.taken.len(),
        };
        if self.reads.push(counts).is_err() {
            return Err(self.fail());
        }
        Ok(())
    }

    fn give(&mut self, buffer: &mut [u8]) -> usize
        ensures count { result ≤ length buffer.old }
        ensures end { result ≡ 0 → 0 < length buffer.old → self.new.at ≡ length self.new.given }
        ensures gives { self.new ≡ record self.old { at = self.old.at + result } }
        ensures input { given_so_far self.new ≡ given_so_far self.old ++ take result buffer.new }
    {
        let count = copy_front(&self.given[self.at..], buffer, self.piece);
        self.at += count;
        count
    }

    fn accept(&mut self, bytes: &[u8]) -> Result<(), DeviceFailed>
        ensures takes { OnOk result (self.new ≡ record self.old { taken = self.old.taken ++ bytes.now }) }
        ensures moments { moments_of self.new ≡ moments_of self.old }
        ensures fails { OnErr result (self.new ≡ record self.old { failures = saturating_increment self.old.failures }) }
    {
        if due(&mut self.before_failed_write) {
            return Err(self.fail());
        }
        if self.taken.extend_from_slice(bytes).is_err() {
            return Err(self.fail());
        }
        Ok(())
    }
}

/// Copies the first bytes, at most `most` of them, to the front of `buffer`, and tells how many.
#[tactic(auto, using(crate::proofs::Bytes::front))]
fn copy_front(bytes: &[u8], buffer: &mut [u8], most: usize) -> usize
    ensures count { result ≡ min (min (length bytes.now) (length buffer.old)) most }
    ensures copied { take result bytes.now ≡ take result buffer.new }
{
    let count = bytes.len().min(buffer.len()).min(most);
    buffer[..count].copy_from_slice(&bytes[..count]);
    count
}

/// Whether the call that is to fail is the next one. It is then forgotten; otherwise it is one call nearer.
fn due(before: &mut Option<u64>) -> bool {
    match *before {
        Some(0) => {
            *before = None;
            true
        }
        Some(calls) => {
            *before = Some(calls - 1);
            false
        }
        None => false,
    }
}

impl Port for Memory {
    ghost input = { λ m. Some (take m.at m.given) };

    ghost output = { λ m. Some m.taken };

    ghost moments = { λ m. Some (moments_of m) };

    ghost at_end = { λ m. m.at ≡ length m.given };

    ghost failed = { λ m. m.failures };

    fn read(&mut self, buffer: &mut [u8]) -> Result<usize, DeviceFailed> {
        self.begin_read()?;
        Ok(self.give(buffer))
    }

    fn write(&mut self, bytes: &[u8]) -> Result<usize, DeviceFailed> {
        let count = bytes.len().min(self.piece);
        self.accept(&bytes[..count])?;
        Ok(count)
    }

    fn failures(&self) -> u64 {
        self.failures
    }
}

impl Source for Memory {
    ghost input = { λ m. Some (take m.at m.given) };

    ghost at_end = { λ m. m.at ≡ length m.given };

    ghost failed = { λ m. m.failures };

    fn read(&mut self, buffer: &mut [u8]) -> Result<usize, DeviceFailed> {
        self.begin_read()?;
        Ok(self.give(buffer))
    }

    fn failures(&self) -> u64 {
        self.failures
    }
}
