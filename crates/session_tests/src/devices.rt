//! Devices over memory.

use beam_queue::QueueBrand;
use beam_receipts::brand::NodeBrand;
use beam_remote::memory::Memory;
use beam_remote::{Port, ServeError, Served};
use beam_serve::{SeatDesk, session};
use beam_streams::Streams;
use hex;
use log::Log;
use std::alloc::Global;
use std::io;
use std::io::{Error, ErrorKind, Read, Write};
use std::sync::Wait;

/// How a session is read and written.
#[derive(Clone, Copy)]
pub enum Device {
    /// This many bytes a call.
    Pieces(usize),
    /// One byte a call, and the read after this many others fails.
    Reads(u64),
    /// One byte a call, and the write after this many others fails.
    Writes(u64),
    /// Two streams, one byte a call; a signal interrupts every other call.
    Streams,
}

/// A stream that gives and takes one byte a call; every other call is interrupted.
#[derive(Drop)]
struct Slow {
    bytes: Vec<u8>,
    at: usize,
    is_ready: bool,
}

impl Slow {
    /// Whether this call isn't interrupted.
    fn goes(&mut self) -> bool {
        self.is_ready = !self.is_ready;
        !self.is_ready
    }
}

fn interrupted() -> Error {
    Error::from(ErrorKind::Interrupted)
}

impl Read for Slow {
    fn read(&mut self, buffer: &mut [u8]) -> io::Result<usize> {
        if !self.goes() {
            return Err(interrupted());
        }
        match (self.bytes.get(self.at), buffer.first_mut()) {
            (Some(byte), Some(first)) => {
                *first = *byte;
                self.at = self.at.saturating_add(1);
                Ok(1)
            }
            _ => Ok(0),
        }
    }
}

impl Write for Slow {
    fn write(&mut self, bytes: &[u8]) -> io::Result<usize> {
        if !self.goes() {
            return Err(interrupted());
        }
        match bytes.first() {
            Some(byte) => {
                self.bytes.push(*byte)?;
                Ok(1)
            }
            None => Ok(0),
        }
    }

    fn flush(&mut self) -> io::Result<()> {
        Ok(())
    }
}

/// The bytes that were written, in hexadecimal digits, and how the session ended.
pub fn ended(alloc: Global, written: &[u8], end: Result<Served, ServeError>) -> Option<String> {
    let digits = hex::encode_upper(alloc, written).ok()?;
    let text = match end {
        Ok(end) => format!(in alloc; "{digits} Served {} {}; ", end.done, end.told),
        Err(end) => format!(in alloc; "{digits} {:?} {} {}; ", end.why, end.done, end.told),
    };
    text.ok()
}

fn over_memory<B: NodeBrand + QueueBrand, R: Wait + Log + AllocGlobal>(
    alloc: Global,
    memory: Memory,
    desk: &mut SeatDesk<'_, B, R>,
) -> Option<String> {
    let mut memory = memory;
    let end = session(alloc, &mut memory, desk);
    ended(alloc, memory.taken(), end)
}

fn over_streams<B: NodeBrand + QueueBrand, R: Wait + Log + AllocGlobal>(
    alloc: Global,
    input: Vec<u8>,
    desk: &mut SeatDesk<'_, B, R>,
) -> Option<String> {
    let input = Slow {
        bytes: input,
        at: 0,
        is_ready: false,
    };
    let mut output = Slow {
        bytes: Vec::new(alloc),
        at: 0,
        is_ready: false,
    };
    let end = session(alloc, &mut Streams::new(input, &mut output), desk);
    ended(alloc, &output.bytes, end)
}

impl Device {
    /// The bytes that a session over the device with this input writes, and how it ends.
    pub fn session<B: NodeBrand + QueueBrand, R: Wait + Log + AllocGlobal>(
        self,
        alloc: Global,
        input: Vec<u8>,
        desk: &mut SeatDesk<'_, B, R>,
    ) -> Option<String> {
        let memory = match self {
            Device::Pieces(piece) => Memory::new(alloc, input, piece),
            Device::Reads(before) => Memory::new(alloc, input, 1).failing_read(before),
            Device::Writes(before) => Memory::new(alloc, input, 1).failing_write(before),
            Device::Streams => return over_streams(alloc, input, desk),
        };
        over_memory(alloc, memory, desk)
    }
}
