//! Devices in memory.

use crate::given::parted;
use beam_remote::memory::Memory;
use std::alloc::Global;

// How many bytes a device gives and takes in a call, unless it is one of single bytes.
const PIECE: usize = 4_096;

/// How a device in memory is read and written.
#[derive(Clone, Copy)]
pub enum Device {
    /// This many bytes a call, and at least one.
    Pieces(usize),
    /// One byte a call, and the read after this many others fails.
    Reads(u64),
    /// One byte a call, and the write after this many others fails.
    Writes(u64),
}

impl Device {
    /// As many bytes a call as are asked for, up to 4,096.
    pub const WHOLE: Device = Device::Pieces(PIECE);

    /// The device that a text names: `whole`, `bytes` (one byte a call), `read N` or `write N`.
    pub fn named(text: &str) -> Option<Device> {
        let (word, count) = parted(text);
        match (word, count.parse::<u64>()) {
            ("whole", _) => Some(Device::WHOLE),
            ("bytes", _) => Some(Device::Pieces(1)),
            ("read", Ok(before)) => Some(Device::Reads(before)),
            ("write", Ok(before)) => Some(Device::Writes(before)),
            _ => None,
        }
    }

    /// The device that gives these bytes.
    pub fn over(self, alloc: Global, given: Vec<u8>) -> Memory {
        match self {
            Device::Pieces(piece) => Memory::new(alloc, given, piece),
            Device::Reads(before) => Memory::new(alloc, given, 1).failing_read(before),
            Device::Writes(before) => Memory::new(alloc, given, 1).failing_write(before),
        }
    }
}
