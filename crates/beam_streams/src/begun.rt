//! A device of two streams, and what these were when it began.
ghost use Rattle.std.specs.Prelude.{◌≡◌, Some, true};

use crate::streams::Streams;
use beam_remote::{DeviceFailed, Port};
use std::io::{Read, Write};
use std::marker::{Brand, PhantomData};

/// What two streams had and held when their device began. No code holds it: the proof of a call that passes `Brand` picks it.
pub trait Beginning {
    ghost use Rattle.std.specs.Prelude.{ℕ, List, Option};

    ghost remaining: { Option (List ℕ) };

    ghost contents: { Option (List ℕ) };
}

impl Beginning for Brand {
    ghost use Rattle.std.specs.Prelude.{None};

    ghost remaining = { None };

    ghost contents = { None };
}

/// A device that began with such streams. A session leaves it so, which the contracts of a `Port` don't tell.
#[derive(Drop)]
pub struct Begun<I: Read + Drop, O: Write + Drop, B: Beginning> {
    pub streams: Streams<I, O>,
    pub beginning: PhantomData<B>,
    ghost first: { (streams.first_remaining ≡ B.remaining) × (streams.first_contents ≡ B.contents) },
}

impl<I: Read + Drop, O: Write + Drop, B: Beginning> Port for Begun<I, O, B> {
    ghost input = { λ b. Some b.streams.read };

    ghost output = { λ b. Some b.streams.written };

    ghost moments = { λ b. Some b.streams.moments };

    ghost at_end = { λ b. b.streams.ended ≡ true };

    ghost failed = { λ b. b.streams.failures };

    fn read(&mut self, buffer: &mut [u8]) -> Result<usize, DeviceFailed> {
        self.streams.read(buffer)
    }

    fn write(&mut self, bytes: &[u8]) -> Result<usize, DeviceFailed> {
        self.streams.write(bytes)
    }

    fn failures(&self) -> u64 {
        self.streams.failures()
    }
}
