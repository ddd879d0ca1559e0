//! Commands of a stream that comes in pieces.
ghost use Rattle.std.specs.Prelude.{◌≡◌, ◌≤◌, ◌++◌, ◌↔◌, ◌⊎◌, [], List, ℕ, length, drop, true, false, IfOk, IfErr, IfSome, OnOk, OnErr, IsErrOf, IsTrue, MatchOption, None};
ghost use Rattle.beam_machine.specs.Frames.{frame_in, after_length, frame_content, no_frame, one_frame, bad_frame};
ghost use Rattle.beam_frame.specs.Faults.{IsErrorOf};
ghost use Rattle.beam_frame.specs.Reader.{Reader, waiting, Answers};

use crate::command::{kind_of, read_command};
use crate::error::FrameError;
use beam_machine::command::Command;
use byteorder::{BigEndian, ByteOrder};
use std::alloc::Global;
use std::marker::Model;

/// The greatest length of a frame's kind and body.
pub(crate) const LONGEST_FRAME: usize = 8_388_608;

/// The command of the first frame, and how many bytes the frame takes; none while the frame isn't whole.
#[tactic(auto, unfolding(beam_machine::specs::Frames::frame_in, beam_machine::specs::Frames::after_length))]
fn read_frame(alloc: Global, bytes: &[u8]) -> Result<Option<(Command, usize)>, FrameError>
    ensures found { IfOk result (λ o. MatchOption o (frame_in bytes.now ≡ no_frame)
        (λ p. (p.1 ≤ length bytes.now) × (frame_in bytes.now ≡ one_frame p.0 (drop p.1 bytes.now)))) }
    ensures fault { IfErr result (λ e. IsErrorOf e (frame_in bytes.now)) }
{
    if bytes.len() < 4 {
        return Ok(None);
    }
    let length = BigEndian::read_u32(bytes) as usize;
    if length > LONGEST_FRAME {
        return Err(FrameError::TooLong);
    }
    let rest = &bytes[4..];
    if rest.len() < length {
        return Ok(None);
    }
    let Some((kind, body)) = rest[..length].split_first() else {
        return Err(FrameError::BadKind);
    };
    let Some(kind) = kind_of(*kind) else {
        return Err(FrameError::BadKind);
    };
    let command = read_command(alloc, kind, body)?;
    Ok(Some((command, 4 + length)))
}

/// A reader of the commands of a stream, which comes in pieces of any size. After an error it answers `Failed` for good.
///
/// In all it takes time proportional to the bytes of the stream, also where they come one by one.
pub struct FrameReader {
    alloc: Global,
    buffer: Vec<u8>,
    // How many bytes at the front of the buffer belong to frames that were read: at most half of them.
    start: usize,
    failed: bool,
}

impl Drop for FrameReader {
    fn drop(self) {
        let FrameReader {
            alloc: _alloc,
            buffer: _buffer,
            start: _start,
            failed: _failed,
        } = self;
    }
}

impl Model for FrameReader {
    ghost use Rattle.std.specs.Prelude.{◌≤◌, ◌*◌, drop, vec_len};
    ghost use Rattle.beam_frame.specs.Reader.{Reader};

    ghost Value = { Reader };

    ghost view = { λ r. record { pending = drop r.start r.buffer.items; failed = r.failed } };

    ghost invariant = { λ r. 2 * r.start ≤ vec_len r.buffer };
}

/// Removes `count` bytes from the front.
fn remove_front(buffer: &mut Vec<u8>, count: usize)
    requires { count ≤ length buffer.old.items }
    ensures { buffer.new.items ≡ drop count buffer.old.items }
{
    let rest = buffer.len() - count;
    buffer.rotate_left(count);
    buffer.truncate(rest);
}

impl FrameReader {
    /// A reader of a stream, before its first byte. It takes no memory.
    pub fn new(alloc: Global) -> FrameReader
        ensures { result ≡ waiting [] }
    {
        FrameReader {
            alloc,
            buffer: Vec::new(alloc),
            start: 0,
            failed: false,
        }
    }

    /// Whether all bytes that came belong to frames that were read.
    pub fn is_empty(&self) -> bool
        ensures { IsTrue result ↔ (self.now.pending ≡ []) }
    {
        self.buffer[self.start..].is_empty()
    }

    /// More bytes of the stream. `NoMemory` where memory is refused, and `Failed` exactly after an error.
    pub fn feed(&mut self, bytes: &[u8]) -> Result<(), FrameError>
        ensures ok { OnOk result ((self.old.failed ≡ false) × (self.new ≡ waiting (self.old.pending ++ bytes.now))) }
        ensures failed { IsErrOf result FrameError.Failed ↔ (self.old.failed ≡ true) }
        ensures memory { IfErr result (λ e. (e ≡ FrameError.Failed) ⊎ (e ≡ FrameError.NoMemory)) }
        ensures err { OnErr result (self.new ≡ record self.old { failed = true }) }
    {
        if self.failed {
            return Err(FrameError::Failed);
        }
        if self.buffer.extend_from_slice(bytes).is_err() {
            self.failed = true;
            return Err(FrameError::NoMemory);
        }
        Ok(())
    }

    /// The command of the first frame that wasn't read yet; none while that frame isn't whole.
    ///
    /// `TooLong` where its length is above 8,388,608, and `BadKind` where it is 0, as soon as the four bytes of the length came. Where
    /// the frame is whole, `BadKind` where there is no such kind, and `BadCommand` where its body doesn't spell a command of the kind;
    /// `NoMemory` where memory is refused for the command. `Failed` exactly after an error.
    pub fn next(&mut self) -> Result<Option<Command>, FrameError>
        ensures found { IfOk result (λ o. IfSome o (λ c. (rest : List ℕ) × (self.old.failed ≡ false)
            × (frame_in self.old.pending ≡ one_frame c rest) × (self.new ≡ waiting rest))) }
        ensures none { IfOk result (λ o. o ≡ None → (self.old.failed ≡ false) × (frame_in self.old.pending ≡ no_frame) × (self.new ≡ self.old)) }
        ensures fault { IfErr result (λ e. Answers e self.old) }
        ensures failed { OnErr result (self.new ≡ record self.old { failed = true }) }
    {
        if self.failed {
            return Err(FrameError::Failed);
        }
        match read_frame(self.alloc, &self.buffer[self.start..]) {
            Ok(Some((command, size))) => {
                self.pass(size);
                Ok(Some(command))
            }
            Ok(None) => Ok(None),
            Err(error) => {
                self.failed = true;
                Err(error)
            }
        }
    }

    // Passes `count` bytes, which were read. Once the passed bytes are half of the buffer or more, the others move to its front.
    fn pass(&mut self, count: usize)
        requires { count ≤ length self.old.pending }
        ensures { self.new ≡ record self.old { pending = drop count self.old.pending } }
    {
        let start = self.start + count;
        if self.buffer.len() - start <= start {
            remove_front(&mut self.buffer, start);
            self.start = 0;
        } else {
            self.start = start;
        }
    }
}
