//! Devices that keep bytes.
ghost use Rattle.std.specs.Prelude.{◌≡◌, ◌<◌, ◌≤◌, ◌+◌, ◌^◌, [], ℕ, List, Option, IfOk, IfSome, MatchResult, OnErr, OnOk, drop, length, option_map, take};
ghost use Rattle.beam_block_file.specs.Shelves.{StandAt, appended, saturating_increment};

use std::io::{Error, ErrorKind};
use thiserror::Error as ErrorDerive;

/// A call of a device failed: the operating system's error.
#[derive(Clone, Copy, Debug, PartialEq, Eq, ErrorDerive)]
#[error("ShelfFailed")]
pub struct ShelfFailed {
    pub kind: ErrorKind,
    /// Its number, if it has one.
    pub code: Option<i32>,
}

impl ShelfFailed {
    /// The kind and number of an error.
    pub fn of(error: &Error) -> ShelfFailed {
        ShelfFailed {
            kind: error.kind(),
            code: error.raw_os_error(),
        }
    }
}

/// A device that keeps bytes in order and can be cut.
pub trait Shelf {
    // All its bytes, if the device tells them.
    ghost bytes: { Self → Option (List ℕ) };

    // How many calls failed.
    ghost failed: { Self → ℕ };

    /// Adds a beginning of `piece` at the end, and tells how many bytes of it; at least one of several.
    fn append(&mut self, piece: &[u8]) -> Result<usize, ShelfFailed>
        ensures count { IfOk result (λ n. (n ≤ length piece.now) × (0 < length piece.now → 0 < n)) }
        ensures bytes { MatchResult result (λ n. bytes self.new ≡ appended (bytes self.old) (take n piece.now)) (λ _. bytes self.new ≡ bytes self.old) }
        ensures failed { MatchResult result (λ _. failed self.new ≡ failed self.old) (λ _. failed self.new ≡ saturating_increment (failed self.old)) };

    /// What was added and cut so far is on the device once this returns Ok. After a failure it isn't known what of it is there, also if
    /// it is tried again.
    fn sync(&mut self) -> Result<(), ShelfFailed>
        ensures same { bytes self.new ≡ bytes self.old }
        ensures failed { MatchResult result (λ _. failed self.new ≡ failed self.old) (λ _. failed self.new ≡ saturating_increment (failed self.old)) };

    /// Cuts off what stands behind the first `length` bytes. A device that has no more isn't changed.
    fn cut(&mut self, length: u64) -> Result<(), ShelfFailed>
        ensures cut { OnOk result (bytes self.new ≡ option_map (take length) (bytes self.old)) }
        ensures kept { OnErr result (bytes self.new ≡ bytes self.old) }
        ensures failed { MatchResult result (λ _. failed self.new ≡ failed self.old) (λ _. failed self.new ≡ saturating_increment (failed self.old)) };

    /// Reads some of the bytes from a place on to the front of `buffer`, and tells how many; none only where no byte stands there.
    fn read_at(&mut self, at: u64, buffer: &mut [u8]) -> Result<usize, ShelfFailed>
        ensures count { IfOk result (λ n. (n ≤ length buffer.new) × (at + n < 2 ^ 64)) }
        ensures read { IfOk result (λ n. IfSome (bytes self.old) (StandAt at (take n buffer.new))) }
        ensures end { IfOk result (λ n. n ≡ 0 → 0 < length buffer.new → IfSome (bytes self.old) (λ b. drop at b ≡ [])) }
        ensures same { bytes self.new ≡ bytes self.old }
        ensures failed { MatchResult result (λ _. failed self.new ≡ failed self.old) (λ _. failed self.new ≡ saturating_increment (failed self.old)) };
}
