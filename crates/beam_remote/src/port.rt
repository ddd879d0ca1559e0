//! Devices that are read and written.
ghost use Rattle.std.specs.Prelude.{◌≡◌, ◌<◌, ◌≤◌, ℕ, List, Option, IfOk, MatchResult, length, take};
ghost use Rattle.beam_remote.specs.DeviceHistory.{Moment, appended, saturating_increment, one_read};

use thiserror::Error;

/// A call of a device failed.
#[derive(Clone, Copy, Debug, PartialEq, Eq, Error)]
#[error("DeviceFailed")]
pub struct DeviceFailed;

/// A device that gives and takes bytes, as a socket does.
pub trait Port {
    // All bytes that were read, if the device reports them.
    ghost input: { Self → Option (List ℕ) };

    // All bytes that were written, if the device reports them.
    ghost output: { Self → Option (List ℕ) };

    // What had been read and written when each read began that didn't fail, if the device reports it.
    ghost moments: { Self → Option (List Moment) };

    // All bytes that it has to give were read, as far as the device knows.
    ghost at_end: { Self → Type 0 };

    // How many calls failed.
    ghost failed: { Self → ℕ };

    /// Reads some bytes to the front of `buffer`, and tells how many; none only at the end of the input.
    fn read(&mut self, buffer: &mut [u8]) -> Result<usize, DeviceFailed>
        ensures count { IfOk result (λ n. n ≤ length buffer.old) }
        ensures end { IfOk result (λ n. n ≡ 0 → 0 < length buffer.old → at_end self.new) }
        ensures input { MatchResult result (λ n. input self.new ≡ appended (input self.old) (take n buffer.new)) (λ _. input self.new ≡ input self.old) }
        ensures output { output self.new ≡ output self.old }
        ensures moments { MatchResult result (λ _. moments self.new ≡ one_read (moments self.old) (input self.old) (output self.old))
            (λ _. moments self.new ≡ moments self.old) }
        ensures failed { MatchResult result (λ _. failed self.new ≡ failed self.old) (λ _. failed self.new ≡ saturating_increment (failed self.old)) };

    /// Writes a beginning of `bytes`, and tells how many; at least one of several.
    fn write(&mut self, bytes: &[u8]) -> Result<usize, DeviceFailed>
        ensures count { IfOk result (λ n. (n ≤ length bytes.now) × (0 < length bytes.now → 0 < n)) }
        ensures output { MatchResult result (λ n. output self.new ≡ appended (output self.old) (take n bytes.now)) (λ _. output self.new ≡ output self.old) }
        ensures input { input self.new ≡ input self.old }
        ensures moments { moments self.new ≡ moments self.old }
        ensures failed { MatchResult result (λ _. failed self.new ≡ failed self.old) (λ _. failed self.new ≡ saturating_increment (failed self.old)) };

    /// How many calls failed so far, at most 2^64 - 1.
    fn failures(&self) -> u64
        ensures { result ≡ failed self.now };
}
