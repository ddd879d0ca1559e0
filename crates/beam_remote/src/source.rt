//! Devices that are read.
ghost use Rattle.std.specs.Prelude.{◌≡◌, ◌<◌, ◌≤◌, ℕ, List, Option, IfOk, MatchResult, length, take};
ghost use Rattle.beam_remote.specs.DeviceHistory.{appended, saturating_increment};

use crate::port::DeviceFailed;

/// A device that gives bytes, as a file does.
pub trait Source {
    // All bytes that were read, if the device reports them.
    ghost input: { Self → Option (List ℕ) };

    // All bytes that it has to give were read, as far as the device knows.
    ghost at_end: { Self → Type 0 };

    // How many calls failed.
    ghost failed: { Self → ℕ };

    /// Reads some bytes to the front of `buffer`, and tells how many; none only at the end of the input.
    fn read(&mut self, buffer: &mut [u8]) -> Result<usize, DeviceFailed>
        ensures count { IfOk result (λ n. n ≤ length buffer.old) }
        ensures end { IfOk result (λ n. n ≡ 0 → 0 < length buffer.old → at_end self.new) }
        ensures input { MatchResult result (λ n. input self.new ≡ appended (input self.old) (take n buffer.new)) (λ _. input self.new ≡ input self.old) }
        ensures failed { MatchResult result (λ _. failed self.new ≡ failed self.old) (λ _. failed self.new ≡ saturating_increment (failed self.old)) };

    /// How many calls failed so far, at most 2^64 - 1.
    fn failures(&self) -> u64
        ensures { result ≡ failed self.now };
}
