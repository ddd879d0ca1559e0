//! Where frames begin and end in a stream.

use std::time::Duration;

/// A stream of frames, up to its last byte so far: each frame begins with its length, in four bytes, the highest first.
#[derive(Clone, Copy, Debug)]
pub struct FrameTracker {
    /// How many bytes of the frame's length came: 0 to 3.
    count: u8,
    /// The length, as far as these bytes give it.
    length: u32,
    /// How many bytes of the frame are missing, once its length is known.
    missing: u32,
    /// When the first byte of the frame came that isn't whole yet.
    began: Option<Duration>,
}

impl FrameTracker {
    /// A stream before its first byte.
    pub fn new() -> FrameTracker {
        FrameTracker {
            count: 0,
            length: 0,
            missing: 0,
            began: None,
        }
    }

    /// When the first byte of the frame came that isn't whole yet; `None` between frames.
    pub fn began(&self) -> Option<Duration> {
        self.began
    }

    fn begin(&mut self, now: Duration) {
        if self.began.is_none() {
            self.began = Some(now);
        }
    }

    fn end(&mut self) {
        if self.count == 0 && self.missing == 0 {
            self.began = None;
        }
    }

    /// Takes in a byte of a frame's length.
    fn take_length(&mut self, byte: u8) {
        self.length = self.length.wrapping_mul(256).wrapping_add(u32::from(byte));
        self.count = self.count.saturating_add(1);
        if self.count >= 4 {
            self.missing = self.length;
            self.length = 0;
            self.count = 0;
        }
    }

    /// Takes in the next bytes, which came at that time.
    pub fn pass(&mut self, bytes: &[u8], now: Duration) {
        for byte in bytes {
            self.begin(now);
            match self.missing.checked_sub(1) {
                Some(missing) => self.missing = missing,
                None => self.take_length(*byte),
            }
            self.end();
        }
    }
}
