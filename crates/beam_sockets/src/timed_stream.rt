//! Streams with a time limit.
ghost use Rattle.std.specs.Prelude.{◌≡◌};

use crate::frame_tracker::FrameTracker;
use std::io;
use std::io::{Error, ErrorKind, Read, Write};
use std::net::OpenStream;
use std::time::{Clock, Duration};

/// The shortest limit of a call, in milliseconds.
const SHORTEST: u64 = 1;

/// A stream of frames, one way of a connection. With a limit a call fails with `TimedOut` if no byte comes or goes for that long, or if a
/// frame isn't whole that long after its first byte. Bytes come and go as they are.
#[derive(Drop)]
pub struct TimedStream<'a, S: OpenStream + Drop, R> {
    rt: &'a R,
    stream: S,
    limit: Option<Duration>,
    frames: FrameTracker,
}

impl<'a, S: OpenStream + Drop, R: Clock> TimedStream<'a, S, R> {
    /// A stream between two frames, with a limit or without one.
    pub fn new(rt: &'a R, stream: S, limit: Option<Duration>) -> TimedStream<'a, S, R> {
        TimedStream {
            rt,
            stream,
            limit,
            frames: FrameTracker::new(),
        }
    }

    /// The time; it doesn't advance while it can't be read.
    fn now(&self) -> Duration {
        self.rt.monotonic().unwrap_or(Duration::ZERO)
    }

    /// How long the next call may take.
    fn left(&self, limit: Duration) -> io::Result<Duration> {
        let spent = match self.frames.began() {
            Some(began) => self.now().saturating_sub(began),
            None => Duration::ZERO,
        };
        if spent < limit {
            Ok(
                limit
                    .saturating_sub(spent)
                    .max(Duration::from_millis(SHORTEST)),
            )
        } else {
            Err(Error::from(ErrorKind::TimedOut))
        }
    }

    /// Takes in bytes that came or went.
    fn pass(&mut self, bytes: &[u8])
        ensures { self.new.stream ≡ self.old.stream }
    {
        if self.limit.is_some() {
            let now = self.now();
            self.frames.pass(bytes, now);
        }
    }
}

/// Gives the error of a call that took too long its kind `TimedOut`, where the operating system has another kind for it.
fn as_time_out(error: Error) -> Error {
    match error.kind() {
        ErrorKind::WouldBlock => Error::from(ErrorKind::TimedOut),
        _ => error,
    }
}

impl<S: Read + OpenStream + Drop, R: Clock> Read for TimedStream<'_, S, R> {
    ghost remaining = { λ t. S.remaining t.stream };

    fn read(&mut self, buffer: &mut [u8]) -> io::Result<usize> {
        if let Some(limit) = self.limit {
            let left = self.left(limit)?;
            self.stream.set_read_timeout(Some(left))?;
        }
        let count = self.stream.read(buffer).map_err(as_time_out)?;
        self.pass(&buffer[..count]);
        Ok(count)
    }
}

impl<S: Write + OpenStream + Drop, R: Clock> Write for TimedStream<'_, S, R> {
    ghost contents = { λ t. S.contents t.stream };

    fn write(&mut self, bytes: &[u8]) -> io::Result<usize> {
        if let Some(limit) = self.limit {
            let left = self.left(limit)?;
            self.stream.set_write_timeout(Some(left))?;
        }
        let count = self.stream.write(bytes).map_err(as_time_out)?;
        self.pass(&bytes[..count]);
        Ok(count)
    }

    fn flush(&mut self) -> io::Result<()> {
        self.stream.flush()
    }
}
