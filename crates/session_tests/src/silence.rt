//! Streams with a time limit, over a clock and a stream in memory.

use beam_sockets::TimedStream;
use std::cell::Cell;
use std::io;
use std::io::{Error, ErrorKind, Read};
use std::net::OpenStream;
use std::process::Abort;
use std::test::*;
use std::time::{Clock, Duration};

/// A clock that a stream advances.
#[derive(Drop)]
struct StreamClock {
    now: Cell<Duration>,
}

impl StreamClock {
    fn pass(&self, time: Duration) {
        self.now.set(self.now.get().saturating_add(time));
    }
}

impl Clock for StreamClock {
    fn monotonic(&self) -> io::Result<Duration> {
        Ok(self.now.get())
    }

    fn since_1970(&self) -> io::Result<Duration> {
        Ok(self.now.get())
    }
}

/// A delay in milliseconds, and then this many zeros and a byte.
type Piece = (u64, usize, u8);

/// A stream that gives its pieces, one a call. A call fails if its piece comes later than the call waits.
#[derive(Drop)]
struct Pieces<'a> {
    clock: &'a StreamClock,
    pieces: &'a [Piece],
    wait: Cell<Duration>,
}

impl OpenStream for Pieces<'_> {
    fn set_read_timeout(&self, time: Option<Duration>) -> io::Result<()> {
        self.wait.set(time.unwrap_or(Duration::MAX));
        Ok(())
    }
}

impl Read for Pieces<'_> {
    fn read(&mut self, buffer: &mut [u8]) -> io::Result<usize> {
        let Some(((after, zeros, last), rest)) = self.pieces.split_first() else {
            return Ok(0);
        };
        let after = Duration::from_millis(*after);
        if self.wait.get() < after {
            self.clock.pass(self.wait.get());
            return Err(Error::from(ErrorKind::WouldBlock));
        }
        self.clock.pass(after);
        self.pieces = rest;
        let Some(place) = buffer.get_mut(*zeros) else {
            return Ok(0);
        };
        *place = *last;
        Ok(zeros.saturating_add(1))
    }
}

/// How many bytes come through a stream with a limit of a second, and at which millisecond it fails; `None` if all come.
fn come(pieces: &[Piece]) -> (usize, Option<u128>) {
    let clock = StreamClock {
        now: Cell::new(Duration::ZERO),
    };
    let stream = Pieces {
        clock: &clock,
        pieces,
        wait: Cell::new(Duration::MAX),
    };
    let mut stream = TimedStream::new(&clock, stream, Some(Duration::from_secs(1)));
    let mut buffer = [0; 64];
    let mut count = 0usize;
    for _ in pieces {
        match stream.read(&mut buffer) {
            Ok(more) => count = count.saturating_add(more),
            Err(error) if error.kind() == ErrorKind::TimedOut => {
                return (count, Some(clock.now.get().as_millis()));
            }
            Err(_) => return (count, None),
        }
    }
    (count, None)
}

#[test]
fn a_frame_has_a_second_from_its_first_byte_on(rt: HostRuntime) {
    let all = (
        // no byte comes in time
        come(&[(1_001, 3, 1)]),
        // two frames, each of a length and a byte; the second one begins with the last byte of the third piece
        come(&[(900, 3, 1), (900, 1, 0), (900, 2, 1), (50, 0, 7)]),
        come(&[(900, 3, 1), (900, 1, 0), (900, 2, 1), (150, 0, 7)]),
        // a frame byte by byte
        come(&[
            (400, 0, 0),
            (400, 0, 0),
            (400, 0, 0),
            (400, 0, 1),
            (400, 0, 7),
        ]),
    );
    let wanted = (
        (0, Some(1_000)),
        (10, None),
        (9, Some(2_800)),
        (3, Some(1_400)),
    );
    assert_eq!(rt; all, wanted);
}
