//! One request and its response over a connection, in a limited time.
ghost use Rattle.std.specs.Prelude.{IfOk};
ghost use Rattle.beam_http.specs.Requests.{IsAsked};

use crate::access::Door;
use crate::refusal::RequestRefusal;
use crate::request::{MOST_BYTES, Request, request_of};
use std::alloc::Global;
use std::io;
use std::io::{ErrorKind, Read, Write};
use std::net::OpenStream;
use std::time::{Clock, Duration};

/// How long a request may take to come, and a response to go, in milliseconds.
const MOST_MS: u64 = 2_000;

/// The end of a limited time.
#[derive(Clone, Copy)]
struct Deadline {
    began: Duration,
}

impl Deadline {
    fn new<R: Clock>(rt: &R) -> Deadline {
        Deadline {
            began: rt.monotonic().unwrap_or(Duration::ZERO),
        }
    }

    /// What is left of the time; `TimedOut` once nothing is.
    fn left<R: Clock>(&self, rt: &R) -> io::Result<Duration> {
        let now = rt.monotonic().unwrap_or(Duration::ZERO);
        let spent = now.saturating_sub(self.began);
        let most = Duration::from_millis(MOST_MS);
        if spent < most {
            Ok(most.saturating_sub(spent).max(Duration::from_millis(1)))
        } else {
            Err(ErrorKind::TimedOut.into())
        }
    }
}

/// Reads what comes through that door until it has the whole head of a request, which has at most 8,192 bytes and comes within 2 seconds. An
/// error where the connection fails or ends before, or memory is short.
pub fn read_request<R: Clock, S: OpenStream + Read>(
    rt: &R,
    alloc: Global,
    stream: &mut S,
    door: &Door,
) -> io::Result<Result<Request, RequestRefusal>>
    ensures { IfOk result (λ answer. IfOk answer (IsAsked door.now)) }
{
    let deadline = Deadline::new(rt);
    let mut bytes = [0; MOST_BYTES];
    let mut length = 0usize;
    // Each turn but the last reads a byte or more.
    for _ in 0..MOST_BYTES {
        if length >= bytes.len() {
            break;
        }
        stream.set_read_timeout(Some(deadline.left(rt)?))?;
        let count = stream.read(&mut bytes[length..])?;
        if count == 0 {
            return Err(ErrorKind::UnexpectedEof.into());
        }
        length += count;
        if let Some(request) = request_of(alloc, &bytes[..length], door)? {
            return Ok(request);
        }
    }
    Ok(Err(RequestRefusal::TooLarge))
}

/// Writes bytes, within 2 seconds.
pub fn write_response<R: Clock, S: OpenStream + Write>(
    rt: &R,
    stream: &mut S,
    bytes: &[u8],
) -> io::Result<()> {
    let deadline = Deadline::new(rt);
    let mut rest = bytes;
    // Each turn writes a byte or more.
    for _ in 0..bytes.len() {
        if rest.is_empty() {
            break;
        }
        stream.set_write_timeout(Some(deadline.left(rt)?))?;
        let count = stream.write(rest)?;
        if count == 0 {
            return Err(ErrorKind::WriteZero.into());
        }
        rest = &rest[count..];
    }
    Ok(())
}
