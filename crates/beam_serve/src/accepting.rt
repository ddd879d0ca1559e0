//! Accepting connections.

use beam_sockets::{Listener, OpenSockets, Peer};
use beam_tools::os_error::OsError;
use log::{Log, warn};
use std::io::{Error, ErrorKind};
use std::net::TcpStream;
use std::sync::Wait;
use std::time::{Clock, Duration};

/// Why no connection is accepted.
#[derive(Clone, Copy, Debug, PartialEq, Eq)]
pub enum NotAccepted {
    /// The sockets are shut.
    Shut,
    /// The listener failed: the operating system's error.
    ListenerFailed(OsError),
}

/// Whether accepting can succeed after this failure.
#[derive(Clone, Copy, Debug, PartialEq, Eq)]
enum AcceptFailure {
    /// The next call may succeed: no descriptors, no memory, a connection or a network that broke off.
    Transient,
    /// The listener failed for good.
    Permanent,
}

/// How long to wait after a transient failure, in milliseconds.
const RETRY_AFTER: u64 = 100;

/// The system has no descriptors left, the process has none, the protocol failed, or there are no buffers.
const TRANSIENT_ERRORS: [i32; 4] = [23, 24, 71, 105];

fn failure_of(error: &Error) -> AcceptFailure {
    match error.kind() {
        ErrorKind::Interrupted
        | ErrorKind::WouldBlock
        | ErrorKind::TimedOut
        | ErrorKind::ConnectionAborted
        | ErrorKind::ConnectionReset
        | ErrorKind::HostUnreachable
        | ErrorKind::NetworkUnreachable
        | ErrorKind::NetworkDown
        | ErrorKind::PermissionDenied
        | ErrorKind::OutOfMemory => AcceptFailure::Transient,
        _ => match error.raw_os_error() {
            Some(number) if TRANSIENT_ERRORS.contains(&number) => AcceptFailure::Transient,
            _ => AcceptFailure::Permanent,
        },
    }
}

/// Waits for the next connection, and returns it with its other end. After a transient failure it tries again, after a pause, and the first
/// failure of several is logged as a warning.
pub fn accept<R: Wait + Clock + Log>(
    rt: &R,
    listener: &Listener,
    sockets: &OpenSockets,
) -> Result<(TcpStream, Peer), NotAccepted> {
    let mut is_reported = false;
    for _ in rt.forever() {
        let error = match listener.accept() {
            Ok(connection) => return Ok(connection),
            Err(error) => error,
        };
        if sockets.are_shut() {
            return Err(NotAccepted::Shut);
        }
        if failure_of(&error) == AcceptFailure::Permanent {
            return Err(NotAccepted::ListenerFailed(OsError::of(&error)));
        }
        if !is_reported {
            warn!(rt; "accept: {error}");
            is_reported = true;
        }
        rt.sleep(Duration::from_millis(RETRY_AFTER));
    }
    unreachable!()
}
