//! The connections to a port or a socket, with a session over each of them.

use crate::acceptor::Acceptor;
use crate::endpoint::Endpoint;
use crate::sessions::Incoming;
use beam_remote::{ServeError, Served, SessionFailure};
use beam_sockets::{Peer, ServedStream, TimedStream};
use beam_streams::Streams;
use beam_tools::os_error::OsError;
use log::{Log, info, warn};
use std::alloc::{AllocError, Global};
use std::net::TcpStream;
use std::sync::{Arc, Wait};
use std::time::{Clock, Duration};

/// Both ways of a connection.
type Link<'a, R> = Streams<
    TimedStream<'a, ServedStream<'a>, R>,
    TimedStream<'a, ServedStream<'a>, R>,
>;

/// The connections that one thread serves.
#[derive(Drop)]
pub struct IncomingConnections<'a, R> {
    rt: &'a R,
    alloc: Global,
    acceptor: &'a Acceptor<'a>,
    /// The number of this thread among those that serve connections, from 0 on.
    number: usize,
    /// For how long a peer may give nothing and take nothing.
    idle: Option<Duration>,
    /// The other end of the session's connection.
    peer: Option<Peer>,
}

impl<'a, R> IncomingConnections<'a, R> {
    /// The connections that the thread of this number gets from an acceptor.
    pub fn new(
        rt: &'a R,
        alloc: Global,
        acceptor: &'a Acceptor<'a>,
        number: usize,
        idle: Option<Duration>,
    ) -> IncomingConnections<'a, R> {
        IncomingConnections {
            rt,
            alloc,
            acceptor,
            number,
            idle,
            peer: None,
        }
    }
}

/// Logs that the next connection of this thread's listener has to wait, if each of several threads serves one now.
fn log_places<R: Wait + Log>(rt: &R, acceptor: &Acceptor<'_>, number: usize) {
    let Endpoint {
        listeners,
        sockets,
        ..
    } = acceptor.endpoint();
    let Some(served) = listeners.of(number) else {
        return;
    };
    let count = served.place_count();
    if count < 2 || !sockets.are_taken(rt, &served.places) {
        return;
    }
    if served.is_port() {
        info!(rt; "{count} of {count} places are taken");
    } else {
        info!(rt; "{count} of {count} places of the socket are taken");
    }
}

/// Logs that a session failed: a warning with the refusal's name, and then, at info, the peer, the command after which it failed, and the
/// operating system's error, if a stream failed.
fn log_failure<R: Log>(rt: &R, peer: Peer, error: &ServeError, os_error: Option<OsError>) {
    warn!(rt; "{}", error);
    if let SessionFailure::BadFrame(fault) = error.why {
        info!(rt; "{peer}: {error} {fault} after command {}", error.done);
    } else if let Some(os_error) = os_error {
        info!(rt; "{peer}: {error} after command {}: {}", error.done, os_error.kind_text());
    } else {
        info!(rt; "{peer}: {error} after command {}", error.done);
    }
}

/// A connection in three hands: of the thread that reads it, of the same thread, which also writes it, and of the thread that may shut it.
fn shared(
    alloc: Global,
    stream: TcpStream,
) -> Result<(Arc<TcpStream>, Arc<TcpStream>, Arc<TcpStream>), AllocError> {
    let input = Arc::new(alloc, stream)?;
    let output = Arc::try_clone(&input)?;
    let served = Arc::try_clone(&input)?;
    Ok((input, output, served))
}

impl<'a, R: Wait + Clock + Log> IncomingConnections<'a, R> {
    /// Both ways of a connection, which take one descriptor. `None` where there is no memory for them, or the sockets are shut.
    fn open(&self, stream: TcpStream, peer: Peer) -> Option<Link<'a, R>> {
        let rt = self.rt;
        // Replies are short, and a client waits for each.
        let _ = stream.set_nodelay(true);
        let Ok((input, output, served)) = shared(self.alloc, stream) else {
            warn!(rt; "NoMemory");
            return None;
        };
        let sockets = self.acceptor.endpoint().sockets;
        if !sockets.register(rt, self.number, served, peer) {
            return None;
        }
        let input = ServedStream::new(input, sockets);
        let output = ServedStream::new(output, sockets);
        Some(Streams::new(
            TimedStream::new(rt, input, self.idle),
            TimedStream::new(rt, output, self.idle),
        ))
    }
}

impl<'a, R: Wait + Clock + Log> Incoming<Link<'a, R>> for IncomingConnections<'a, R> {
    fn next(&mut self) -> Option<Link<'a, R>> {
        for _ in self.rt.forever() {
            let (stream, peer) = self.acceptor.next(self.rt, self.number)?;
            info!(self.rt; "{peer}: connected");
            self.acceptor.endpoint().reserve.begin_session(self.rt);
            if let Some(link) = self.open(stream, peer) {
                self.peer = Some(peer);
                log_places(self.rt, self.acceptor, self.number);
                return Some(link);
            }
        }
        unreachable!()
    }

    // A session that ends because the sockets are shut isn't a failure.
    fn ended(&mut self, link: Link<'a, R>, end: Result<Served, ServeError>) {
        let os_error = link.os_error();
        drop(link);
        let sockets = self.acceptor.endpoint().sockets;
        sockets.unregister(self.rt, self.number);
        if sockets.are_shut() {
            return;
        }
        if let (Err(error), Some(peer)) = (end, self.peer) {
            if error.why == SessionFailure::NoMemory {
                self.acceptor.endpoint().reserve.note_wanted();
            }
            self.acceptor.note_failed();
            log_failure(self.rt, peer, &error, os_error);
        }
    }
}
