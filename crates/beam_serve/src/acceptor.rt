//! Where the threads of a node get their connections.

use crate::accepting::{NotAccepted, accept};
use crate::endpoint::{Endpoint, ServedListener};
use beam_sockets::Peer;
use beam_tools::os_error::OsError;
use log::Log;
use std::net::TcpStream;
use std::sync::atomic::{AtomicU64, AtomicUsize, Ordering};
use std::sync::{Mutex, Wait};
use std::time::Clock;

/// Why no more connections are accepted.
#[derive(Clone, Copy)]
pub enum Ended {
    /// As many were accepted as were asked for.
    Served,
    /// The node was asked to stop.
    Asked,
    /// The port's listener failed: the operating system's error.
    PortFailed(OsError),
    /// The socket's listener failed: the operating system's error.
    SocketFailed(OsError),
    /// The sockets are shut.
    Shut,
    /// No worker runs processes.
    NoWorker,
}

/// Whether more connections are accepted.
#[derive(Clone, Copy)]
enum Accepting {
    /// This many more are accepted; 0 for no end.
    Open(u32),
    Ended(Ended),
}

impl Accepting {
    /// The state after one more connection was accepted.
    fn after_one(self) -> Accepting {
        match self {
            Accepting::Open(0) => Accepting::Open(0),
            Accepting::Open(1) => Accepting::Ended(Ended::Served),
            Accepting::Open(left) => Accepting::Open(left.saturating_sub(1)),
            Accepting::Ended(ended) => Accepting::Ended(ended),
        }
    }
}

/// Hands out the connections to what a node listens on. At the port and at the socket one thread at a time waits for the next connection, and
/// the others for their turn, so that none is left waiting once no more are accepted.
pub struct Acceptor<'a> {
    endpoint: Endpoint<'a>,
    accepting: Mutex<Accepting>,
    /// How many threads serve connections, once that is known.
    threads: AtomicUsize,
    /// How many of them serve no more.
    left: AtomicUsize,
    /// How many connections were accepted.
    accepted: AtomicU64,
    /// How many sessions failed.
    failed: AtomicU64,
}

impl<'a> Drop for Acceptor<'a> {
    fn drop(self) {
        let Acceptor {
            endpoint: _endpoint,
            accepting: _accepting,
            threads: _threads,
            left: _left,
            accepted: _accepted,
            failed: _failed,
        } = self;
    }
}

impl<'a> Acceptor<'a> {
    /// An acceptor for what a node listens on, for `count` connections in all; 0 for no end.
    pub fn new(endpoint: Endpoint<'a>, count: u32) -> Acceptor<'a> {
        Acceptor {
            endpoint,
            accepting: Mutex::new(Accepting::Open(count)),
            threads: AtomicUsize::new(usize::MAX),
            left: AtomicUsize::new(0),
            accepted: AtomicU64::new(0),
            failed: AtomicU64::new(0),
        }
    }

    /// What it accepts connections to.
    pub fn endpoint(&self) -> Endpoint<'a> {
        self.endpoint
    }

    /// Counts a connection that came. False if no more are accepted; after the last one nothing is listened on.
    fn admit<R: Wait>(&self, rt: &R) -> bool {
        let mut accepting = self.accepting.lock(rt);
        if let Accepting::Ended(_) = *accepting {
            return false;
        }
        *accepting = accepting.after_one();
        let _ = self.accepted.fetch_add(1, Ordering::SeqCst);
        if let Accepting::Ended(_) = *accepting {
            self.endpoint.sockets.stop_listening();
        }
        true
    }

    /// Waits for the next connection at a listener, where it is this thread's turn.
    fn next_at<R: Wait + Clock + Log>(
        &self,
        rt: &R,
        served: &ServedListener,
    ) -> Option<(TcpStream, Peer)> {
        if self.ended(rt).is_some() {
            return None;
        }
        match accept(rt, &served.listener, self.endpoint.sockets) {
            Ok(connection) if self.admit(rt) => Some(connection),
            Ok(_connection) => None,
            Err(NotAccepted::Shut) => {
                self.close(rt, Ended::Shut);
                None
            }
            Err(NotAccepted::ListenerFailed(os_error)) if served.is_port() => {
                self.close(rt, Ended::PortFailed(os_error));
                None
            }
            Err(NotAccepted::ListenerFailed(os_error)) => {
                self.close(rt, Ended::SocketFailed(os_error));
                None
            }
        }
    }

    /// Waits for the next connection that the thread of that number is to serve, and returns it with its other end. `None` where no more are
    /// accepted.
    pub fn next<R: Wait + Clock + Log>(&self, rt: &R, number: usize) -> Option<(TcpStream, Peer)> {
        let served = self.endpoint.listeners.of(number)?;
        let turn = served.turn.lock(rt);
        let next = self.next_at(rt, served);
        drop(turn);
        next
    }

    /// How many connections were accepted.
    pub fn accepted(&self) -> u64 {
        self.accepted.load(Ordering::SeqCst)
    }

    /// Notes that a session failed.
    pub fn note_failed(&self) {
        let _ = self.failed.fetch_add(1, Ordering::SeqCst);
    }

    /// How many sessions failed.
    pub fn failed(&self) -> u64 {
        self.failed.load(Ordering::SeqCst)
    }

    /// Accepts no more connections, for this reason, if they still are accepted.
    pub fn close<R: Wait>(&self, rt: &R, ended: Ended) {
        let mut accepting = self.accepting.lock(rt);
        if let Accepting::Open(_) = *accepting {
            *accepting = Accepting::Ended(ended);
        }
    }

    /// Why no more connections are accepted; `None` if they still are.
    pub fn ended<R: Wait>(&self, rt: &R) -> Option<Ended> {
        match *self.accepting.lock(rt) {
            Accepting::Open(_) => None,
            Accepting::Ended(ended) => Some(ended),
        }
    }

    /// Notes how many threads serve connections.
    pub fn expect_threads(&self, count: usize) {
        self.threads.store(count, Ordering::SeqCst);
    }

    /// Notes that a thread serves no more connections.
    pub fn leave(&self) {
        let _ = self.left.fetch_add(1, Ordering::SeqCst);
    }

    /// Whether no thread serves connections any more.
    pub fn all_left(&self) -> bool {
        self.left.load(Ordering::SeqCst) >= self.threads.load(Ordering::SeqCst)
    }
}
