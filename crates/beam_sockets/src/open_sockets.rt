//! The listeners and the open connections, for the thread that has to shut them.

use crate::listener::{Listener, Peer};
use std::alloc::{AllocError, Global};
use std::io;
use std::net::{Shutdown, TcpStream};
use std::ops::Range;
use std::sync::atomic::{AtomicBool, Ordering};
use std::sync::{Arc, Condvar, CondvarTimeouts, Mutex, Wait};
use std::time::{Clock, Duration};

/// For how many seconds a reply may be on its way once the sockets are shut.
const PATIENCE: u64 = 2;

/// A connection that a thread serves.
#[derive(Drop)]
struct OpenConnection {
    stream: Arc<TcpStream>,
    peer: Peer,
    /// When it began, by the runtime's clock.
    since: Duration,
}

/// What is told of a connection that is served.
#[derive(Clone, Copy, Debug)]
pub struct ConnectionRow {
    /// The number of the thread that serves it, from 0 on.
    pub number: usize,
    pub peer: Peer,
    /// When it began, by the runtime's clock.
    pub since: Duration,
}

/// The connection that each thread serves, if any.
#[derive(Drop)]
pub struct ServedConnections {
    open: Vec<Option<OpenConnection>>,
}

impl ServedConnections {
    /// The connections of `count` threads, none of which serves one.
    pub fn none(alloc: Global, count: usize) -> Result<ServedConnections, AllocError> {
        let mut open = Vec::with_capacity(alloc, count)?;
        for _ in 0..count {
            open.push(None)?;
        }
        Ok(ServedConnections { open })
    }

    fn put(&mut self, number: usize, connection: Option<OpenConnection>) {
        if let Some(place) = self.open.get_mut(number) {
            *place = connection;
        }
    }

    /// How many threads serve a connection.
    fn count(&self) -> usize {
        self.open.iter().flatten().count()
    }

    fn shut(&self, how: Shutdown) {
        for connection in self.open.iter().flatten() {
            let _ = connection.stream.shutdown(how);
        }
    }

    /// What is told of each of them.
    fn rows(&self, alloc: Global) -> Result<Vec<ConnectionRow>, AllocError> {
        let mut rows = Vec::new(alloc);
        for (number, open) in self.open.iter().enumerate() {
            if let Some(connection) = open {
                rows.push(ConnectionRow {
                    number,
                    peer: connection.peer,
                    since: connection.since,
                })?;
            }
        }
        Ok(rows)
    }
}

/// The listeners and the connections that are served. Once they are shut, calls that wait on them return.
#[derive(Drop)]
pub struct OpenSockets {
    listeners: Vec<TcpStream>,
    served: Mutex<ServedConnections>,
    /// A thread no longer serves a connection.
    left: Condvar,
    is_shut: AtomicBool,
}

impl OpenSockets {
    /// The sockets of threads that serve connections, without a listener.
    pub fn new(alloc: Global, served: ServedConnections) -> OpenSockets {
        OpenSockets {
            listeners: Vec::new(alloc),
            served: Mutex::new(served),
            left: Condvar::new(),
            is_shut: AtomicBool::new(false),
        }
    }

    /// Adds a listener. It takes a descriptor. If that or memory is refused nothing is added.
    pub fn add(&mut self, listener: &Listener) -> io::Result<()> {
        self.listeners.reserve(1)?;
        // Shutting a listening socket takes the call that shuts a connected one.
        let handle = listener.handle()?;
        let _ = self.listeners.push(handle);
        Ok(())
    }

    /// Notes that the thread of that number serves a connection from now on, and its other end. False if the sockets are shut; then nothing
    /// is noted.
    pub fn register<R: Wait + Clock>(
        &self,
        rt: &R,
        number: usize,
        stream: Arc<TcpStream>,
        peer: Peer,
    ) -> bool {
        let since = rt.monotonic().unwrap_or(Duration::ZERO);
        let mut served = self.served.lock(rt);
        if self.are_shut() {
            return false;
        }
        served.put(
            number,
            Some(OpenConnection {
                stream,
                peer,
                since,
            }),
        );
        true
    }

    /// Notes that the thread of that number no longer serves its connection.
    pub fn unregister<R: Wait>(&self, rt: &R, number: usize) {
        let mut served = self.served.lock(rt);
        served.put(number, None);
        self.left.notify_all();
    }

    /// Whether each of the threads of these numbers serves a connection now.
    pub fn are_taken<R: Wait>(&self, rt: &R, numbers: &Range<usize>) -> bool {
        let served = self.served.lock(rt);
        match served.open.get(numbers.start..numbers.end) {
            Some(open) => open.iter().all(|connection| connection.is_some()),
            None => false,
        }
    }

    /// How many connections are served now.
    pub fn served_count<R: Wait>(&self, rt: &R) -> usize {
        self.served.lock(rt).count()
    }

    /// What is told of each connection that is served now, in the order of the threads.
    pub fn connections<R: Wait>(
        &self,
        rt: &R,
        alloc: Global,
    ) -> Result<Vec<ConnectionRow>, AllocError> {
        self.served.lock(rt).rows(alloc)
    }

    /// Whether the sockets are shut, or are being shut.
    pub fn are_shut(&self) -> bool {
        self.is_shut.load(Ordering::SeqCst)
    }

    /// No connection is accepted any more. Those that are served go on.
    pub fn stop_listening(&self) {
        for listener in &self.listeners {
            let _ = listener.shutdown(Shutdown::Both);
        }
    }

    /// Shuts the sockets for good and returns at once: no connection is accepted any more, and from those that are served nothing more is read.
    /// What was read before is answered.
    pub fn begin_shut<R: Wait>(&self, rt: &R) {
        let served = self.served.lock(rt);
        self.is_shut.store(true, Ordering::SeqCst);
        self.stop_listening();
        served.shut(Shutdown::Read);
    }

    /// Shuts the sockets for good, as `begin_shut` does. It returns once no connection is served. Those that still are after 2 seconds, as one
    /// whose peer doesn't take its replies, are cut off. A thread that serves a connection must not call it.
    pub fn shut<R: Wait + Clock>(&self, rt: &R) {
        self.begin_shut(rt);
        let served = self.served.lock(rt);
        let patience = Duration::from_secs(PATIENCE);
        let served = self
            .left
            .wait_timeout_while(rt, served, patience, |served| served.count() > 0)
            .0;
        served.shut(Shutdown::Both);
    }

    /// Shuts the sockets for good, and cuts off the connections that are served: nothing is read or written any more.
    pub fn cut_off<R: Wait>(&self, rt: &R) {
        let served = self.served.lock(rt);
        self.is_shut.store(true, Ordering::SeqCst);
        self.stop_listening();
        served.shut(Shutdown::Both);
    }
}
