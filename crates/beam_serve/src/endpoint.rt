//! What a node listens on, and who serves its connections.

use crate::http_state::HttpState;
use crate::memory_reserve::MemoryReserve;
use crate::readiness::Readiness;
use beam_sockets::{Listener, OpenSockets};
use std::net::SocketAddr;
use std::ops::Range;
use std::sync::Mutex;

/// A listener, with the threads that serve its connections.
#[derive(Drop)]
pub struct ServedListener {
    pub listener: Listener,
    /// The numbers of these threads.
    pub places: Range<usize>,
    /// One of them at a time waits for the next connection.
    pub turn: Mutex<()>,
}

impl ServedListener {
    /// A listener, whose connections the threads of these numbers serve.
    pub fn new(listener: Listener, places: Range<usize>) -> ServedListener {
        ServedListener {
            listener,
            places,
            turn: Mutex::new(()),
        }
    }

    /// Whether it is the port.
    pub fn is_port(&self) -> bool {
        matches!(self.listener, Listener::Port(_))
    }

    /// How many of its connections are served at once.
    pub fn place_count(&self) -> usize {
        self.places.end.saturating_sub(self.places.start)
    }
}

/// The port and the socket that a node listens on, one of them or both.
#[derive(Drop)]
pub struct Listeners {
    pub port: Option<ServedListener>,
    pub socket: Option<ServedListener>,
}

impl Listeners {
    /// The one whose connections the thread of that number serves.
    pub fn of(&self, number: usize) -> Option<&ServedListener> {
        match &self.port {
            Some(served) if number < served.places.end => Some(served),
            _ => self.socket.as_ref(),
        }
    }
}

/// What a node listens on, the sockets by which that is shut, the port's address, the memory that is kept for sessions, what tells whether
/// the node serves, and what the threads share that answer requests.
#[derive(Clone, Copy)]
pub struct Endpoint<'a> {
    pub listeners: &'a Listeners,
    pub http: &'a HttpState<'a>,
    pub sockets: &'a OpenSockets,
    pub address: Option<SocketAddr>,
    /// The address of the page.
    pub page: Option<SocketAddr>,
    pub reserve: &'a MemoryReserve,
    pub readiness: &'a Readiness,
}
