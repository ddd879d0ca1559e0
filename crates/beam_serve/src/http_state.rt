//! What the threads share that answer requests.

use crate::census_cache::CensusCache;
use crate::http_places::HttpPlaces;
use crate::request_tally::RequestTally;
use crate::resident::ResidentMemory;
use beam_http::Door;
use beam_log::LogLines;
use beam_sockets::Listener;
use std::sync::{Mutex, Wait};
use std::time::{Clock, Duration};

/// A listener for requests, and who may ask there.
#[derive(Drop)]
pub struct HttpDoor<'a> {
    pub listener: &'a Listener,
    pub door: Door,
    pub places: HttpPlaces,
}

/// What of the line of `serve` is told.
#[derive(Clone, Copy)]
pub struct ToldOptions {
    pub stops_when_full: bool,
    /// Whether the journal is kept in a file.
    pub is_in_file: bool,
    /// How many connections are served at once.
    pub places: usize,
}

/// What the threads share that answer requests.
pub struct HttpState<'a> {
    /// The socket of requests.
    pub socket: Option<HttpDoor<'a>>,
    /// The port of the page.
    pub port: Option<HttpDoor<'a>>,
    pub lines: &'a LogLines,
    pub options: ToldOptions,
    pub resident: ResidentMemory,
    pub census: CensusCache,
    pub requests: RequestTally,
    /// When the node began, by the runtime's clock.
    pub began: Duration,
    /// When the node was asked to stop.
    stop: Mutex<Option<Duration>>,
}

impl Drop for HttpState<'_> {
    fn drop(self) {
        let HttpState {
            socket: _socket,
            port: _port,
            lines: _lines,
            options: _options,
            resident: _resident,
            census: _census,
            requests: _requests,
            began: _began,
            stop: _stop,
        } = self;
    }
}

/// The time of the runtime's clock.
pub(crate) fn time<R: Clock>(rt: &R) -> Duration {
    rt.monotonic().unwrap_or(Duration::ZERO)
}

/// How many places a door has, if there is one.
fn place_count<R: Wait>(rt: &R, door: &Option<HttpDoor<'_>>) -> usize {
    match door {
        Some(door) => door.places.count(rt),
        None => 0,
    }
}

impl<'a> HttpState<'a> {
    /// The state of a node that begins now.
    pub fn new<R: Clock>(
        rt: &R,
        socket: Option<HttpDoor<'a>>,
        port: Option<HttpDoor<'a>>,
        lines: &'a LogLines,
        options: ToldOptions,
        resident: ResidentMemory,
    ) -> HttpState<'a> {
        HttpState {
            socket,
            port,
            lines,
            options,
            resident,
            census: CensusCache::new(),
            requests: RequestTally::new(),
            began: time(rt),
            stop: Mutex::new(None),
        }
    }

    /// How many threads answer requests.
    pub fn thread_count<R: Wait>(&self, rt: &R) -> usize {
        place_count(rt, &self.socket).saturating_add(place_count(rt, &self.port))
    }

    /// Notes that the node is asked to stop. False if it was before.
    pub fn begin_stop<R: Wait + Clock>(&self, rt: &R) -> bool {
        let mut stop = self.stop.lock(rt);
        if stop.is_some() {
            return false;
        }
        *stop = Some(time(rt));
        true
    }

    /// For how long it has been stopping; none if it wasn't asked to.
    pub fn stopping_for<R: Wait + Clock>(&self, rt: &R) -> Option<Duration> {
        let asked = (*self.stop.lock(rt))?;
        Some(time(rt).saturating_sub(asked))
    }
}
