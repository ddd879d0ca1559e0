//! The doors at which requests are answered.
ghost use Rattle.std.specs.Prelude.{IfErr};
ghost use Rattle.beam_tools.specs.Job.{IsOfPort};

use crate::http_places::HttpPlaces;
use crate::http_state::{HttpDoor, HttpState, ToldOptions};
use crate::listening::{Listening, place_count};
use crate::resident::ResidentMemory;
use crate::token_file::write_token;
use beam_http::{Door, PortAccess};
use beam_log::LogLines;
use beam_tools::job::JobFault;
use beam_tools::line::Serve;
use std::alloc::Global;
use std::fs::File;
use std::rt;
use std::time::Clock;

/// How many threads answer requests to the port.
const PORT_THREADS: usize = 4;

/// How many do where more than 4 connections to the node's port are served at once.
const MORE_PORT_THREADS: usize = 8;

/// The token that is asked for at the port of the page, if the line names a file for one, to which it is written.
fn token_of<'l, R: rt::Files<File = File>>(
    rt: &R,
    alloc: Global,
    line: &Serve<'l>,
) -> Result<Option<Vec<u8>>, JobFault<'l>>
    ensures fault { IfErr result (IsOfPort line.now.port) }
{
    let Some(options) = line.http else {
        return Ok(None);
    };
    let Some(name) = options.token else {
        return Ok(None);
    };
    match write_token(rt, alloc, name) {
        Ok(token) => Ok(Some(token)),
        Err(_) => Err(JobFault::Token(name)),
    }
}

/// The door of the socket of requests, if there is one: one thread answers there.
fn socket_door<'a, 'l>(
    alloc: Global,
    listening: &'a Listening,
    line: &Serve<'l>,
) -> Result<Option<HttpDoor<'a>>, JobFault<'l>>
    ensures fault { IfErr result (IsOfPort line.now.port) }
{
    let _line = line;
    let Some(listener) = &listening.http else {
        return Ok(None);
    };
    let Ok(places) = HttpPlaces::new(alloc, 1) else {
        return Err(JobFault::NoMemory);
    };
    Ok(Some(HttpDoor {
        listener,
        door: Door::Socket,
        places,
    }))
}

/// The door of the page's port, if there is one.
fn port_door<'a, 'l, R: rt::Files<File = File>>(
    rt: &R,
    alloc: Global,
    listening: &'a Listening,
    line: &Serve<'l>,
) -> Result<Option<HttpDoor<'a>>, JobFault<'l>>
    ensures fault { IfErr result (IsOfPort line.now.port) }
{
    let Some((listener, address)) = &listening.page else {
        return Ok(None);
    };
    let token = token_of(rt, alloc, line)?;
    let count = if line.clients > 4 {
        MORE_PORT_THREADS
    } else {
        PORT_THREADS
    };
    let (Ok(access), Ok(places)) = (
        PortAccess::new(alloc, address.port(), token),
        HttpPlaces::new(alloc, count),
    ) else {
        return Err(JobFault::NoMemory);
    };
    Ok(Some(HttpDoor {
        listener,
        door: Door::Port(access),
        places,
    }))
}

/// What the threads share that answer requests, for a node that begins now. The token of the page is written to its file. `Token` where that
/// can't be done, and `NoMemory`.
pub fn http_state<'a, 'l, R: rt::Files<File = File> + Clock>(
    rt: &R,
    alloc: Global,
    listening: &'a Listening,
    lines: &'a LogLines,
    line: &Serve<'l>,
) -> Result<HttpState<'a>, JobFault<'l>>
    ensures fault { IfErr result (IsOfPort line.now.port) }
{
    let socket = socket_door(alloc, listening, line)?;
    let port = port_door(rt, alloc, listening, line)?;
    let options = ToldOptions {
        stops_when_full: line.stop_when_full,
        is_in_file: line.journal.is_some(),
        places: place_count(line),
    };
    let resident = if socket.is_some() || port.is_some() {
        ResidentMemory::new(rt)
    } else {
        ResidentMemory::none()
    };
    Ok(HttpState::new(rt, socket, port, lines, options, resident))
}
