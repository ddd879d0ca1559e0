//! What a node listens on: a port, a socket, and the socket of requests beside it.
ghost use Rattle.std.specs.Prelude.{◌≤◌, IfErr};
ghost use Rattle.beam_tools.specs.Job.{IsOfPort};

use crate::endpoint::{Listeners, ServedListener};
use crate::socket_file::{SocketFile, listen_at};
use beam_sockets::Listener;
use beam_tools::job::JobFault;
use beam_tools::line::{Serve, SocketOptions};
use beam_tools::os_error::OsError;
use beam_tools::socket_fault::{SocketFault, SocketFaultKind};
use std::alloc::Global;
use std::fs::File;
use std::io::{Error, ErrorKind};
use std::net::{Net, SocketAddr, TcpListener, TcpStream};
use std::os::unix::net::UnixListener;
use std::rt;

/// What a node listens on, and the files of its sockets.
#[derive(Drop)]
pub struct Listening {
    pub listeners: Listeners,
    /// The socket of requests.
    pub http: Option<Listener>,
    /// The port of the page, and its address.
    pub page: Option<(Listener, SocketAddr)>,
    /// The port's address.
    pub address: Option<SocketAddr>,
    files: [Option<SocketFile>; 2],
}

fn places_of(clients: u8) -> usize
    ensures few { result ≤ 255 }
{
    usize::from(clients)
}

/// How many connections to the port are served at once.
pub fn port_places(line: &Serve<'_>) -> usize
    ensures few { result ≤ 255 }
{
    match line.port {
        Some(_) => places_of(line.clients),
        None => 0,
    }
}

/// How many connections to the socket are served at once.
fn socket_places(line: &Serve<'_>) -> usize
    ensures few { result ≤ 255 }
{
    match line.socket {
        Some(socket) => places_of(socket.clients),
        None => 0,
    }
}

/// How many connections are served at once, to the port and to the socket.
pub fn place_count(line: &Serve<'_>) -> usize
    ensures few { result ≤ 510 }
{
    port_places(line) + socket_places(line)
}

/// A fault of the line's socket.
pub fn socket_fault<'l>(line: &Serve<'l>, why: SocketFaultKind) -> JobFault<'l>
    ensures { IsOfPort line.now.port result }
{
    let path = match line.socket {
        Some(socket) => socket.path,
        None => "",
    };
    JobFault::Socket(SocketFault { path, why })
}

/// The fault of listening at the line's port, or of accepting there.
pub fn port_fault<'l>(
    line: &Serve<'l>,
    address: Option<SocketAddr>,
    os_error: OsError,
) -> JobFault<'l>
    ensures { IsOfPort line.now.port result }
{
    match (line.port, address) {
        (Some(0), Some(address)) => JobFault::Net(address.port(), os_error),
        (Some(port), _) => JobFault::Net(port, os_error),
        // Without a port nothing fails there.
        (None, _) => socket_fault(line, SocketFaultKind::Failed(os_error)),
    }
}

/// Listens on the port of the line, if it has one.
fn listen_at_port<'l, R: Net<Listener = TcpListener, Stream = TcpStream>>(
    rt: &R,
    line: &Serve<'l>,
) -> Result<Option<(TcpListener, SocketAddr)>, JobFault<'l>>
    ensures fault { IfErr result (IsOfPort line.now.port) }
{
    let Some(port) = line.port else {
        return Ok(None);
    };
    let listener = match TcpListener::bind(rt, ("127.0.0.1", port)) {
        Ok(listener) => listener,
        Err(error) => return Err(port_fault(line, None, OsError::of(&error))),
    };
    match listener.local_addr() {
        Ok(address) => Ok(Some((listener, address))),
        Err(error) => Err(port_fault(line, None, OsError::of(&error))),
    }
}

/// Listens on a socket, and on the one of requests, whose path ends in `.http`. If one of them can't be had there is none.
fn listen_at_sockets<R: Net<Listener = TcpListener, Stream = TcpStream> + rt::Files<File = File>>(
    rt: &R,
    alloc: Global,
    socket: SocketOptions<'_>,
) -> Result<[(UnixListener, SocketFile); 2], SocketFaultKind> {
    let SocketOptions { path, mode, .. } = socket;
    let (Ok(folder), Ok(own), Ok(http)) = (
        format!(in alloc; "{path}.d"),
        format!(in alloc; "{path}"),
        format!(in alloc; "{path}.http"),
    ) else {
        let error = Error::from(ErrorKind::OutOfMemory);
        return Err(SocketFaultKind::Failed(OsError::of(&error)));
    };
    let (listener, file) = listen_at(rt, alloc, folder.as_str(), own, mode)?;
    match listen_at(rt, alloc, folder.as_str(), http, mode) {
        Ok(http) => Ok([(listener, file), http]),
        Err(why) => {
            file.remove(rt);
            Err(why)
        }
    }
}

/// Listens on the port of the line's page, if it has one.
fn listen_for_page<'l, R: Net<Listener = TcpListener, Stream = TcpStream>>(
    rt: &R,
    line: &Serve<'l>,
) -> Result<Option<(Listener, SocketAddr)>, JobFault<'l>>
    ensures fault { IfErr result (IsOfPort line.now.port) }
{
    let Some(options) = line.http else {
        return Ok(None);
    };
    let listener = match TcpListener::bind(rt, ("127.0.0.1", options.port)) {
        Ok(listener) => listener,
        Err(error) => return Err(JobFault::Http(options.port, OsError::of(&error))),
    };
    match listener.local_addr() {
        Ok(address) => Ok(Some((Listener::Port(listener), address))),
        Err(error) => Err(JobFault::Http(options.port, OsError::of(&error))),
    }
}

/// Listens on the port and on the socket of the line, on the one of requests beside that, and on the port of the page. A fault leaves no file
/// of a socket.
pub fn listen<'l, R: Net<Listener = TcpListener, Stream = TcpStream> + rt::Files<File = File>>(
    rt: &R,
    alloc: Global,
    line: &Serve<'l>,
) -> Result<Listening, JobFault<'l>>
    ensures fault { IfErr result (IsOfPort line.now.port) }
{
    let places = port_places(line);
    let (port, address) = match listen_at_port(rt, line)? {
        Some((listener, address)) => (
            Some(ServedListener::new(Listener::Port(listener), 0..places)),
            Some(address),
        ),
        None => (None, None),
    };
    let page = listen_for_page(rt, line)?;
    let Some(options) = line.socket else {
        return Ok(Listening {
            listeners: Listeners { port, socket: None },
            http: None,
            page,
            address,
            files: [None, None],
        });
    };
    let [(listener, file), (http, http_file)] = match listen_at_sockets(rt, alloc, options) {
        Ok(sockets) => sockets,
        Err(why) => return Err(socket_fault(line, why)),
    };
    let socket = ServedListener::new(Listener::Socket(listener), places..place_count(line));
    Ok(Listening {
        listeners: Listeners {
            port,
            socket: Some(socket),
        },
        http: Some(Listener::Socket(http)),
        page,
        address,
        files: [Some(file), Some(http_file)],
    })
}

impl Listening {
    /// The address of the page.
    pub fn page_address(&self) -> Option<SocketAddr> {
        match &self.page {
            Some((_listener, address)) => Some(*address),
            None => None,
        }
    }

    /// Removes the files of its sockets.
    pub fn remove_files<R: rt::Files<File = File>>(&self, rt: &R) {
        for file in self.files.iter().flatten() {
            file.remove(rt);
        }
    }
}
