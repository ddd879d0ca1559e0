//! Where connections come from: a port, or a socket of the file system.

use std::fmt::{Display, Formatter};
use std::net::{SocketAddr, TcpListener, TcpStream};
use std::os::fd::OwnedFd;
use std::os::unix::net::UnixListener;
use std::{fmt, io};

/// The other end of a connection.
#[derive(Clone, Copy, Debug)]
pub enum Peer {
    /// A port of a machine.
    Port(SocketAddr),
    /// A program that connected to the socket, which has no address.
    Socket,
}

impl Display for Peer {
    fn fmt<W: fmt::Write>(&self, f: &mut Formatter<W>) -> fmt::Result {
        match self {
            Peer::Port(address) => address.fmt(f),
            Peer::Socket => f.write_str("socket"),
        }
    }
}

/// What is listened on.
#[derive(Drop)]
pub enum Listener {
    /// A port.
    Port(TcpListener),
    /// A socket of the file system.
    Socket(UnixListener),
}

impl Listener {
    /// Waits for the next connection, and returns it with its other end. One to a socket is handed on by its descriptor, over which the same
    /// calls read, write, wait and shut as over one to a port.
    pub fn accept(&self) -> io::Result<(TcpStream, Peer)> {
        match self {
            Listener::Port(listener) => {
                let (stream, address) = listener.accept()?;
                Ok((stream, Peer::Port(address)))
            }
            Listener::Socket(listener) => {
                let (stream, _address) = listener.accept()?;
                Ok((TcpStream::from(OwnedFd::from(stream)), Peer::Socket))
            }
        }
    }

    /// A descriptor of its own by which it can be shut, or its waits limited: these calls are the same as for a connection.
    pub fn handle(&self) -> io::Result<TcpStream> {
        let descriptor = match self {
            Listener::Port(listener) => OwnedFd::from(listener.try_clone()?),
            Listener::Socket(listener) => OwnedFd::from(listener.try_clone()?),
        };
        Ok(TcpStream::from(descriptor))
    }
}
