//! A connection that is served.

use crate::open_sockets::OpenSockets;
use std::io;
use std::io::{Read, Write};
use std::net::{OpenStream, TcpStream};
use std::sync::Arc;
use std::time::Duration;

/// A connection, over the descriptor that it shares with the sockets that may be shut. From then on its input is at its end, and what is
/// written still goes.
#[derive(Drop)]
pub struct ServedStream<'a> {
    stream: Arc<TcpStream>,
    sockets: &'a OpenSockets,
}

impl<'a> ServedStream<'a> {
    /// A connection beside the sockets that it is one of.
    pub fn new(stream: Arc<TcpStream>, sockets: &'a OpenSockets) -> ServedStream<'a> {
        ServedStream { stream, sockets }
    }
}

impl OpenStream for ServedStream<'_> {
    fn set_read_timeout(&self, limit: Option<Duration>) -> io::Result<()> {
        self.stream.set_read_timeout(limit)
    }

    fn set_write_timeout(&self, limit: Option<Duration>) -> io::Result<()> {
        self.stream.set_write_timeout(limit)
    }
}

impl Read for ServedStream<'_> {
    // What has come already could still be read once the sockets are shut.
    fn read(&mut self, buffer: &mut [u8]) -> io::Result<usize> {
        if self.sockets.are_shut() {
            return Ok(0);
        }
        let mut stream = &*self.stream;
        stream.read(buffer)
    }
}

impl Write for ServedStream<'_> {
    fn write(&mut self, bytes: &[u8]) -> io::Result<usize> {
        let mut stream = &*self.stream;
        stream.write(bytes)
    }

    fn flush(&mut self) -> io::Result<()> {
        Ok(())
    }
}
