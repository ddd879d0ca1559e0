//! A client of a node that serves a port: what it does with its connections, step by step.

use crate::console::TestConsole;
use crate::responses::{is_exact, is_response};
use beam_page::PAGE;
use hex;
use node_testing::frames::frames;
use node_testing::test_deadline::TestDeadline;
use std::alloc::Global;
use std::fs::File;
use std::io::{ErrorKind, Read, Write};
use std::net::{Net, Shutdown, TcpStream};
use std::os::fd::OwnedFd;
use std::os::unix::net::UnixStream;
use std::sync::Wait;
use std::time::{Clock, Duration};

/// For how many seconds a call of a connection waits: a little less than the 60 seconds after which `rt` ends a test.
const SECONDS: u64 = 50;

/// How many connections a client that gives up makes, so that the node ends after its last one: more than any row asks for.
const LAST_CONNECTIONS: u32 = 8;

/// What a client does, or what it wants to come. Connections have numbers, from 0 on, in the order in which they are made. Frames are in
/// words.
#[derive(Clone, Copy)]
pub enum Step {
    /// Makes the next connection, to the port.
    Connect,
    /// Makes the next connection, to the socket.
    ConnectToSocket,
    /// The status and the body of the response to this request, over the socket of requests.
    Ask(&'static str, &'static str),
    /// Those of the response to this request, in which `PORT` stands for the number of the page's port, over that.
    AskPage(&'static str, &'static str),
    /// The page itself.
    SeePage,
    /// Makes the next connection, to the page's port.
    ConnectToPage,
    /// Sends these frames.
    Send(usize, &'static str),
    /// The next bytes are these frames.
    Receive(usize, &'static str),
    /// The command is sent again and again until its reply is this.
    Poll(usize, &'static str, &'static str),
    /// Sends nothing more.
    Finish(usize),
    /// No more bytes come: the node has closed the connection.
    End(usize),
    /// So many threads run, the client's among them.
    Threads(u32),
}

/// A client of the node on a console.
#[derive(Drop)]
pub struct NodeClient<'a, R> {
    rt: &'a R,
    console: &'a TestConsole<'a, R>,
    deadline: TestDeadline,
    /// The file in which the operating system tells how many threads run.
    process_status: File,
    streams: Vec<TcpStream>,
    /// The bytes that came last.
    came: Vec<u8>,
}

/// The next `count` bytes of a connection, or the bytes up to its end, or up to the end of the time.
fn next_bytes(alloc: Global, stream: &TcpStream, count: usize) -> Vec<u8> {
    let mut bytes = Vec::new(alloc);
    let mut part = stream.take(count as u64);
    let _ = part.read_to_end(&mut bytes);
    bytes
}

/// The next frame of a connection.
fn next_frame(alloc: Global, stream: &TcpStream) -> Vec<u8> {
    let mut frame = next_bytes(alloc, stream, 4);
    if let [a, b, c, d] = frame.as_slice() {
        let length = u32::from_be_bytes([*a, *b, *c, *d]);
        let _ = frame.append(&mut next_bytes(alloc, stream, length as usize));
    }
    frame
}

/// A request for the page.
const SEE_PAGE: &str = "GET / HTTP/1.1\r\nHost: localhost:PORT\r\n\r\n";

/// A request that stops a node.
const STOP: &str = "POST /stop HTTP/1.1\r\nX-Kanguriwe: 1\r\n\r\n";

/// Sets how long calls of a connection wait.
fn limited(stream: TcpStream) -> Result<TcpStream, &'static str> {
    let wait = Some(Duration::from_secs(SECONDS));
    if stream.set_read_timeout(wait).is_err() || stream.set_write_timeout(wait).is_err() {
        return Err("no time limit");
    }
    Ok(stream)
}

/// Whether no more bytes come.
fn is_at_end(stream: &TcpStream) -> bool {
    let mut stream = stream;
    let mut byte = [0; 1];
    match stream.read(&mut byte) {
        Ok(count) => count == 0,
        Err(error) => error.kind() == ErrorKind::ConnectionReset,
    }
}

impl<'a, R: Net<Stream = TcpStream> + Wait + Clock + AllocGlobal> NodeClient<'a, R> {
    /// A client without a connection. The file tells how many threads run.
    pub fn new(
        rt: &'a R,
        console: &'a TestConsole<'a, R>,
        process_status: File,
    ) -> NodeClient<'a, R> {
        NodeClient {
            rt,
            console,
            deadline: TestDeadline::new(rt),
            process_status,
            streams: Vec::new(rt.alloc()),
            came: Vec::new(rt.alloc()),
        }
    }

    /// Waits until the node has printed where it listens. `None` if it ended before, or didn't in time.
    fn wait_for_port(&self) -> Option<u16> {
        for _ in 0..u32::MAX {
            if let Some(port) = self.console.port() {
                return Some(port);
            }
            if self.console.has_ended() || !self.deadline.lasts(self.rt) {
                break;
            }
        }
        None
    }

    fn connect(&mut self) -> Result<(), &'static str> {
        let Some(port) = self.wait_for_port() else {
            return Err("it doesn't listen");
        };
        let Ok(stream) = TcpStream::connect(self.rt, ("127.0.0.1", port)) else {
            return Err("no connection");
        };
        let stream = limited(stream)?;
        let _ = stream.set_nodelay(true);
        self.keep(stream)
    }

    fn keep(&mut self, stream: TcpStream) -> Result<(), &'static str> {
        match self.streams.push(stream) {
            Ok(()) => Ok(()),
            Err(_) => Err("no memory"),
        }
    }

    /// Waits until the node has printed the path of its socket. `None` if it ended before, or didn't in time.
    fn wait_for_socket(&self) -> Option<String> {
        for _ in 0..u32::MAX {
            if let Some(path) = self.console.socket() {
                return Some(path);
            }
            if self.console.has_ended() || !self.deadline.lasts(self.rt) {
                break;
            }
        }
        None
    }

    /// A connection to the node's socket, or to the one of requests, whose path ends so.
    fn to_socket(&self, end: &str) -> Result<TcpStream, &'static str> {
        let Some(path) = self.wait_for_socket() else {
            return Err("it doesn't listen");
        };
        let Ok(path) = format!(in self.rt.alloc(); "{path}{end}") else {
            return Err("no memory");
        };
        match UnixStream::connect(self.rt, path.as_str()) {
            Ok(stream) => limited(TcpStream::from(OwnedFd::from(stream))),
            Err(_) => Err("no connection"),
        }
    }

    fn connect_to_socket(&mut self) -> Result<(), &'static str> {
        let stream = self.to_socket("")?;
        self.keep(stream)
    }

    fn ask(&mut self, request: &str, response: &str) -> Result<(), &'static str> {
        let stream = self.to_socket(".http")?;
        self.exchange(stream, request, 0)?;
        self.has_response(response)
    }

    /// Waits until the node has printed where its page is. `None` if it ended before, or didn't in time.
    fn wait_for_page(&self) -> Option<u16> {
        for _ in 0..u32::MAX {
            if let Some(port) = self.console.page() {
                return Some(port);
            }
            if self.console.has_ended() || !self.deadline.lasts(self.rt) {
                break;
            }
        }
        None
    }

    /// A connection to the page's port, and its number.
    fn to_page(&self) -> Result<(TcpStream, u16), &'static str> {
        let Some(port) = self.wait_for_page() else {
            return Err("it has no page");
        };
        match TcpStream::connect(self.rt, ("127.0.0.1", port)) {
            Ok(stream) => Ok((limited(stream)?, port)),
            Err(_) => Err("no connection"),
        }
    }

    fn connect_to_page(&mut self) -> Result<(), &'static str> {
        let (stream, _port) = self.to_page()?;
        self.keep(stream)
    }

    fn see_page(&mut self) -> Result<(), &'static str> {
        let (stream, port) = self.to_page()?;
        self.exchange(stream, SEE_PAGE, port)?;
        if is_exact(&self.came, "200 OK", PAGE) {
            Ok(())
        } else {
            Err("another page")
        }
    }

    fn ask_page(&mut self, request: &str, response: &str) -> Result<(), &'static str> {
        let (stream, port) = self.to_page()?;
        self.exchange(stream, request, port)?;
        self.has_response(response)
    }

    /// Sends a request, in which `PORT` stands for a number, and keeps all that comes then.
    fn exchange(
        &mut self,
        stream: TcpStream,
        request: &str,
        port: u16,
    ) -> Result<(), &'static str> {
        let alloc = self.rt.alloc();
        let own = match request.split_once("PORT") {
            Some((before, after)) => format!(in alloc; "{before}{port}{after}"),
            None => format!(in alloc; "{request}"),
        };
        let mut stream = stream;
        match own {
            Ok(own) if stream.write_all(own.as_bytes()).is_ok() => {}
            _ => return Err("not sent"),
        }
        let mut came = Vec::new(alloc);
        let is_whole = stream.read_to_end(&mut came).is_ok();
        self.came = came;
        if is_whole {
            Ok(())
        } else {
            Err("no whole response")
        }
    }

    /// Whether what came is the wanted response.
    fn has_response(&self, response: &str) -> Result<(), &'static str> {
        if is_response(&self.came, response) {
            Ok(())
        } else {
            Err("another response")
        }
    }

    fn send(&self, number: usize, text: &'static str) -> Result<(), &'static str> {
        let (Some(bytes), Some(stream)) = (frames(self.rt.alloc(), text), self.streams.get(number))
        else {
            return Err("no frames, or no connection");
        };
        let mut stream = stream;
        match stream.write_all(&bytes) {
            Ok(()) => Ok(()),
            Err(_) => Err("not sent"),
        }
    }

    fn receive(&mut self, number: usize, text: &'static str) -> Result<(), &'static str> {
        let (Some(wanted), Some(stream)) = (frames(self.rt.alloc(), text), self.streams.get(number))
        else {
            return Err("no frames, or no connection");
        };
        let came = next_bytes(self.rt.alloc(), stream, wanted.len());
        let is_wanted = came == wanted;
        self.came = came;
        if is_wanted {
            Ok(())
        } else {
            Err("other bytes")
        }
    }

    /// Whether the reply to a command is the wanted one.
    fn asks(
        &mut self,
        number: usize,
        command: &'static str,
        wanted: &[u8],
    ) -> Result<bool, &'static str> {
        self.send(number, command)?;
        let Some(stream) = self.streams.get(number) else {
            return Err("no connection");
        };
        self.came = next_frame(self.rt.alloc(), stream);
        Ok(self.came.as_slice() == wanted)
    }

    fn poll(
        &mut self,
        number: usize,
        command: &'static str,
        reply: &'static str,
    ) -> Result<(), &'static str> {
        let Some(wanted) = frames(self.rt.alloc(), reply) else {
            return Err("no frames");
        };
        for _ in 0..u32::MAX {
            if self.asks(number, command, &wanted)? {
                return Ok(());
            }
            if !self.deadline.lasts(self.rt) {
                break;
            }
        }
        Err("not in time")
    }

    fn finish(&self, number: usize) -> Result<(), &'static str> {
        match self.streams.get(number) {
            Some(stream) if stream.shutdown(Shutdown::Write).is_ok() => Ok(()),
            _ => Err("not finished"),
        }
    }

    fn end(&self, number: usize) -> Result<(), &'static str> {
        match self.streams.get(number) {
            Some(stream) if is_at_end(stream) => Ok(()),
            _ => Err("it doesn't end"),
        }
    }

    fn has_threads(&mut self, count: u32) -> Result<(), &'static str> {
        let mut status = String::new(self.rt.alloc());
        if self.process_status.read_to_string(&mut status).is_err() {
            return Err("the threads can't be counted");
        }
        let Some((_, threads)) = status.as_str().split_once("Threads:") else {
            return Err("no count of threads");
        };
        let Some((threads, _)) = threads.split_once('\n') else {
            return Err("no count of threads");
        };
        if threads.trim().parse::<u32>() == Ok(count) {
            Ok(())
        } else {
            Err("another count of threads")
        }
    }

    fn step(&mut self, step: Step) -> Result<(), &'static str> {
        match step {
            Step::Connect => self.connect(),
            Step::ConnectToSocket => self.connect_to_socket(),
            Step::Ask(request, response) => self.ask(request, response),
            Step::AskPage(request, response) => self.ask_page(request, response),
            Step::SeePage => self.see_page(),
            Step::ConnectToPage => self.connect_to_page(),
            Step::Send(number, text) => self.send(number, text),
            Step::Receive(number, text) => self.receive(number, text),
            Step::Poll(number, command, reply) => self.poll(number, command, reply),
            Step::Finish(number) => self.finish(number),
            Step::End(number) => self.end(number),
            Step::Threads(count) => self.has_threads(count),
        }
    }

    /// Closes its connections, and makes others or asks the node to stop, so that a node that waits for them ends.
    fn give_up(&mut self) {
        self.streams.clear();
        if self.console.socket().is_some() {
            let _ = self.ask(STOP, "");
        }
        let Some(port) = self.console.port() else {
            return;
        };
        for _ in 0..LAST_CONNECTIONS {
            let _ = TcpStream::connect(self.rt, ("127.0.0.1", port));
        }
    }

    /// Takes the steps, up to one that can't be taken, or where something else comes. Returns a line about that one, or nothing.
    pub fn run(self, steps: &[Step]) -> String {
        let mut client = self;
        for (number, step) in steps.iter().enumerate() {
            if let Err(why) = client.step(*step) {
                client.give_up();
                return client.miss(number, why);
            }
        }
        String::new(client.rt.alloc())
    }

    /// A line about a step that wasn't taken.
    fn miss(&self, number: usize, why: &'static str) -> String {
        let alloc = self.rt.alloc();
        let Ok(came) = hex::encode_upper(alloc, &self.came) else {
            return String::new(alloc);
        };
        match format!(in alloc; "step {number}: {why}; last came {came}\n") {
            Ok(line) => line,
            Err(_) => String::new(alloc),
        }
    }
}
