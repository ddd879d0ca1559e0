//! What a node prints and logs, kept for the test that runs it.

use std::alloc::Allocator;
use std::fmt::Display;
use std::io::{BufRead, Empty, Error, ErrorKind, Lines};
use std::sync::{Mutex, Wait};
use std::time::{Clock, Duration};
use std::{io, str};

/// Before the port in the line that a node prints.
const LISTENING_AT_PORT: &str = "listening on 127.0.0.1:";

/// Before the path of a socket in such a line.
const LISTENING_AT_SOCKET: &str = "listening on /";

/// Before the port of the page in such a line.
const PAGE_AT_PORT: &str = "page at http://127.0.0.1:";

/// A console whose output and error output a test reads, while the node runs and afterwards. Its time is always the beginning of 1970.
#[derive(Drop)]
pub struct TestConsole<'a, R> {
    rt: &'a R,
    /// Whether nothing can be printed.
    is_closed: bool,
    printed: Mutex<String>,
    logged: Mutex<String>,
    /// Whether the node has ended.
    has_ended: Mutex<bool>,
}

impl<'a, R: Wait + AllocGlobal> TestConsole<'a, R> {
    /// A console on which a node begins. On a closed one nothing can be printed.
    pub fn new(rt: &'a R, is_closed: bool) -> TestConsole<'a, R> {
        TestConsole {
            rt,
            is_closed,
            printed: Mutex::new(String::new(rt.alloc())),
            logged: Mutex::new(String::new(rt.alloc())),
            has_ended: Mutex::new(false),
        }
    }

    /// The port in the line that the node printed, if it printed that.
    pub fn port(&self) -> Option<u16> {
        let printed = self.printed.lock(self.rt);
        let (port, _) = printed
            .as_str()
            .strip_prefix(LISTENING_AT_PORT)?
            .split_once('\n')?;
        port.parse::<u16>().ok()
    }

    /// The port of the page in the line that the node printed, if it printed that.
    pub fn page(&self) -> Option<u16> {
        let printed = self.printed.lock(self.rt);
        let (_, after) = printed.as_str().split_once(PAGE_AT_PORT)?;
        let (port, _) = after.split_once('/')?;
        port.parse::<u16>().ok()
    }

    /// The path of the socket in the line that the node printed, if it printed that and there is memory for it.
    pub fn socket(&self) -> Option<String> {
        let printed = self.printed.lock(self.rt);
        let (_, after) = printed.as_str().split_once(LISTENING_AT_SOCKET)?;
        let (path, _) = after.split_once('\n')?;
        format!(in self.rt.alloc(); "/{path}").ok()
    }

    /// Notes that the node has ended.
    pub fn end(&self) {
        *self.has_ended.lock(self.rt) = true;
    }

    /// Whether the node has ended.
    pub fn has_ended(&self) -> bool {
        *self.has_ended.lock(self.rt)
    }

    /// What was printed, and what was logged.
    pub fn into_texts(self) -> (String, String) {
        let TestConsole {
            printed,
            logged,
            ..
        } = self;
        (printed.into_inner(), logged.into_inner())
    }

    fn print_text(&self, text: &str) -> io::Result<()> {
        if self.is_closed {
            return Err(Error::from(ErrorKind::BrokenPipe));
        }
        self.printed.lock(self.rt).push_str(text)?;
        Ok(())
    }

    fn log_text(&self, text: &str) -> io::Result<()> {
        self.logged.lock(self.rt).push_str(text)?;
        Ok(())
    }
}

impl<R: Wait + AllocGlobal> Print for TestConsole<'_, R> {
    fn print<D: Display + Drop>(&self, value: D) -> io::Result<()> {
        self.print_text(&format!(in self.rt.alloc(); "{value}")?)
    }

    fn println<D: Display + Drop>(&self, value: D) -> io::Result<()> {
        self.print_text(&format!(in self.rt.alloc(); "{value}\n")?)
    }

    fn write_all(&self, bytes: &[u8]) -> io::Result<()> {
        match str::from_utf8(bytes) {
            Ok(text) => self.print_text(text),
            Err(_) => Err(Error::from(ErrorKind::InvalidData)),
        }
    }
}

// It has no input.
impl<R> Input for TestConsole<'_, R> {
    type Reader = Empty;

    fn read_line<A: Allocator + Clone>(&self, _buf: &mut String<A>) -> io::Result<usize> {
        Ok(0)
    }

    fn lines<A: Allocator>(&self, alloc: A) -> Lines<Empty, A> {
        io::empty().lines(alloc)
    }

    fn reader(&self) -> Empty {
        io::empty()
    }
}

impl<R: Wait + AllocGlobal> Eprint for TestConsole<'_, R> {
    fn eprint<D: Display + Drop>(&self, value: D) -> io::Result<()> {
        self.log_text(&format!(in self.rt.alloc(); "{value}")?)
    }

    fn eprintln<D: Display + Drop>(&self, value: D) -> io::Result<()> {
        self.log_text(&format!(in self.rt.alloc(); "{value}\n")?)
    }
}

impl<R> Clock for TestConsole<'_, R> {
    fn monotonic(&self) -> io::Result<Duration> {
        Ok(Duration::ZERO)
    }

    fn since_1970(&self) -> io::Result<Duration> {
        Ok(Duration::ZERO)
    }
}
