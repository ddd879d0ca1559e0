//! Runs of `beamnode serve`, from the words of its command line to its status, with clients over real sockets.

use crate::console::TestConsole;
use crate::node_client::{NodeClient, Step};
use crate::serving_rows::NodeRow;
use beam_log::{LogLines, write_lines};
use beam_replay::replay;
use beam_serve::serve;
use beam_tools::files::FileSystem;
use beam_tools::job::{Job, job_status};
use beam_tools::node::node_run;
use std::alloc::{AllocError, Global};
use std::fs::File;
use std::net::{Net, TcpListener, TcpStream};
use std::sync::Wait;
use std::test::Fail;
use std::thread::{JoinHandle, Scope, Threads};
use std::time::Clock;
use std::{rt, thread};

/// Before each line of the log: the beginning of 1970.
const TIME: &str = "1970-01-01T00:00:00.000Z ";

/// The file in which the operating system tells how many threads run.
const PROCESS_STATUS: &str = "/proc/self/status";

/// A word of a command line, which is put into the folder if it is the name of a file.
fn word_in(alloc: Global, folder: &str, word: &str) -> Result<String, AllocError> {
    let ends = [".beam", ".journal", ".socket", ".token"];
    if ends.iter().any(|end| word.ends_with(*end)) {
        format!(in alloc; "{folder}/{word}")
    } else {
        format!(in alloc; "{word}")
    }
}

/// The words of a command line, with the files of a folder.
fn words_of(alloc: Global, folder: &str, line: &str) -> Result<Vec<String>, AllocError> {
    let mut words = Vec::new(alloc);
    for word in line.split_whitespace() {
        words.push(word_in(alloc, folder, word)?)?;
    }
    Ok(words)
}

fn texts(alloc: Global, words: &[String]) -> Result<Vec<&str>, AllocError> {
    let mut texts = Vec::new(alloc);
    for word in words {
        texts.push(word.as_str())?;
    }
    Ok(texts)
}

/// Does what the words ask for, with a service on the console. Returns the status, and what was written on the errors beside the log.
fn run_node<
    R: Net<Listener = TcpListener, Stream = TcpStream>
        + Threads
        + Wait
        + Clock
        + rt::Files<File = File>
        + AllocGlobal
        + Sync,
>(rt: &R, words: &[&str], console: &TestConsole<'_, R>, lines: &LogLines) -> (u8, Vec<u8>) {
    let mut output = Vec::new(rt.alloc());
    let mut errors = Vec::new(rt.alloc());
    let job = node_run(
        rt.alloc(),
        words,
        &mut FileSystem(rt),
        &mut output,
        &mut errors,
    );
    let status = match job {
        Job::Serve(line) => job_status(words, serve(rt, console, None, lines, &line), &mut errors),
        Job::Replay(line) => job_status(words, replay(rt, console, None, &line), &mut errors),
        Job::Done(status) => status,
        Job::Pipe => 0,
    };
    lines.close(rt, Vec::new(rt.alloc()));
    console.end();
    (status, errors)
}

/// A line of the log without its time and the port of a client.
fn log_line(alloc: Global, line: &str) -> Result<String, AllocError> {
    let line = line.strip_prefix(TIME).unwrap_or(line);
    let Some((before, after)) = line.split_once("127.0.0.1:") else {
        return format!(in alloc; "{line}\n");
    };
    match after.split_once(':') {
        Some((_, after)) => format!(in alloc; "{before}client:{after}\n"),
        None => format!(in alloc; "{line}\n"),
    }
}

/// The lines of the log, without their time and the ports of clients.
fn log_text(alloc: Global, log: &str) -> Result<String, AllocError> {
    let mut text = String::new(alloc);
    for line in log.lines() {
        text.push_str(&log_line(alloc, line)?)?;
    }
    Ok(text)
}

/// What was printed, with `has a page` in the place of the line about that.
fn without_page(alloc: Global, page: Option<u16>, printed: &str) -> Result<String, AllocError> {
    let Some(page) = page else {
        return format!(in alloc; "{printed}");
    };
    let wanted = format!(in alloc; "page at http://127.0.0.1:{page}/\n")?;
    match printed.split_once(wanted.as_str()) {
        Some((before, after)) => format!(in alloc; "{before}has a page\n{after}"),
        None => format!(in alloc; "{printed}"),
    }
}

/// What was printed, with `listens` in the place of the line about the port.
fn printed_text(alloc: Global, port: Option<u16>, printed: &str) -> Result<String, AllocError> {
    let Some(port) = port else {
        return format!(in alloc; "{printed}");
    };
    let wanted = format!(in alloc; "listening on 127.0.0.1:{port}\n")?;
    match printed.strip_prefix(wanted.as_str()) {
        Some(rest) => format!(in alloc; "listens\n{rest}"),
        None => format!(in alloc; "{printed}"),
    }
}

/// Runs a client on a thread of its own.
fn start_client<
    's,
    E,
    R: Net<Listener = TcpListener, Stream = TcpStream> + Wait + Clock + AllocGlobal + Sync + 's,
>(
    scope: &Scope<'s, E>,
    rt: &'s R,
    steps: &'static [Step],
    console: &'s TestConsole<'s, R>,
    process_status: File,
) -> Option<JoinHandle<String>> {
    scope
        .spawn(move || NodeClient::new(rt, console, process_status).run(steps))
        .ok()
}

/// Runs the thread that writes the lines of a log. Tells whether it could be made.
fn start_writer<'s, E, R: Wait + Clock + AllocGlobal + Sync + 's>(
    scope: &Scope<'s, E>,
    rt: &'s R,
    console: &'s TestConsole<'s, R>,
    lines: &'s LogLines,
) -> bool {
    scope.spawn(move || write_lines(rt, console, lines)).is_ok()
}

/// Runs a node, the thread that writes its log, and a client. Returns a line about the client's step that wasn't taken, if any, the status,
/// and the errors. The file tells how many threads run.
fn run<
    R: Net<Listener = TcpListener, Stream = TcpStream>
        + Threads
        + Wait
        + Clock
        + rt::Files<File = File>
        + AllocGlobal
        + Sync,
>(
    rt: &R,
    words: &[&str],
    steps: &'static [Step],
    console: &TestConsole<'_, R>,
    lines: &LogLines,
    process_status: File,
) -> Result<(String, (u8, Vec<u8>)), AllocError> {
    thread::scope(thread::scope_env(), rt, |scope| {
        if !start_writer(scope, rt, console, lines) {
            return Err(AllocError);
        }
        let client = start_client(scope, rt, steps, console, process_status);
        let ended = run_node(rt, words, console, lines);
        let miss = match client {
            Some(client) => client.join(rt),
            None => format!(in rt.alloc(); "no thread for the client\n")?,
        };
        Ok((miss, ended))
    })
}

/// What came of a run: a line about the client's step that wasn't taken, if any, what was printed, the log, the errors, and the status.
pub fn outcome<
    R: Net<Listener = TcpListener, Stream = TcpStream>
        + Threads
        + Wait
        + Clock
        + rt::Files<File = File>
        + AllocGlobal
        + Sync,
>(rt: &R, words: &[&str], steps: &'static [Step], is_closed: bool) -> Result<String, Fail> {
    let alloc = rt.alloc();
    let console = TestConsole::new(rt, is_closed);
    let lines = LogLines::new(alloc)?;
    let process_status = File::open(rt, PROCESS_STATUS)?;
    let (miss, (status, errors)) = run(rt, words, steps, &console, &lines, process_status)?;
    let (port, page) = (console.port(), console.page());
    let (printed, logged) = console.into_texts();
    let printed = without_page(alloc, page, &printed)?;
    let printed = printed_text(alloc, port, printed.as_str())?;
    let logged = log_text(alloc, &logged)?;
    let errors = String::from_utf8(errors)?;
    Ok(format!(in alloc; "{miss}{printed}{logged}{errors}status {status}\n")?)
}

/// A text without the name of a folder before that of a file.
fn without_folder(alloc: Global, folder: &str, text: &str) -> Result<String, AllocError> {
    let folder = format!(in alloc; "{folder}/")?;
    match text.split_once(folder.as_str()) {
        Some((before, after)) => format!(in alloc; "{before}{after}"),
        None => format!(in alloc; "{text}"),
    }
}

/// The first row whose outcome isn't the wanted one, with that; nothing where there is none. The files are those of a folder, which is left
/// out of the outcome.
pub fn first_miss<
    R: Net<Listener = TcpListener, Stream = TcpStream>
        + Threads
        + Wait
        + Clock
        + rt::Files<File = File>
        + AllocGlobal
        + Sync,
>(rt: &R, folder: &str, rows: &'static [NodeRow]) -> Result<String, Fail> {
    let alloc = rt.alloc();
    for row in rows {
        let words = words_of(alloc, folder, row.words)?;
        let found = outcome(rt, &texts(alloc, &words)?, row.steps, row.is_closed)?;
        let found = without_folder(alloc, folder, &found)?;
        if found.as_str() != row.wanted {
            return Ok(format!(in alloc; "{}:\n{found}", row.title)?);
        }
    }
    Ok(String::new(alloc))
}
