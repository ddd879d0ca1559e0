//! Runs of the programs by their words.

use crate::error::TestRowError;
use crate::memory::OverlayFiles;
use beam_core::node::Core;
use beam_desk::pipe;
use beam_remote::memory::Memory;
use beam_tools::assembler::as_run;
use beam_tools::dis::dis_run;
use beam_tools::files::Files;
use beam_tools::job::{Job, JobFault, job_status, start_event};
use beam_tools::journal_fault::{JournalFault, JournalFaultKind};
use beam_tools::line::{Replay, ReplayGoal, Serve};
use beam_tools::load::load_files;
use beam_tools::node::node_run;
use beam_tools::os_error::OsError;
use beam_tools::socket_fault::{SocketFault, SocketFaultKind};
use std::alloc::{AllocError, Global};
use std::io::ErrorKind;

/// The outcome of a run: its status, and the bytes on its output and its errors.
#[derive(PartialEq, Eq)]
pub struct RunOutput {
    pub status: u8,
    pub output: Vec<u8>,
    pub errors: Vec<u8>,
}

impl Drop for RunOutput {
    fn drop(self) {
        let RunOutput {
            status: _status,
            output: _output,
            errors: _errors,
        } = self;
    }
}

/// The words of a line, which blanks separate. A word with blanks in it is between two backquotes.
pub fn words_of(alloc: Global, text: &str) -> Result<Vec<&str>, AllocError> {
    let mut words = Vec::new(alloc);
    for (index, piece) in text.split('`').enumerate() {
        if index % 2 == 1 {
            words.push(piece)?;
        } else {
            push_words(piece, &mut words)?;
        }
    }
    Ok(words)
}

fn push_words<'a>(text: &'a str, words: &mut Vec<&'a str>) -> Result<(), AllocError> {
    for word in text.split_whitespace() {
        words.push(word)?;
    }
    Ok(())
}

// Holds the session of `beamnode pipe` over the device.
fn piped<'a>(alloc: Global, device: &mut Memory) -> Result<(), JobFault<'a>> {
    match pipe(alloc, device) {
        Ok(_) => Ok(()),
        Err(error) => Err(JobFault::Pipe(error.why, None)),
    }
}

// Begins a service with its journal, its files and its process, where no journal's file can be written, and each port and socket is in use.
fn unserved<'a, F: Files>(
    alloc: Global,
    line: &Serve<'a>,
    desk: &mut OverlayFiles<'_, F>,
) -> Result<(), JobFault<'a>> {
    if let Some(name) = line.journal {
        return Err(JobFault::Journal(JournalFault {
            name,
            why: JournalFaultKind::Unwritten(OsError {
                kind: ErrorKind::PermissionDenied,
                code: 13,
            }),
        }));
    }
    let mut node = Core::new(alloc);
    if let Err(fault) = load_files(alloc, &mut node, desk, &line.files) {
        return Err(JobFault::File(fault));
    }
    if let Some(start) = &line.start {
        let event = start_event(alloc, start)?;
        if let Err(refused) = node.apply(&event) {
            return Err(JobFault::Start(refused));
        }
    }
    match (line.port, line.socket) {
        (Some(port), _) => Err(JobFault::Net(
            port,
            OsError {
                kind: ErrorKind::AddrInUse,
                code: 98,
            },
        )),
        (None, Some(socket)) => Err(JobFault::Socket(SocketFault {
            path: socket.path,
            why: SocketFaultKind::InUse,
        })),
        // Each line of a service has one of them.
        (None, None) => Err(JobFault::NoMemory),
    }
}

// Replays a journal's file. For a session it has no entries. Else process 1 has a text that is too long in it, there is no other process,
// and where no process is to be printed an entry is bad: the first one that is to be printed, or else the one before which the replay ends.
fn replayed<'a>(alloc: Global, line: &Replay<'a>, device: &mut Memory) -> Result<(), JobFault<'a>> {
    let print = match line.goal {
        ReplayGoal::Pipe => return piped(alloc, device),
        ReplayGoal::Report {
            inspect: Some(1),
            ..
        } => return Err(JobFault::LongView(line.file)),
        ReplayGoal::Report {
            inspect: Some(_),
            ..
        } => return Err(JobFault::NoProcess(line.file)),
        ReplayGoal::Report { print, .. } => print,
    };
    let (entry, end) = match print {
        Some(range) => (range.from, range.to),
        None => (line.upto, None),
    };
    Err(JobFault::Journal(JournalFault {
        name: line.file,
        why: JournalFaultKind::Bad {
            at: u64::from(end.unwrap_or(16)),
            entry: u64::from(entry),
        },
    }))
}

// Runs `beamnode`, which has no network, and no file that keeps a journal.
fn run_node<F: Files>(
    alloc: Global,
    words: &[&str],
    desk: &mut OverlayFiles<'_, F>,
    device: &mut Memory,
    output: &mut Vec<u8>,
    errors: &mut Vec<u8>,
) -> u8 {
    match node_run(alloc, words, desk, output, errors) {
        Job::Done(status) => status,
        Job::Pipe => job_status(words, piped(alloc, device), errors),
        Job::Serve(line) => job_status(words, unserved(alloc, &line, desk), errors),
        Job::Replay(line) => job_status(words, replayed(alloc, &line, device), errors),
    }
}

/// Runs the program of the first word, whose standard streams are the device. Its output ends with what the device took.
pub fn run<F: Files>(
    alloc: Global,
    words: &[&str],
    desk: &mut OverlayFiles<'_, F>,
    device: Memory,
) -> Result<RunOutput, TestRowError> {
    let mut device = device;
    let mut output = Vec::new(alloc);
    let mut errors = Vec::new(alloc);
    let status = match words.first().copied() {
        Some("beamas") => Some(as_run(alloc, words, desk, &mut output, &mut errors)),
        Some("beamdis") => Some(dis_run(alloc, words, desk, &mut output, &mut errors)),
        Some("beamnode") => Some(run_node(
            alloc,
            words,
            desk,
            &mut device,
            &mut output,
            &mut errors,
        )),
        _ => None,
    };
    match (status, output.extend_from_slice(device.taken())) {
        (Some(status), Ok(())) => Ok(RunOutput {
            status,
            output,
            errors,
        }),
        (None, _) => Err(TestRowError::No("program")),
        (_, Err(_)) => Err(TestRowError::NoMemory),
    }
}
