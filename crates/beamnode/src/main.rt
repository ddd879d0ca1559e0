//! The program `beamnode`: the words of its command line, the file system, the standard streams and the net.
#![tactic(auto)]

use beam_log::start_log;
use beam_replay::replay;
use beam_serve::serve;
use beam_streams::pipe;
use beam_tools::fault::RunFault;
use beam_tools::files::FileSystem;
use beam_tools::job::{Job, JobFault, job_status};
use beam_tools::node::node_run;
use beam_tools::program::Program;
use beam_tools::report::report;
use beam_tools::thread::{AnyStatus, on_thread};
use beam_tools::words::words;
use std::io::IsTerminal;
use std::process::ExitCode;

/// For how many bytes of what a node says at its end memory is taken before it begins.
const LAST: usize = 512;

fn texts<'b, 'a>(rt: &HostRuntime, words: &'b [String]) -> Result<Vec<&'b str>, RunFault<'a>> {
    match words.iter().map(|word| word.as_str()).collect(rt.alloc()) {
        Ok(words) => Ok(words),
        Err(_) => Err(RunFault::NoMemory),
    }
}

// What the command line leaves to be done.
fn job<'a>(rt: &HostRuntime, words: &'a [&'a str]) -> Job<'a> {
    let mut files = FileSystem(rt);
    node_run(
        rt.alloc(),
        words,
        &mut files,
        &mut rt.stdout(),
        &mut rt.stderr(),
    )
}

// Where it is told how far a file was read: standard error, if that is a terminal.
fn terminal_of(rt: &HostRuntime) -> Option<&HostRuntime> {
    if rt.stderr().is_terminal() {
        Some(rt)
    } else {
        None
    }
}

fn fails(rt: &HostRuntime, fault: &RunFault<'_>) -> u8 {
    report(Program::Node, &[], fault, &[], &mut rt.stderr())
}

fn main(rt: HostRuntime) -> ExitCode {
    let mut errors = rt.stderr();
    let work = move || {
        let words = match words(&rt) {
            Ok(words) => words,
            Err(fault) => return fails(&rt, &fault),
        };
        let words = match texts(&rt, &words) {
            Ok(words) => words,
            Err(fault) => return fails(&rt, &fault),
        };
        match job(&rt, &words) {
            Job::Done(status) => status,
            Job::Pipe => job_status(&words, pipe(&rt), &mut rt.stderr()),
            Job::Replay(line) => {
                let done = replay(&rt, &rt, terminal_of(&rt), &line);
                job_status(&words, done, &mut rt.stderr())
            }
            Job::Serve(line) => {
                // What the node says at its end is written after the lines of the log, and by the same thread.
                let mut last = Vec::new(rt.alloc());
                let room = last.reserve(LAST);
                let (Ok(()), Ok(lines)) = (room, start_log(rt)) else {
                    return job_status(&words, Err(JobFault::NoMemory), &mut rt.stderr());
                };
                let done = serve(&rt, &rt, terminal_of(&rt), &lines, &line);
                let status = job_status(&words, done, &mut last);
                lines.close(&rt, last);
                status
            }
        }
    };
    ExitCode::from(on_thread(&rt, Program::Node, AnyStatus, work, &mut errors))
}
