//! The program `beamdis`: the words of its command line, the file system and the standard streams.
#![tactic(auto)]

use beam_tools::dis::dis_run;
use beam_tools::fault::RunFault;
use beam_tools::files::FileSystem;
use beam_tools::program::Program;
use beam_tools::report::report;
use beam_tools::thread::{AnyStatus, on_thread};
use beam_tools::words::words;
use std::process::ExitCode;

fn run<'a>(rt: &HostRuntime, words: &[String]) -> Result<u8, RunFault<'a>> {
    let alloc = rt.alloc();
    let Ok(words) = words
        .iter()
        .map(|word| word.as_str())
        .collect::<Vec<&str>>(alloc)
    else {
        return Err(RunFault::NoMemory);
    };
    let mut files = FileSystem(rt);
    Ok(dis_run(
        alloc,
        &words,
        &mut files,
        &mut rt.stdout(),
        &mut rt.stderr(),
    ))
}

fn status(rt: &HostRuntime) -> u8 {
    let status = match words(rt) {
        Ok(words) => run(rt, &words),
        Err(fault) => Err(fault),
    };
    match status {
        Ok(status) => status,
        Err(fault) => report(Program::Disassembler, &[], &fault, &[], &mut rt.stderr()),
    }
}

fn main(rt: HostRuntime) -> ExitCode {
    let mut errors = rt.stderr();
    let status = on_thread(
        &rt,
        Program::Disassembler,
        AnyStatus,
        move || status(&rt),
        &mut errors,
    );
    ExitCode::from(status)
}
