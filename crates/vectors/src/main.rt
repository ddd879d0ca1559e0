//! The program `vectors`: the words of its command line are the names of files with rows, which are checked.
#![tactic(auto)]

mod check;
mod devices;
mod draft;
mod error;
mod file;
mod folder;
mod given;
mod kind;
mod listing;
mod load_path;
mod memory;
mod native;
mod notation;
mod outcome;
mod program;
mod reading;
mod report;
mod row;
mod run;
mod run_file;
mod run_input;
mod run_session;
mod run_words;
mod script;
mod session;
mod story;
mod story_answer;
mod story_code;
mod story_event;
mod sweep;
mod term;
mod text;

use crate::program::vectors_run;
use beam_tools::files::FileSystem;
use std::process::ExitCode;
use std::rt::Env;
use std::{env, io};

fn words<R: Env + AllocGlobal>(rt: &R) -> io::Result<Vec<String>> {
    let words = env::args(rt)?.collect(rt.alloc())?;
    Ok(words)
}

fn run_named(rt: &HostRuntime, words: &[String]) -> io::Result<u8> {
    let alloc = rt.alloc();
    let names: Vec<&str> = words
        .iter()
        .skip(1)
        .map(|word| word.as_str())
        .collect(alloc)?;
    let mut files = FileSystem(rt);
    Ok(vectors_run(
        alloc,
        &names,
        &mut files,
        &mut rt.stdout(),
        &mut rt.stderr(),
    ))
}

fn main(rt: HostRuntime) -> ExitCode {
    let status = match words(&rt) {
        Ok(words) => run_named(&rt, &words),
        Err(error) => Err(error),
    };
    match status {
        Ok(status) => ExitCode::from(status),
        Err(_) => {
            let _ = eprintln!(rt; "vectors: NoMemory");
            ExitCode::from(1)
        }
    }
}
