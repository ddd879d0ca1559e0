//! Runs of programs, one after another over the same files, and the checks after each.

use crate::devices::Device;
use crate::error::TestRowError;
use crate::given::{bytes_of, named_file, parted};
use crate::memory::{MemoryFiles, OverlayFiles};
use crate::run_file::make_file;
use crate::run_input::Input;
use crate::run_words::{RunOutput, run, words_of};
use crate::script::ScriptReport;
use beam_tools::files::Files;
use std::alloc::{AllocError, Global};

/// The runs of a title, as far as they were done.
pub struct RunScript {
    alloc: Global,
    memory: MemoryFiles,
    input: Input,
    /// The outcome of the last run, without what was checked since; nothing and status 0 before the first one.
    given: RunOutput,
    /// Whether its lines are read: it has begun, and all so far hold.
    pub holds: bool,
}

impl Drop for RunScript {
    fn drop(self) {
        let RunScript {
            alloc: _alloc,
            memory: _memory,
            input: _input,
            given: _given,
            holds: _holds,
        } = self;
    }
}

// Takes the wanted bytes, if those that were given begin with them.
fn take(given: &mut Vec<u8>, wanted: &[u8]) -> bool {
    let begins = given.starts_with(wanted);
    if begins {
        given.drain(..wanted.len());
    }
    begins
}

// Takes the text and a newline, if the bytes that were given begin so.
fn take_line(given: &mut Vec<u8>, text: &str) -> bool {
    take(given, text.as_bytes()) && take(given, b"\n")
}

impl RunScript {
    /// No runs yet, and no files in memory.
    pub fn new(alloc: Global, holds: bool) -> RunScript {
        let given = RunOutput {
            status: 0,
            output: Vec::new(alloc),
            errors: Vec::new(alloc),
        };
        RunScript {
            alloc,
            memory: MemoryFiles::new(alloc),
            input: Input::new(alloc),
            given,
            holds,
        }
    }

    // Makes a file.
    fn file<F: Files>(&mut self, files: &mut F, text: &str) -> Result<bool, TestRowError> {
        let memory = &mut self.memory;
        match make_file(self.alloc, &mut OverlayFiles { memory, files }, text) {
            Ok(()) => Ok(true),
            Err(why) => Err(why),
        }
    }

    // Puts bytes on the standard input.
    fn input(&mut self, word: &str, words: &str) -> Result<bool, TestRowError> {
        match self.input.add(word, words) {
            Ok(()) => Ok(true),
            Err(_) => Err(TestRowError::NoMemory),
        }
    }

    fn device(&mut self, text: &str) -> Result<bool, TestRowError> {
        match Device::named(text) {
            Some(device) => {
                self.input.device = device;
                Ok(true)
            }
            None => Err(TestRowError::No("device")),
        }
    }

    // Runs words, and tells whether the outcome is that of the run before.
    fn run<F: Files>(&mut self, files: &mut F, words: &[&str]) -> Result<bool, TestRowError> {
        let memory = &mut self.memory;
        memory.written = 0;
        let mut desk = OverlayFiles { memory, files };
        let device = self.input.device(self.alloc, &mut desk)?;
        let given = run(self.alloc, words, &mut desk, device)?;
        let is_same = given == self.given;
        self.given = given;
        Ok(is_same)
    }

    // Runs the words of a line.
    fn command<F: Files>(&mut self, files: &mut F, text: &str) -> Result<bool, TestRowError> {
        match words_of(self.alloc, text) {
            Ok(words) => match self.run(files, &words) {
                Ok(_) => Ok(true),
                Err(why) => Err(why),
            },
            Err(_) => Err(TestRowError::NoMemory),
        }
    }

    // Runs words over the first bytes of a file.
    fn run_cut<F: Files>(
        &mut self,
        files: &mut F,
        words: &[&str],
        name: &str,
        bytes: &[u8],
    ) -> Result<bool, TestRowError> {
        match self.memory.put_bytes(name, bytes) {
            Ok(()) => self.run(files, words),
            Err(_) => Err(TestRowError::NoMemory),
        }
    }

    // `NAME WORDS`: runs the words over each of the shorter files that the file begins with. All give what the first one gives.
    fn each_cut<F: Files>(&mut self, files: &mut F, text: &str) -> Result<bool, TestRowError> {
        let (name, line) = parted(text);
        let words = words_of(self.alloc, line)?;
        let bytes = named_file(self.alloc, files, name)?;
        let mut all_same = true;
        for length in 0..bytes.len() {
            let first = bytes.get(..length).unwrap_or(&bytes);
            let is_same = self.run_cut(files, &words, name, first)?;
            all_same = all_same && (is_same || length == 0);
        }
        Ok(all_same)
    }

    // Whether this is the status, and all bytes that were given have been checked.
    fn status(&self, text: &str) -> bool {
        match text.parse::<u8>() {
            Ok(status) => {
                status == self.given.status
                    && self.given.output.is_empty()
                    && self.given.errors.is_empty()
            }
            Err(_) => false,
        }
    }

    // Whether these are the next bytes of the output.
    fn replies(&mut self, text: &str) -> Result<bool, TestRowError> {
        match bytes_of(self.alloc, text) {
            Ok(wanted) => Ok(take(&mut self.given.output, &wanted)),
            Err(why) => Err(why),
        }
    }

    // Whether the rest of the output is the text of a file.
    fn prints<F: Files>(&mut self, files: &mut F, name: &str) -> Result<bool, TestRowError> {
        match named_file(self.alloc, files, name) {
            Ok(text) => Ok(take(&mut self.given.output, &text) && self.given.output.is_empty()),
            Err(why) => Err(why),
        }
    }

    // `NAME FILE`: whether the file that was written as NAME is that file.
    fn written<F: Files>(&mut self, files: &mut F, text: &str) -> Result<bool, TestRowError> {
        let (name, other) = parted(text);
        match named_file(self.alloc, files, other) {
            Ok(file) => Ok(self.memory.bytes(name) == Some(file.as_slice())),
            Err(why) => Err(why),
        }
    }

    // `NAME OTHER`: whether these files, as they were written, have the same bytes.
    fn same(&self, text: &str) -> bool {
        let (name, other) = parted(text);
        match (self.memory.bytes(name), self.memory.bytes(other)) {
            (Some(first), Some(second)) => first == second,
            _ => false,
        }
    }

    /// Does what a line with that first word says, and tells whether it holds.
    pub fn holds_at<F: Files>(
        &mut self,
        files: &mut F,
        word: &str,
        text: &str,
    ) -> Result<bool, TestRowError> {
        match word {
            "file" => self.file(files, text),
            "input" | "frame" => self.input(word, text),
            "device" => self.device(text),
            "command" => self.command(files, text),
            "each_cut" => self.each_cut(files, text),
            "output" => Ok(take_line(&mut self.given.output, text)),
            "errors" => Ok(take_line(&mut self.given.errors, text)),
            "status" => Ok(self.status(text)),
            "replies" => self.replies(text),
            "prints" => self.prints(files, text),
            "written" => self.written(files, text),
            "same" => Ok(self.same(text)),
            "unwritten" => Ok(self.memory.written == 0),
            _ => Err(TestRowError::No("line of a run")),
        }
    }

    fn seen(&self) -> Result<String, AllocError> {
        let status = self.given.status;
        let output = String::from_utf8_lossy(self.alloc, &self.given.output)?;
        let errors = String::from_utf8_lossy(self.alloc, &self.given.errors)?;
        format!(in self.alloc; "status {status}, output {output:?} and errors {errors:?}")
    }

    /// Reports the outcome of the last run in place of the wanted one.
    pub fn tell(&self, number: usize, wanted: &str, report: &mut ScriptReport) {
        match self.seen() {
            Ok(found) => report.miss(number, wanted, &found),
            Err(_) => report.fail(number, wanted, TestRowError::NoMemory),
        }
    }
}
