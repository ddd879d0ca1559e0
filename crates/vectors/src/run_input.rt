//! The standard input of the runs of a title.

use crate::devices::Device;
use crate::draft::Draft;
use crate::error::TestRowError;
use crate::given::{bytes_of, named_file, number_of, parted};
use beam_remote::memory::Memory;
use beam_tools::files::Files;
use std::alloc::{AllocError, Global};

/// The bytes on the standard input of each run, and how both standard streams are read and written.
pub struct Input {
    /// Lines `input WORDS` and `frame WORDS`.
    lines: String,
    pub device: Device,
}

impl Drop for Input {
    fn drop(self) {
        let Input {
            lines: _lines,
            device: _device,
        } = self;
    }
}

// The bytes of a word: hexadecimal digits, or the name of a file, which has a dot.
fn word_bytes<F: Files>(alloc: Global, files: &mut F, word: &str) -> Result<Vec<u8>, TestRowError> {
    if word.contains('.') {
        named_file(alloc, files, word)
    } else {
        bytes_of(alloc, word)
    }
}

fn words_bytes<F: Files>(
    alloc: Global,
    files: &mut F,
    words: &str,
) -> Result<Vec<u8>, TestRowError> {
    let mut bytes = Draft::new(alloc);
    for word in words.split_whitespace() {
        match word_bytes(alloc, files, word) {
            Ok(part) => bytes.push(&part),
            Err(why) => bytes.fail(why),
        }
    }
    bytes.bytes()
}

// Appends the bytes of a line: a frame has their number before them.
fn push_line<F: Files>(alloc: Global, files: &mut F, line: &str, input: &mut Draft) {
    let (word, words) = parted(line);
    match words_bytes(alloc, files, words) {
        Ok(bytes) if word == "frame" => {
            input.push(&number_of(bytes.len()));
            input.push(&bytes);
        }
        Ok(bytes) => input.push(&bytes),
        Err(why) => input.fail(why),
    }
}

impl Input {
    /// No bytes.
    pub fn new(alloc: Global) -> Input {
        Input {
            lines: String::new(alloc),
            device: Device::WHOLE,
        }
    }

    /// Adds bytes: a line `input WORDS`, or `frame WORDS`, which has the number of its bytes before them.
    pub fn add(&mut self, word: &str, words: &str) -> Result<(), AllocError> {
        let line = format!(in *self.lines.allocator(); "{word} {words}\n")?;
        self.lines.push_str(&line)
    }

    /// The standard streams of a run over these files.
    pub fn device<F: Files>(&self, alloc: Global, files: &mut F) -> Result<Memory, TestRowError> {
        let mut input = Draft::new(alloc);
        for line in self.lines.lines() {
            push_line(alloc, files, line, &mut input);
        }
        match input.bytes() {
            Ok(bytes) => Ok(self.device.over(alloc, bytes)),
            Err(why) => Err(why),
        }
    }
}
