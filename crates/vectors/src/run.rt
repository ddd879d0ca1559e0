//! Runs of the programs.
//!
//! A line `run TITLE` begins a row, with no files but those beside its file. Each of its lines does something, or wants something:
//!
//! - `file NAME ..` makes a file in memory (see `run_file`).
//! - `input WORDS` puts bytes on the standard input of all runs after it: each word is hexadecimal digits or the name of a file, which
//!   has a dot. `frame WORDS` puts their number in four bytes before them. `device DEVICE` says how both standard streams are read and
//!   written, as rows of kind `session` do.
//! - `command WORDS` runs `beamas`, `beamdis` or `beamnode`. What it writes is a file in memory for those after it.
//! - `each_cut NAME WORDS` runs them over each of the shorter files that the file begins with; all give the same.
//! - `output TEXT`, `errors TEXT`: the next line on the output, or on the errors.
//! - `replies HEX`: the next bytes on the output.
//! - `prints FILE`: the rest of the output is the text of a file.
//! - `written NAME FILE`: the file that was written as NAME has the bytes of FILE; `same NAME OTHER`: two files in memory have the
//!   same bytes; `unwritten`: the last run wrote none.
//! - `status N`: the status; all that was written to the output and the errors has been checked before.

use crate::draft::text_of;
use crate::error::TestRowError;
use crate::folder::Folder;
use crate::given::{named_file, parted};
use crate::reading::says;
use crate::run_session::RunScript;
use crate::script::ScriptReport;
use beam_tools::files::Files;
use std::alloc::Global;

// One line: does what it says, or checks what it wants.
fn line<F: Files>(
    session: &mut RunScript,
    files: &mut F,
    number: usize,
    text: &str,
    report: &mut ScriptReport,
) {
    let (word, rest) = parted(text);
    match session.holds_at(files, word, rest) {
        Ok(true) => {}
        Ok(false) => {
            session.holds = false;
            session.tell(number, text, report);
        }
        Err(why) => {
            session.holds = false;
            report.fail(number, text, why);
        }
    }
}

// Plays the runs of a text, each title up to its first line that doesn't hold.
fn tell<F: Files>(alloc: Global, files: &mut F, text: &str, report: &mut ScriptReport) {
    let mut session = RunScript::new(alloc, false);
    for (index, text) in text.lines().enumerate() {
        if text.starts_with("run ") {
            report.begin();
            session = RunScript::new(alloc, true);
        } else if session.holds && says(text) {
            line(&mut session, files, index.saturating_add(1), text, report);
        }
    }
}

/// How many runs the file of that name has, or the lines at which something else was found than was wanted.
pub fn found<F: Files>(alloc: Global, files: &mut F, name: &str) -> Result<String, TestRowError> {
    let text = text_of(named_file(alloc, files, name)?)?;
    let mut report = ScriptReport::new(alloc);
    tell(alloc, &mut Folder::of(name, files), &text, &mut report);
    report.found()
}
