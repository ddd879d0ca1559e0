//! Files of stories and of runs: titled rows of several lines each.

use crate::draft::Draft;
use crate::error::{TestRowError, unless_refused};
use std::alloc::Global;

/// The outcome of a file's titled rows.
#[derive(Drop)]
pub struct ScriptReport {
    alloc: Global,
    /// How many rows the file has.
    titles: u32,
    /// The lines that don't hold, with what was found there.
    misses: Draft,
}

impl ScriptReport {
    /// No rows yet.
    pub fn new(alloc: Global) -> ScriptReport {
        ScriptReport {
            alloc,
            titles: 0,
            misses: Draft::new(alloc),
        }
    }

    /// Counts a row.
    pub fn begin(&mut self) {
        self.titles = self.titles.saturating_add(1);
    }

    /// Notes a line for which another text was found than was wanted.
    pub fn miss(&mut self, line: usize, wanted: &str, found: &str) {
        let text = format!(in self.alloc; "[line {line}] {found} in place of {wanted}; ");
        self.misses.push_made(&unless_refused(text));
    }

    /// Notes a line that can't be read or carried out.
    pub fn fail(&mut self, line: usize, wanted: &str, why: TestRowError) {
        let text = format!(in self.alloc; "[line {line}] {why} in {wanted}; ");
        self.misses.push_made(&unless_refused(text));
    }

    /// How many rows the file has, or the lines that don't hold.
    pub fn found(self) -> Result<String, TestRowError> {
        if self.misses.is_empty() {
            let titles = self.titles;
            unless_refused(format!(in self.alloc; "{titles}"))
        } else {
            self.misses.text()
        }
    }
}
