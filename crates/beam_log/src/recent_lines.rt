//! The last lines of the log, for those who look at it.

use std::alloc::{AllocError, Global};
use std::collections::VecDeque;
use std::time::Duration;

/// How many lines are kept.
const MOST: usize = 500;

/// A line that was written.
#[derive(Drop)]
pub struct RecentLine {
    /// Lines are counted from 1 on.
    pub number: u64,
    /// How long after the beginning of 1970 it was logged.
    pub time: Duration,
    /// Its text, without the time.
    pub text: String,
}

impl RecentLine {
    /// Its text.
    pub fn into_text(self) -> String {
        let RecentLine { text, .. } = self;
        text
    }
}

/// The last lines that were written, the oldest first, at most 500.
#[derive(Drop)]
pub(crate) struct RecentLines {
    lines: VecDeque<RecentLine>,
    /// How many lines were written.
    count: u64,
}

impl RecentLines {
    /// No lines, with room for all that are kept.
    pub(crate) fn new(alloc: Global) -> Result<RecentLines, AllocError> {
        Ok(RecentLines {
            lines: VecDeque::with_capacity(alloc, MOST + 1)?,
            count: 0,
        })
    }

    /// Keeps a line, in the place of the oldest one where as many are there as are kept.
    pub(crate) fn push(&mut self, time: Duration, text: String) {
        self.count = self.count.saturating_add(1);
        let line = RecentLine {
            number: self.count,
            time,
            text,
        };
        if self.lines.len() >= MOST {
            let _ = self.lines.pop_front();
        }
        let _ = self.lines.push_back(line);
    }

    /// Copies of the lines behind a number, and how many behind it are no longer there.
    pub(crate) fn after(
        &self,
        alloc: Global,
        number: u64,
    ) -> Result<(Vec<RecentLine>, u64), AllocError> {
        let mut copies = Vec::new(alloc);
        for line in &self.lines {
            if line.number > number {
                copies.push(RecentLine {
                    number: line.number,
                    time: line.time,
                    text: String::from_str(alloc, line.text.as_str())?,
                })?;
            }
        }
        let behind = self.count.saturating_sub(number);
        let lost = behind.saturating_sub(copies.len() as u64);
        Ok((copies, lost))
    }
}
