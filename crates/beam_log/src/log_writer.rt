//! The thread that writes the lines of the log.

use crate::log_lines::{LogLine, LogLines, NextLine};
use jiff::Timestamp;
use log::kv::Source;
use log::span::Spans;
use log::{Line, Log, Metadata, Record, info, warn};
use std::alloc::AllocError;
use std::fmt::Display;
use std::str;
use std::sync::{Arc, Wait};
use std::thread::{Builder, Threads};
use std::time::{Clock, Duration};

/// How many bytes of stack the writer's thread has.
const STACK: usize = 256 * 1024;

/// The moment that long after the beginning of 1970; that beginning where there is none.
fn timestamp_of(time: Duration) -> Timestamp {
    match i64::try_from(time.as_secs()) {
        Ok(second) => Timestamp::new(second, time.subsec_nanos() as i32).unwrap_or(
            Timestamp::UNIX_EPOCH,
        ),
        Err(_) => Timestamp::UNIX_EPOCH,
    }
}

/// Writes records to the error output of a console, a line each, which begins with a time.
#[derive(Drop)]
struct TimedStderr<'a, C> {
    console: &'a C,
    /// How long after the beginning of 1970.
    time: Duration,
}

impl<C: Eprint> TimedStderr<'_, C> {
    /// Writes a line after the time. A line that can't be written is lost.
    fn write<D: Display + Drop>(&self, line: D) {
        let time = timestamp_of(self.time);
        let _ = eprintln!(self.console; "{time:.3} {line}");
    }
}

impl<C: Eprint> Log for TimedStderr<'_, C> {
    fn enabled(&self, _metadata: &Metadata<'_>) -> bool {
        true
    }

    fn log<D: Display, K: Source, S: Spans>(&self, record: &Record<'_, D, K, S>) {
        self.write(Line::new(record));
    }

    fn flush(&self) {}

    fn target(&self) -> &str {
        ""
    }
}

/// How long after the beginning of 1970 it is; no time where the clock can't be read.
fn now<C: Clock>(clock: &C) -> Duration {
    clock.since_1970().unwrap_or(Duration::ZERO)
}

/// Writes a line that was logged, after one about lines that were lost before it.
fn write_logged<C: Eprint>(console: &C, line: &LogLine) {
    let stderr = TimedStderr {
        console,
        time: line.time,
    };
    if line.lost_before > 0 {
        warn!(stderr; "{} lines lost", line.lost_before);
    }
    stderr.write(line.text.as_str());
}

/// Writes a text as it is.
fn write_text<C: Eprint>(console: &C, text: &[u8]) {
    if let Ok(text) = str::from_utf8(text) {
        let _ = eprint!(console; "{text}");
    }
}

/// Writes the lines of a log to the error output of a console, up to the log's end. The lines about what isn't in the log have the
/// console's time, or that of the line after them.
pub fn write_lines<R: Wait + Clock, C: Eprint + Clock>(rt: &R, console: &C, lines: &LogLines) {
    for _ in rt.forever() {
        let next = lines.next(rt);
        let stderr = TimedStderr {
            console,
            time: now(console),
        };
        match &next {
            NextLine::Logged(line) => write_logged(console, line),
            NextLine::Lost(count) => warn!(stderr; "{count} lines lost"),
            NextLine::EndsNotLogged(count) => info!(stderr; "{count} ends not logged"),
            NextLine::Last(text) => {
                write_text(console, text);
                return lines.end(rt);
            }
        }
        lines.keep(rt, next);
    }
}

/// A log whose lines a thread writes to the standard error of the runtime. The thread is never joined: where a reader of standard error has
/// stopped, it may not end before the program does. An error where there is no memory for the lines or the thread.
pub fn start_log<R: Threads + Wait + Clock + Eprint + AllocGlobal + Copy + Send + 'static>(
    rt: R,
) -> Result<Arc<LogLines>, AllocError> {
    let lines = Arc::new(rt.alloc(), LogLines::new(rt.alloc())?)?;
    let theirs = Arc::try_clone(&lines)?;
    let thread = Builder::new()
        .stack_size(STACK)
        .spawn(&rt, move || write_lines(&rt, &rt, &*theirs));
    match thread {
        Ok(_detached) => Ok(lines),
        Err(_) => Err(AllocError),
    }
}
