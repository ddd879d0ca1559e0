//! The log of a node.
ghost use Rattle.std.specs.Prelude.{Some, []};

use beam_log::LogLines;
use beam_tools::line::LogLevel;
use log::kv::Source;
use log::span::Spans;
use log::{LevelFilter, Line, Log, Logged, Metadata, Record};
use std::fmt::Display;
use std::sync::Wait;
use std::time::{Clock, Duration};

/// The target by which it is asked whether an end of a process may be logged.
pub const ENDS: &str = "ends";

/// Lets each record wait for the thread that writes the lines of a log, with the time of a console.
#[derive(Drop)]
pub struct QueuedLog<'a, R, C> {
    rt: &'a R,
    console: &'a C,
    lines: &'a LogLines,
}

impl<R: Wait + Clock, C: Clock> Log for QueuedLog<'_, R, C> {
    ghost target_of = { λ _. Some [] };

    // All records are enabled except records of the target `ENDS`: each time it is asked about them, an end of a process is counted, and the
    // answer is whether it may be logged.
    fn enabled(&self, metadata: &Metadata<'_>) -> bool {
        if metadata.target() == ENDS {
            let now = self.rt.monotonic().unwrap_or(Duration::ZERO);
            self.lines.admits_end(self.rt, now)
        } else {
            true
        }
    }

    // 1970 where the clock can't be read.
    fn log<D: Display, K: Source, S: Spans>(&self, record: &Record<'_, D, K, S>) {
        let time = self.console.since_1970().unwrap_or(Duration::ZERO);
        let line = Line::new(record);
        let text = format!(in self.lines.alloc(); "{line}");
        self.lines.push(self.rt, time, text);
    }

    fn flush(&self) {}

    fn target(&self) -> &str {
        ""
    }
}

fn filter(level: LogLevel) -> LevelFilter {
    match level {
        LogLevel::Error => LevelFilter::Error,
        LogLevel::Warn => LevelFilter::Warn,
        LogLevel::Info => LevelFilter::Info,
    }
}

/// A runtime whose records are lines of a log, with the time of a console, up to a level.
pub fn logged<'a, R, C: Clock>(
    rt: &'a R,
    console: &'a C,
    lines: &'a LogLines,
    level: LogLevel,
) -> Logged<&'a R, QueuedLog<'a, R, C>> {
    let queued_log = QueuedLog { rt, console, lines };
    Logged::new(rt, filter(level), queued_log)
}
