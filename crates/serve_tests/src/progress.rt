//! The line of a terminal that tells how far a journal's file was read, over a clock that the test sets.

use beam_replay::{ReadProgress, ReadSoFar};
use std::cell::Cell;
use std::fmt::Display;
use std::io;
use std::sync::{Mutex, Wait};
use std::test::*;
use std::time::{Clock, Duration};

/// How many bytes the file has.
const SIZE: u64 = 1_000;

/// A terminal that keeps what it is to show.
#[derive(Drop)]
struct Terminal<'a, R> {
    rt: &'a R,
    now: Cell<Duration>,
    shown: Mutex<String>,
}

impl<R> Clock for Terminal<'_, R> {
    fn monotonic(&self) -> io::Result<Duration> {
        Ok(self.now.get())
    }

    fn since_1970(&self) -> io::Result<Duration> {
        Ok(self.now.get())
    }
}

impl<R: Wait + AllocGlobal> Eprint for Terminal<'_, R> {
    fn eprint<D: Display + Drop>(&self, value: D) -> io::Result<()> {
        let text = format!(in self.rt.alloc(); "{value}")?;
        self.shown.lock(self.rt).push_str(&text)?;
        Ok(())
    }

    fn eprintln<D: Display + Drop>(&self, value: D) -> io::Result<()> {
        let text = format!(in self.rt.alloc(); "{value}\n")?;
        self.shown.lock(self.rt).push_str(&text)?;
        Ok(())
    }
}

/// At which millisecond how many entries and bytes have been read, and what the terminal shows then.
const MOMENTS: &[(u64, u64, u64, &str)] = &[
    (0, 0, 0, ""),
    (999, 5, 100, ""),
    (
        1_000,
        10,
        250,
        "\r10 entries, 25 percent of the file, 3 s left\x1b[K",
    ),
    (1_199, 12, 260, ""),
    (
        1_200,
        20,
        500,
        "\r20 entries, 50 percent of the file, 1 s left\x1b[K",
    ),
    (
        61_200,
        21,
        501,
        "\r21 entries, 50 percent of the file, 60 s left\x1b[K",
    ),
    (
        61_400,
        40,
        999,
        "\r40 entries, 99 percent of the file, 0 s left\x1b[K",
    ),
];

/// Entries and bytes that were read, bytes of the file, milliseconds, and the text of that.
const SAID: &[(u64, u64, u64, u64, &str)] = &[
    (0, 0, 0, 0, "0 entries, 100 percent of the file"),
    (0, 0, 5, 9_000, "0 entries, 0 percent of the file"),
    (
        7,
        5,
        5,
        9_000,
        "7 entries, 100 percent of the file, 0 s left",
    ),
    (
        7,
        1,
        3,
        9_000,
        "7 entries, 33 percent of the file, 18 s left",
    ),
    (
        100_000_000,
        2_000_000_000,
        8_000_000_000,
        100_000,
        "100000000 entries, 25 percent of the file, 300 s left",
    ),
];

#[test]
fn progress_is_shown(rt: HostRuntime) {
    let terminal = Terminal {
        rt: &rt,
        now: Cell::new(Duration::ZERO),
        shown: Mutex::new(String::new(rt.alloc())),
    };
    let mut progress = ReadProgress::new(Some(&terminal), SIZE);
    for (at, entries, bytes, wanted) in MOMENTS {
        terminal.now.set(Duration::from_millis(*at));
        terminal.shown.lock(&rt).clear();
        progress.show(*entries, *bytes);
        assert_eq!(rt; terminal.shown.lock(&rt).as_str(), *wanted);
    }
    terminal.shown.lock(&rt).clear();
    progress.end();
    progress.end();
    assert_eq!(rt; terminal.shown.lock(&rt).as_str(), "\r\x1b[K");
}

#[test]
fn progress_is_said(rt: HostRuntime) -> Result<(), Fail> {
    for (entries, bytes, size, millis, wanted) in SAID {
        let so_far = ReadSoFar {
            entries: *entries,
            bytes: *bytes,
            size: *size,
            millis: *millis,
        };
        let said = format!(in rt.alloc(); "{so_far}")?;
        assert_eq!(rt; said.as_str(), *wanted);
    }
    Ok(())
}
