//! How far a journal's file was read, as a line of a terminal.
ghost use Rattle.std.specs.Prelude.{◌≡◌, ◌≤◌};

use std::fmt::{self, Display, Formatter};
use std::time::{Clock, Duration};

/// For how many milliseconds nothing is shown.
const QUIET: u64 = 1_000;

/// How many milliseconds lie at least between two lines.
const PERIOD: u64 = 200;

/// Takes the line of a terminal away.
const CLEAR: &str = "\r\x1b[K";

/// How far a file was read. It is printed with hundredths of the file, rounded down, and with the seconds that the rest takes at the speed so
/// far, if there is one.
#[derive(Clone, Copy)]
pub struct ReadSoFar {
    /// How many entries were read.
    pub entries: u64,
    /// How many bytes were read.
    pub bytes: u64,
    /// How many bytes the file has.
    pub size: u64,
    /// How many milliseconds it took.
    pub millis: u64,
}

impl ReadSoFar {
    /// How many hundredths of the file were read: 100 of one that has no more bytes. It is exact below 2^57 bytes.
    fn hundredths(&self) -> u64
        ensures { result ≤ 100 }
    {
        if self.bytes >= self.size {
            return 100;
        }
        (self.bytes.saturating_mul(100) / self.size).min(100)
    }

    /// How many seconds the rest takes, at the speed so far. Where nothing was read there is no speed.
    fn seconds_left(&self) -> Option<u64> {
        if self.bytes == 0 {
            return None;
        }
        let rest = self.size.saturating_sub(self.bytes);
        Some((self.millis / 100).saturating_mul(rest) / self.bytes / 10)
    }
}

impl Display for ReadSoFar {
    fn fmt<W: fmt::Write>(&self, f: &mut Formatter<W>) -> fmt::Result {
        let hundredths = self.hundredths();
        write!(
            f,
            "{} entries, {hundredths} percent of the file",
            self.entries
        )?;
        match self.seconds_left() {
            Some(seconds) => write!(f, ", {seconds} s left"),
            None => Ok(()),
        }
    }
}

/// A line on a terminal that tells how far a file was read, once that takes longer than a second. Without a terminal nothing is shown.
#[derive(Drop)]
pub struct ReadProgress<'t, T> {
    terminal: Option<&'t T>,
    /// How many bytes the file has.
    size: u64,
    /// When the reading began.
    began_at: Duration,
    /// When the line was shown, if it was.
    shown_at: Option<Duration>,
}

impl<'t, T: Eprint + Clock> ReadProgress<'t, T> {
    /// The reading of a file of `size` bytes begins.
    pub fn new(terminal: Option<&'t T>, size: u64) -> ReadProgress<'t, T> {
        ReadProgress {
            terminal,
            size,
            began_at: now(terminal),
            shown_at: None,
        }
    }

    /// Whether the line is to be shown at this moment: a second after the beginning, and then each fifth of a second.
    fn is_due(&self, at: Duration) -> bool {
        let (since, period) = match self.shown_at {
            Some(shown_at) => (shown_at, PERIOD),
            None => (self.began_at, QUIET),
        };
        at.saturating_sub(since) >= Duration::from_millis(period)
    }

    /// Shows how many entries and bytes were read, if that is due.
    pub fn show(&mut self, entries: u64, bytes: u64) {
        let Some(terminal) = self.terminal else {
            return;
        };
        let at = now(self.terminal);
        if !self.is_due(at) {
            return;
        }
        let millis = at.saturating_sub(self.began_at).as_millis();
        let so_far = ReadSoFar {
            entries,
            bytes,
            size: self.size,
            millis: u64::try_from(millis).unwrap_or(u64::MAX),
        };
        self.shown_at = Some(at);
        let _ = eprint!(terminal; "\r{so_far}\x1b[K");
    }

    /// Takes the line away, if it was shown.
    pub fn end(&mut self) {
        let (Some(terminal), Some(_)) = (self.terminal, self.shown_at) else {
            return;
        };
        self.shown_at = None;
        let _ = eprint!(terminal; "{CLEAR}");
    }
}

/// The moment that a terminal's clock tells, and 0 without one.
fn now<T: Clock>(terminal: Option<&T>) -> Duration {
    match terminal {
        Some(terminal) => terminal.monotonic().unwrap_or(Duration::ZERO),
        None => Duration::ZERO,
    }
}
