//! How many ends of processes are logged.

use std::sync::{Mutex, Wait};
use std::time::Duration;

/// How many ends are logged in a period at most.
const MOST: u32 = 100;

/// How long a period takes at least, in seconds.
const SECONDS: u64 = 1;

/// The ends of a period, and the ends of the periods before it.
#[derive(Drop)]
struct EndPeriod {
    began: Duration,
    /// How many ends of this period are logged.
    logged: u32,
    /// How many ends of this period aren't.
    unlogged: u64,
    /// How many ends of earlier periods aren't logged and weren't taken.
    due: u64,
}

impl EndPeriod {
    /// Begins another period, if this one has passed.
    fn pass(&mut self, now: Duration) {
        if now.saturating_sub(self.began) >= Duration::from_secs(SECONDS) {
            self.due = self.due.saturating_add(self.unlogged);
            self.began = now;
            self.logged = 0;
            self.unlogged = 0;
        }
    }

    /// Counts an end, and tells whether it may be logged.
    fn count(&mut self) -> bool {
        let is_logged = self.logged < MOST;
        if is_logged {
            self.logged = self.logged.saturating_add(1);
        } else {
            self.unlogged = self.unlogged.saturating_add(1);
        }
        is_logged
    }
}

/// A limit on the ends of processes in the log: 100 in a second. Those above it are counted.
#[derive(Drop)]
pub struct EndLimit {
    period: Mutex<EndPeriod>,
}

impl EndLimit {
    /// The limit before the first end.
    pub fn new() -> EndLimit {
        EndLimit {
            period: Mutex::new(EndPeriod {
                began: Duration::ZERO,
                logged: 0,
                unlogged: 0,
                due: 0,
            }),
        }
    }

    /// Counts an end that comes at this time, and tells whether it may be logged.
    pub fn admits<R: Wait>(&self, rt: &R, now: Duration) -> bool {
        let mut period = self.period.lock(rt);
        period.pass(now);
        period.count()
    }

    /// How many ends of periods that have passed weren't logged. It doesn't count them again.
    pub fn take_due<R: Wait>(&self, rt: &R, now: Duration) -> u64 {
        let mut period = self.period.lock(rt);
        period.pass(now);
        let due = period.due;
        period.due = 0;
        due
    }

    /// How many ends weren't logged, also of the period that lasts. It doesn't count them again.
    pub fn take_all<R: Wait>(&self, rt: &R) -> u64 {
        let mut period = self.period.lock(rt);
        let all = period.due.saturating_add(period.unlogged);
        period.due = 0;
        period.unlogged = 0;
        all
    }

    /// Whether ends came in the period that lasts, or some are to be taken.
    pub fn is_active<R: Wait>(&self, rt: &R) -> bool {
        let period = self.period.lock(rt);
        period.logged > 0 || period.due > 0
    }
}
