//! What workers have done, for those who look at a node.

use std::alloc::{AllocError, Global};
use std::sync::atomic::{AtomicU64, Ordering};
use std::sync::{Arc, Mutex, Wait};
use std::time::{Clock, Duration};

/// For how long a worker has waited.
#[derive(Clone, Copy)]
struct WaitTimes {
    /// In the waits that have ended.
    waited: Duration,
    /// When the wait began that lasts.
    since: Option<Duration>,
}

impl WaitTimes {
    /// For how long it has waited up to a moment.
    fn until(&self, now: Duration) -> Duration {
        match self.since {
            Some(since) => self.waited.saturating_add(now.saturating_sub(since)),
            None => self.waited,
        }
    }
}

/// What a worker has done. The worker writes it, and other threads read it.
#[derive(Drop)]
pub struct WorkerTally {
    began: Duration,
    waits: Mutex<WaitTimes>,
    slices: AtomicU64,
    rows: AtomicU64,
}

/// What a worker has done up to a moment. All three only grow.
#[derive(Clone, Copy, Debug)]
pub struct WorkerCounts {
    /// For how many microseconds it hasn't waited.
    pub busy_us: u64,
    /// How many slices it ran; a short turn under the lock is one too.
    pub slices: u64,
    /// How many rows these had.
    pub rows: u64,
}

impl WorkerTally {
    /// A worker that begins at this moment.
    fn new(now: Duration) -> WorkerTally {
        WorkerTally {
            began: now,
            waits: Mutex::new(WaitTimes {
                waited: Duration::ZERO,
                since: None,
            }),
            slices: AtomicU64::new(0),
            rows: AtomicU64::new(0),
        }
    }

    /// Notes that a wait begins at this moment.
    pub(crate) fn begin_wait<R: Wait>(&self, rt: &R, now: Duration) {
        self.waits.lock(rt).since = Some(now);
    }

    /// Notes that the wait ends at this moment.
    pub(crate) fn end_wait<R: Wait>(&self, rt: &R, now: Duration) {
        let mut waits = self.waits.lock(rt);
        waits.waited = waits.until(now);
        waits.since = None;
    }

    /// Notes slices that have run, and their rows.
    pub(crate) fn note(&self, slices: u32, rows: u32) {
        let _ = self.slices.fetch_add(u64::from(slices), Ordering::SeqCst);
        let _ = self.rows.fetch_add(u64::from(rows), Ordering::SeqCst);
    }

    /// What it has done up to a moment.
    fn counts<R: Wait>(&self, rt: &R, now: Duration) -> WorkerCounts {
        let waited = self.waits.lock(rt).until(now);
        let busy = now.saturating_sub(self.began).saturating_sub(waited);
        WorkerCounts {
            busy_us: u64::try_from(busy.as_micros()).unwrap_or(u64::MAX),
            slices: self.slices.load(Ordering::SeqCst),
            rows: self.rows.load(Ordering::SeqCst),
        }
    }
}

/// The tallies of all workers, in the order in which they began.
#[derive(Drop)]
pub struct WorkerTallies {
    tallies: Mutex<Vec<Arc<WorkerTally>>>,
}

impl WorkerTallies {
    /// No worker has begun.
    pub(crate) fn new(alloc: Global) -> WorkerTallies {
        WorkerTallies {
            tallies: Mutex::new(Vec::new(alloc)),
        }
    }

    /// The tally of a worker that begins now. Where memory is refused the worker has none, and isn't among those that are read.
    pub(crate) fn begin<R: Wait + Clock>(&self, rt: &R) -> Option<Arc<WorkerTally>> {
        let now = rt.monotonic().unwrap_or(Duration::ZERO);
        let mut tallies = self.tallies.lock(rt);
        let alloc = *tallies.allocator();
        tallies.reserve(1).ok()?;
        let tally = Arc::new(alloc, WorkerTally::new(now)).ok()?;
        let shared = tally.clone().ok()?;
        let _ = tallies.push(shared);
        Some(tally)
    }

    /// What each worker has done, in the order in which they began.
    pub fn counts<R: Wait + Clock>(
        &self,
        rt: &R,
        alloc: Global,
    ) -> Result<Vec<WorkerCounts>, AllocError> {
        let now = rt.monotonic().unwrap_or(Duration::ZERO);
        let tallies = self.tallies.lock(rt);
        let mut counts = Vec::with_capacity(alloc, tallies.len())?;
        for tally in tallies.iter() {
            counts.push(tally.counts(rt, now))?;
        }
        Ok(counts)
    }
}
