//! Where workers wait while they find nothing to do.

use std::sync::atomic::{AtomicBool, AtomicU32, Ordering};
use std::sync::{Condvar, CondvarTimeouts, Mutex, MutexGuard, Wait};
use std::time::{Clock, Duration};

/// The condition on which idle workers wait, how many they are, and whether they are to end. No thread holds this lock and the node's at
/// once.
#[derive(Drop)]
pub struct IdleWorkers {
    is_closed: Mutex<bool>,
    changed: Condvar,
    sleepers: AtomicU32,
    is_stopped: AtomicBool,
}

impl IdleWorkers {
    /// The state in which no worker waits, and none is to end.
    pub fn new() -> IdleWorkers {
        IdleWorkers {
            is_closed: Mutex::new(false),
            changed: Condvar::new(),
            sleepers: AtomicU32::new(0),
            is_stopped: AtomicBool::new(false),
        }
    }

    /// Wakes a worker, if one waits or is about to. A thread that enqueues a process calls it afterwards. A worker that is about to wait is
    /// counted before it tries the queues for the last time, so either it finds the process or it is woken. Tells whether there was one.
    pub fn wake<R: Wait>(&self, rt: &R) -> bool {
        if self.sleepers.load(Ordering::SeqCst) == 0 {
            return false;
        }
        let guard = self.is_closed.lock(rt);
        self.changed.notify_one();
        drop(guard);
        true
    }

    /// Lets workers end once they find no work and no scan is to be retried.
    pub fn close<R: Wait>(&self, rt: &R) {
        let mut is_closed = self.is_closed.lock(rt);
        *is_closed = true;
        self.changed.notify_all();
    }

    /// Lets workers end after their current action.
    pub fn stop<R: Wait>(&self, rt: &R) {
        self.is_stopped.store(true, Ordering::SeqCst);
        let guard = self.is_closed.lock(rt);
        self.changed.notify_all();
        drop(guard);
    }

    /// Whether workers are to end, whatever work is left.
    pub fn is_stopped(&self) -> bool {
        self.is_stopped.load(Ordering::SeqCst)
    }

    /// Counts a worker that is about to wait. While it holds the guard, which tells whether the queues are closed, no wake-up can get lost.
    pub fn begin_wait<R: Wait>(&self, rt: &R) -> MutexGuard<'_, bool> {
        let guard = self.is_closed.lock(rt);
        let _ = self.sleepers.fetch_add(1, Ordering::SeqCst);
        guard
    }

    /// Waits until the worker is woken, and at most `most` milliseconds if that is given. Tells whether it was woken before these were over.
    pub fn wait<R: Wait + Clock>(
        &self,
        rt: &R,
        guard: MutexGuard<'_, bool>,
        most: Option<u64>,
    ) -> bool {
        match most {
            None => {
                self.changed.wait(rt, guard);
                true
            }
            Some(most) => {
                let (_guard, result) = self
                    .changed
                    .wait_timeout(rt, guard, Duration::from_millis(most));
                !result.timed_out()
            }
        }
    }

    /// No longer counts a worker that waited or was about to.
    pub fn end_wait(&self) {
        let _ = self.sleepers.fetch_sub(1, Ordering::SeqCst);
    }

    /// Wakes all waiting workers as one ends, since they may have to end too.
    pub fn end(&self, guard: MutexGuard<'_, bool>) {
        self.changed.notify_all();
        drop(guard);
    }
}
