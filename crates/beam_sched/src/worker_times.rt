//! When a worker wakes another one, and how long it waits.
ghost use Rattle.std.specs.Prelude.{◌≡◌, ◌≤◌, ◌+◌, ◌-◌, ◌↔◌, ◌^◌, min, IsTrue};
ghost use Rattle.beam_sched.specs.WorkerTimes.{wait_limit};

/// A worker wakes another one for what is behind its slice at most once in this many milliseconds.
const WAKE_EVERY: u64 = 2;

/// A worker that was woken waits at most this many milliseconds the next time.
const NAP: u64 = 10;

/// A slice that takes this many milliseconds by the clock isn't short, however few rows it has.
const LONG_SLICE: u64 = 2;

/// Times of a worker, in milliseconds.
///
/// A slice of few rows can take seconds, if its rows are comparisons of long lists. Processes that are queued behind it must not wait for its end
/// while other workers wait for work. So a worker wakes one before such a slice, though not before each: one that was woken less than two
/// milliseconds ago is either at work or takes a nap before it waits without a limit, and then looks into the queues.
#[derive(Clone, Copy, Debug)]
pub struct WorkerTimes {
    /// When its last action ended.
    pub acted: u64,
    /// From when on it may wake another worker for what is behind a slice.
    pub may_wake: u64,
    /// Whether it was woken since it last waited as long as it was to.
    pub was_woken: bool,
}

impl WorkerTimes {
    /// A worker that has done nothing yet.
    pub fn new() -> WorkerTimes {
        WorkerTimes {
            acted: 0,
            may_wake: 0,
            was_woken: true,
        }
    }

    /// Notes that an action ended at this time. Tells whether it took long.
    pub fn note_end(&mut self, now: u64) -> bool
        ensures { IsTrue result ↔ (2 ≤ now - self.old.acted) }
    {
        let took = now.saturating_sub(self.acted);
        self.acted = now;
        took >= LONG_SLICE
    }

    /// Whether it may wake another worker for what is behind the slice that begins now.
    pub fn may_wake(&self) -> bool
        ensures { IsTrue result ↔ (self.now.may_wake ≤ self.now.acted) }
    {
        self.acted >= self.may_wake
    }

    /// Notes that it woke another worker.
    pub fn note_wake(&mut self)
        ensures { self.new.may_wake ≡ min (self.old.acted + 2) (2 ^ 64 - 1) }
    {
        self.may_wake = self.acted.saturating_add(WAKE_EVERY);
    }

    /// How long it waits, if the node is to be scanned after `due` milliseconds; `None` for no limit.
    pub fn wait_limit(&self, due: Option<u64>) -> Option<u64>
        ensures { result ≡ wait_limit self.now.was_woken due }
    {
        match due {
            Some(due) if due < NAP || !self.was_woken => Some(due),
            None if !self.was_woken => None,
            _ => Some(NAP),
        }
    }

    /// Notes that it waited until now, and whether it was woken before its limit.
    pub fn note_wait(&mut self, now: u64, was_woken: bool)
        ensures { self.new ≡ record self.old { acted = now; was_woken = was_woken } }
    {
        self.acted = now;
        self.was_woken = was_woken;
    }
}
