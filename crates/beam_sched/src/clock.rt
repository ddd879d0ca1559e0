//! The clock of workers.

use std::time;
use std::time::Duration;

/// Gives the time from which workers make the moments that they hand to the node.
pub trait Clock {
    /// The time, in milliseconds. It never goes back.
    fn moment(&self) -> u64;
}

/// The time since the clock was made, by the runtime's clock that never goes back.
#[derive(Drop)]
pub struct SteadyClock<'a, R> {
    rt: &'a R,
    start: Duration,
}

impl<'a, R: time::Clock> SteadyClock<'a, R> {
    /// A clock that is at 0 now. While the time can't be read it stays at 0.
    pub fn new(rt: &'a R) -> SteadyClock<'a, R> {
        SteadyClock {
            rt,
            start: rt.monotonic().unwrap_or(Duration::ZERO),
        }
    }
}

impl<R: time::Clock> Clock for SteadyClock<'_, R> {
    fn moment(&self) -> u64 {
        match self.rt.monotonic() {
            Ok(now) => {
                u64::try_from(now.saturating_sub(self.start).as_millis()).unwrap_or(u64::MAX)
            }
            Err(_) => 0,
        }
    }
}
