//! The moments of a node.
ghost use Rattle.std.specs.Prelude.{◌≡◌};
ghost use Rattle.beam_sched.specs.NodeClock.{moment_at};

use std::sync::atomic::{AtomicU64, Ordering};

/// The moments that are given to a node: the time of a clock, advanced where a command moved the node's clock ahead of it.
#[derive(Drop)]
pub struct NodeClock {
    /// The node's clock.
    clock: AtomicU64,
    /// How far moments are ahead of the time. It only grows.
    ahead: AtomicU64,
}

/// The moment at a time: the time and the advance, but never before the node's clock.
fn moment_at(time: u64, ahead: u64, clock: u64) -> u64
    ensures { result ≡ moment_at time ahead clock }
{
    let moment = time.saturating_add(ahead);
    if moment < clock { clock } else { moment }
}

impl NodeClock {
    /// The moments of a node whose clock has this time.
    pub fn new(clock: u64) -> NodeClock {
        NodeClock {
            clock: AtomicU64::new(clock),
            ahead: AtomicU64::new(0),
        }
    }

    /// The node's clock.
    pub fn clock(&self) -> u64 {
        self.clock.load(Ordering::SeqCst)
    }

    /// The moment at a time.
    pub fn at(&self, time: u64) -> u64 {
        moment_at(time, self.ahead.load(Ordering::SeqCst), self.clock())
    }

    /// Notes that the node's clock was set. It is called under the node's lock.
    pub fn set(&self, clock: u64) {
        self.clock.store(clock, Ordering::SeqCst);
    }

    /// The moment at a time that was read under the node's lock. Later moments are advanced from it.
    pub fn advance(&self, time: u64) -> u64 {
        let moment = self.at(time);
        let _ = self
            .ahead
            .fetch_max(moment.saturating_sub(time), Ordering::SeqCst);
        moment
    }
}
