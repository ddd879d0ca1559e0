//! How many processes and modules a node has, counted not too often.

use crate::http_state::time;
use crate::looking::count_all;
use beam_page::{ModuleCounts, ProcessCounts};
use beam_receipts::brand::NodeBrand;
use beam_sched::shared::Shared;
use std::alloc::{AllocError, Global};
use std::sync::{Mutex, Wait};
use std::time::{Clock, Duration};

/// For how long a count is told at least, in milliseconds.
const LEAST_MS: u64 = 500;

/// For how many times the time that it took a count is told at least, so that counting takes at most a fiftieth of a processor.
const TIMES: u32 = 50;

/// A count, and when it was made.
#[derive(Clone, Copy)]
struct Count {
    processes: ProcessCounts,
    modules: ModuleCounts,
    made: Duration,
    took: Duration,
}

impl Count {
    /// Whether it is old enough to be made anew.
    fn is_old(&self, now: Duration) -> bool {
        let age = now.saturating_sub(self.made);
        age >= Duration::from_millis(LEAST_MS) && age >= self.took.saturating_mul(TIMES)
    }
}

/// The count that was made last.
#[derive(Drop)]
pub struct CensusCache {
    count: Mutex<Option<Count>>,
}

/// A new count, in steps between which other threads have the node's lock.
fn count_now<B: NodeBrand, R: Wait + Clock>(
    rt: &R,
    alloc: Global,
    shared: &Shared<B>,
) -> Result<Count, AllocError> {
    let began = time(rt);
    let (processes, modules) = count_all(rt, alloc, shared)?;
    let made = time(rt);
    Ok(Count {
        processes,
        modules,
        made,
        took: made.saturating_sub(began),
    })
}

impl CensusCache {
    /// Nothing was counted.
    pub fn new() -> CensusCache {
        CensusCache {
            count: Mutex::new(None),
        }
    }

    /// How many processes and modules there are, as they were counted last: within half a second, and where counting takes longer than 10
    /// milliseconds within 50 times that.
    pub fn counts<B: NodeBrand, R: Wait + Clock>(
        &self,
        rt: &R,
        alloc: Global,
        shared: &Shared<B>,
    ) -> Result<(ProcessCounts, ModuleCounts), AllocError> {
        let mut kept = self.count.lock(rt);
        let now = time(rt);
        let count = match *kept {
            Some(count) if !count.is_old(now) => count,
            _ => count_now(rt, alloc, shared)?,
        };
        *kept = Some(count);
        let age = now.saturating_sub(count.made);
        let processes = ProcessCounts {
            counted_ms: u64::try_from(age.as_millis()).unwrap_or(u64::MAX),
            ..count.processes
        };
        Ok((processes, count.modules))
    }
}
