//! Threads enqueue, take and steal pids, and all that are left come back at the end.
ghost use Rattle.std.specs.Prelude.{◌≡◌};

use beam_queue::{QueueBrand, RunQueue, UnbrandedQueues, close};
use std::alloc::{AllocError, Global};
use std::marker::Brand;
use std::process::Abort;
use std::test::*;
use std::thread;
use std::thread::Threads;

/// A run queue, and how often each of the pids below 1,000 was enqueued and taken by it.
struct CountedQueue<Q: QueueBrand> {
    run_queue: RunQueue<Q>,
    enqueued: Vec<u32>,
    taken: Vec<u32>,
}

impl<Q: QueueBrand> Drop for CountedQueue<Q> {
    fn drop(self) {
        let CountedQueue {
            run_queue: _run_queue,
            enqueued: _enqueued,
            taken: _taken,
        } = self;
    }
}

fn count(counts: &mut Vec<u32>, pid: u32) {
    if let Some(one) = counts.get_mut(pid as usize) {
        *one = one.saturating_add(1);
    }
}

fn add(counts: &mut Vec<u32>, more: &[u32]) {
    for (one, other) in counts.iter_mut().zip(more) {
        *one = one.saturating_add(*other);
    }
}

fn begin<Q: QueueBrand>(
    alloc: Global,
    run_queue: RunQueue<Q>,
) -> Result<CountedQueue<Q>, AllocError> {
    Ok(CountedQueue {
        run_queue,
        enqueued: vec![in alloc; 0; 1_000]?,
        taken: vec![in alloc; 0; 1_000]?,
    })
}

impl<Q: QueueBrand> CountedQueue<Q> {
    fn enqueue(&mut self, pid: u32) {
        if self.run_queue.push(pid).is_ok() {
            count(&mut self.enqueued, pid);
        }
    }

    fn take(&mut self) {
        if let Some(pid) = self.run_queue.pop() {
            count(&mut self.taken, pid);
        }
    }

    fn steal(&mut self) {
        if let Some(pid) = self.run_queue.steal() {
            count(&mut self.taken, pid);
        }
    }

    /// Adds up how often each pid was enqueued and taken, and gives back the run queue.
    fn add_to(self, enqueued: &mut Vec<u32>, found: &mut Vec<u32>) -> RunQueue<Q> {
        let CountedQueue {
            run_queue,
            enqueued: more,
            taken,
        } = self;
        add(enqueued, &more);
        add(found, &taken);
        run_queue
    }
}

/// Enqueues 1,000 pids, takes every third, and steals as often.
fn run<Q: QueueBrand>(seen: CountedQueue<Q>) -> CountedQueue<Q> {
    let mut seen = seen;
    for pid in 0..1_000 {
        seen.enqueue(pid);
        match pid % 3 {
            0 => seen.take(),
            1 => seen.steal(),
            _ => {}
        }
    }
    seen
}

fn see_all<Q: QueueBrand>(
    alloc: Global,
    run_queues: Vec<RunQueue<Q>>,
) -> Result<Vec<CountedQueue<Q>>, Fail> {
    let mut all = Vec::new(alloc);
    for run_queue in run_queues {
        all.push(begin(alloc, run_queue)?)?;
    }
    Ok(all)
}

/// How often each pid was enqueued, and how often it was taken or left.
fn counted<Q: QueueBrand>(
    alloc: Global,
    all: Vec<CountedQueue<Q>>,
) -> Result<(Vec<u32>, Vec<u32>), Fail> {
    let mut enqueued = vec![in alloc; 0; 1_000]?;
    let mut found = vec![in alloc; 0; 1_000]?;
    let mut run_queues = Vec::new(alloc);
    for one in all {
        run_queues.push(one.add_to(&mut enqueued, &mut found))?;
    }
    for pid in close(alloc, run_queues)? {
        count(&mut found, pid);
    }
    Ok((enqueued, found))
}

fn check_counts<Q: QueueBrand + Send + Sync, R: Abort + Threads + Sync>(
    rt: &R,
    alloc: Global,
    unbranded: UnbrandedQueues,
) -> Result<(), Fail>
    requires { unbranded ≡ Q.deques }
{
    let run_queues = unbranded.branded::<Q>(alloc, 4)?;
    let all = thread::map_vec(rt, see_all(alloc, run_queues)?, &|seen| run(seen))?;
    let (enqueued, found) = counted(alloc, all)?;
    assert!(rt; enqueued == found && enqueued.iter().all(|n| *n == 5));
    Ok(())
}

#[test]
fn four_schedulers_and_a_server(rt: HostRuntime) -> Result<(), Fail> {
    let alloc = rt.alloc();
    check_counts::<Brand, _>(&rt, alloc, UnbrandedQueues::new(alloc, 5)?)
}
