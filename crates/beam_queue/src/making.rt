//! Making queues, and branding them.
ghost use Rattle.std.specs.Prelude.{◌≡◌, ◌<◌, ◌≤◌, ◌⊎◌, ℕ, Some, [], map, length, slice_get, get_or, if◌then◌else◌, nat_lt, IfOk, OnOk, IsErrOf};
ghost use Rattle.std.specs.List.{range_with_len};
ghost use Rattle.crossbeam_deque.specs.Handles.{worker_deque};
ghost use Rattle.beam_queue.specs.Counting.{total};
ghost use Rattle.beam_queue.specs.RunQueues.{new_run_queue, others, victims, enqueued_by, taken_by, HaveAllStealers};
ghost use Rattle.beam_queue.specs.Making.{LentAtMost, AddsStealersInRange, AddsAllStealers};
ghost use Rattle.beam_queue.specs.Rule.{IsFresh};
ghost use Rattle.beam_queue.specs.declared.making.NotMade.TheVariants.{TooMany};

use crate::brand::QueueBrand;
use crate::deque::{Deque, empty_deque};
use crate::own_queue::OwnQueue;
use crate::run_queue::RunQueue;
use std::alloc::{AllocError, AllocFailed, Global};
use std::marker::Model;
use thiserror::Error;

/// Why no run queues are made. The queues are then gone.
#[derive(Clone, Copy, Debug, PartialEq, Eq, Error)]
pub enum NotMade {
    /// Memory was refused.
    #[error("NoMemory")]
    NoMemory,
    /// A queue can't have more than 999 stealers.
    #[error("TooMany")]
    TooMany,
}

impl From<AllocError> for NotMade {
    ghost use Rattle.std.specs.Prelude.{◌≡◌};
    ghost use Rattle.beam_queue.specs.declared.making.NotMade.TheVariants.{NoMemory};

    ghost from_gives = { λ _ e. e ≡ NoMemory };

    fn from(_refused: AllocError) -> NotMade {
        NotMade::NoMemory
    }
}

impl<T: Drop> From<AllocFailed<T>> for NotMade {
    ghost use Rattle.std.specs.Prelude.{◌≡◌};
    ghost use Rattle.beam_queue.specs.declared.making.NotMade.TheVariants.{NoMemory};

    ghost from_gives = { λ _ e. e ≡ NoMemory };

    fn from(_refused: AllocFailed<T>) -> NotMade {
        NotMade::NoMemory
    }
}

/// An empty queue of which no part is cut off.
#[derive(Drop)]
pub(crate) struct FreshDeque {
    pub(crate) deque: Deque,
    pub(crate) ghost fresh: { IsFresh deque },
}

fn make_deque(alloc: Global) -> Result<FreshDeque, AllocError> {
    let deque = empty_deque(alloc)?;
    Ok(FreshDeque { deque })
}

/// Empty queues without a brand yet. Contracts see which they are.
pub struct UnbrandedQueues {
    queues: Vec<FreshDeque>,
}

impl Drop for UnbrandedQueues {
    fn drop(self) {
        let UnbrandedQueues { queues: _queues } = self;
    }
}

impl Model for UnbrandedQueues {
    ghost use Rattle.std.specs.Prelude.{List, map};
    ghost use Rattle.crossbeam_deque.specs.Handles.{worker_deque};
    ghost use Rattle.beam_queue.specs.Rule.{DequeId};

    ghost Value = { List DequeId };

    ghost view = { λ b. map (λ f. worker_deque f.deque) b.queues.items };
}

impl UnbrandedQueues {
    /// Makes `count` empty queues, with 256 slots each. Where memory is refused there are none.
    pub fn new(alloc: Global, count: usize) -> Result<UnbrandedQueues, AllocError>
        ensures count { IfOk result (λ b. length b ≡ count) }
    {
        let mut queues = Vec::new(alloc);
        for _ in 0..count {
            queues.push(make_deque(alloc)?)?;
        }
        Ok(UnbrandedQueues { queues })
    }

    /// A run queue for each of the queues, in their order, in which nothing was enqueued. The first `schedulers` run queues have a stealer
    /// of each other queue, and ask the next queue first; the others only enqueue. `NoMemory` where memory is refused, `TooMany` where a
    /// queue would have more than 999 stealers; the queues are then gone, and nothing was enqueued in them.
    pub fn branded<Q: QueueBrand>(
        self,
        alloc: Global,
        schedulers: usize,
    ) -> Result<Vec<RunQueue<Q>>, NotMade>
        requires { self ≡ Q.deques }
        ensures numbers { IfOk result (λ run_queues. map (λ l. l.queue.number) run_queues.items ≡ range_with_len 0 (length self)) }
        ensures victims { IfOk result (λ run_queues. (i : ℕ) → (d : _) → i < length self
            → victims (get_or run_queues.items i d).stealers ≡ (if nat_lt i schedulers then others (length self) i else [])) }
        ensures empty { IfOk result (λ run_queues. (pid : ℕ)
            → (total (enqueued_by pid) run_queues.items ≡ 0) × (total (taken_by pid) run_queues.items ≡ 0)) }
        ensures back { IfOk result (λ run_queues. HaveAllStealers run_queues.items) }
        ensures many { IsErrOf result TooMany → 999 < schedulers }
    {
        let UnbrandedQueues { queues } = self;
        let mut run_queues = without_stealers::<Q>(alloc, queues)?;
        for at in 0..schedulers.min(run_queues.len()) {
            add_all_stealers(&mut run_queues, at)?;
        }
        Ok(run_queues)
    }
}

/// The run queue of a fresh deque, with its number, without stealers.
fn run_queue_of<Q: QueueBrand>(alloc: Global, number: usize, fresh: FreshDeque) -> RunQueue<Q>
    requires { slice_get Q.deques number ≡ Some (worker_deque fresh.deque) }
    ensures { result ≡ new_run_queue number }
{
    let FreshDeque { deque, .. } = fresh;
    RunQueue::new(OwnQueue::new(number, deque), Vec::new(alloc))
}

/// A run queue for each queue, without stealers.
fn without_stealers<Q: QueueBrand>(
    alloc: Global,
    queues: Vec<FreshDeque>,
) -> Result<Vec<RunQueue<Q>>, AllocError>
    requires { map (λ f. worker_deque f.deque) queues.items ≡ Q.deques }
    ensures { IfOk result (λ run_queues. run_queues.items ≡ map new_run_queue (range_with_len 0 (length Q.deques))) }
{
    let mut run_queues = Vec::new(alloc);
    for fresh in queues {
        let number = run_queues.len();
        run_queues.push(run_queue_of::<Q>(alloc, number, fresh))?;
    }
    Ok(run_queues)
}

/// Gives a run queue a stealer of each other queue, from the next one on, round.
fn add_all_stealers<Q: QueueBrand>(
    run_queues: &mut Vec<RunQueue<Q>>,
    at: usize,
) -> Result<(), NotMade>
    requires within { at < length run_queues.old.items }
    requires numbers { map (λ l. l.queue.number) run_queues.old.items ≡ range_with_len 0 (length run_queues.old.items) }
    ensures added { OnOk result (AddsAllStealers at run_queues.old.items run_queues.new.items) }
    ensures many { IsErrOf result TooMany → (most : ℕ) → LentAtMost most 0 (length run_queues.old.items) run_queues.old.items → 999 ≤ most }
{
    let count = run_queues.len();
    add_stealers_in_range(run_queues, at, at + 1, count)?;
    add_stealers_in_range(run_queues, at, 0, at)?;
    Ok(())
}

/// Gives a run queue a stealer of each queue from one number up to another; the run queue's own isn't among them.
fn add_stealers_in_range<Q: QueueBrand>(
    run_queues: &mut Vec<RunQueue<Q>>,
    at: usize,
    from: usize,
    to: usize,
) -> Result<(), NotMade>
    requires within { (at < length run_queues.old.items) × (from ≤ to) × (to ≤ length run_queues.old.items) }
    requires others { (at < from) ⊎ (to ≤ at) }
    requires numbers { map (λ l. l.queue.number) run_queues.old.items ≡ range_with_len 0 (length run_queues.old.items) }
    ensures added { OnOk result (AddsStealersInRange at from to run_queues.old.items run_queues.new.items) }
    ensures many { IsErrOf result TooMany → (most : ℕ) → LentAtMost most from to run_queues.old.items → 999 ≤ most }
{
    for of in from..to {
        let stealer = run_queues[of].lend_stealer()?;
        run_queues[at].add_stealer(stealer)?;
    }
    Ok(())
}
