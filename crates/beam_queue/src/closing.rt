//! Closing the queues.
ghost use Rattle.std.specs.Prelude.{◌≡◌, ◌+◌, ◌<◌, ◌↔◌, ℕ, true, length, get_or, IfOk, IfSome, IfNone, IsErrOf};
ghost use Rattle.beam_queue.specs.Closing.{stealer_count, lent, HaveNoStealers, RemovesStealer, KeepsCounts};
ghost use Rattle.beam_queue.specs.Counting.{total, times};
ghost use Rattle.beam_queue.specs.RunQueues.{enqueued_by, taken_by, lent_of, HaveAllStealers};
ghost use Rattle.beam_queue.specs.declared.closing.NotClosed.TheVariants.{Lent};

use crate::brand::QueueBrand;
use crate::run_queue::RunQueue;
use crate::stealer::Stealer;
use std::alloc::{AllocError, Global};
use thiserror::Error;

/// Why the queues aren't closed. They are then gone, with the pids that were left in them.
#[derive(Clone, Copy, Debug, PartialEq, Eq, Error)]
pub enum NotClosed {
    /// Memory was refused.
    #[error("NoMemory")]
    NoMemory,
    /// A stealer isn't among the run queues, or its queue isn't.
    #[error("Lent")]
    Lent,
}

impl From<AllocError> for NotClosed {
    ghost use Rattle.std.specs.Prelude.{◌≡◌};
    ghost use Rattle.beam_queue.specs.declared.closing.NotClosed.TheVariants.{NoMemory};

    ghost from_gives = { λ _ e. e ≡ NoMemory };

    fn from(_refused: AllocError) -> NotClosed {
        NotClosed::NoMemory
    }
}

/// Closes the queues: gives each stealer back to its queue, for any order of the run queues, and returns the pids that are left in them.
pub fn close<Q: QueueBrand>(
    alloc: Global,
    run_queues: Vec<RunQueue<Q>>,
) -> Result<Vec<u32>, NotClosed>
    ensures balanced { IfOk result (λ left. (pid : ℕ)
        → total (taken_by pid) run_queues.items + times pid left.items ≡ total (enqueued_by pid) run_queues.items) }
    ensures lent { IsErrOf result Lent ↔ ¬ HaveAllStealers run_queues.items }
{
    let mut run_queues = run_queues;
    if !return_stealers(&mut run_queues) {
        return Err(NotClosed::Lent);
    }
    Ok(drain_all(alloc, run_queues)?)
}

/// Gives each stealer back to its queue. False if a queue has none lent, or isn't there, or is left with one lent.
fn return_stealers<Q: QueueBrand>(run_queues: &mut Vec<RunQueue<Q>>) -> bool
    ensures back { result ≡ true ↔ HaveAllStealers run_queues.old.items }
    ensures no_stealers { result ≡ true → HaveNoStealers run_queues.new.items }
    ensures kept { result ≡ true → KeepsCounts run_queues.old.items run_queues.new.items }
{
    while let Some(stealer) = take_stealer(run_queues) {
        let Some(at) = lender(run_queues, stealer.of()) else {
            return false;
        };
        run_queues[at].take_back(stealer);
    }
    none_lent(run_queues)
}

/// Removes a stealer from some run queue; none if no run queue has one.
fn take_stealer<Q: QueueBrand>(run_queues: &mut Vec<RunQueue<Q>>) -> Option<Stealer<Q>>
    ensures some { IfSome result (λ t. RemovesStealer t run_queues.old.items run_queues.new.items) }
    ensures none { IfNone result ((run_queues.new.items ≡ run_queues.old.items) × (total stealer_count run_queues.new.items ≡ 0)) }
{
    for at in 0..run_queues.len() {
        if let Some(stealer) = run_queues[at].remove_stealer() {
            return Some(stealer);
        }
    }
    None
}

/// The index of the run queue whose queue has this number, if that queue has lent stealers.
fn lender<Q: QueueBrand>(run_queues: &[RunQueue<Q>], number: usize) -> Option<usize>
    ensures some { IfSome result (λ i. (i < length run_queues.now) × ((d : _) → 0 < lent_of number (get_or run_queues.now i d))) }
    ensures none { IfNone result (total (lent_of number) run_queues.now ≡ 0) }
{
    for at in 0..run_queues.len() {
        if run_queues[at].lent_by(number) > 0 {
            return Some(at);
        }
    }
    None
}

/// Whether no stealer is lent.
fn none_lent<Q: QueueBrand>(run_queues: &[RunQueue<Q>]) -> bool
    ensures { result ≡ true ↔ (total lent run_queues.now ≡ 0) }
{
    for at in 0..run_queues.len() {
        if run_queues[at].lent() > 0 {
            return false;
        }
    }
    true
}

/// The pids that are left in all the queues.
fn drain_all<Q: QueueBrand>(
    alloc: Global,
    run_queues: Vec<RunQueue<Q>>,
) -> Result<Vec<u32>, AllocError>
    requires no_stealers { HaveNoStealers run_queues.items }
    ensures { IfOk result (λ left. (pid : ℕ) → total (taken_by pid) run_queues.items + times pid left.items ≡ total (enqueued_by pid) run_queues.items) }
{
    let mut run_queues = run_queues;
    let mut left = Vec::new(alloc);
    while let Some(run_queue) = run_queues.pop() {
        left = run_queue.drain(left)?;
    }
    Ok(left)
}
