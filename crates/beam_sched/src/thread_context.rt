//! What a thread needs to work at a node.
ghost use Rattle.std.specs.Prelude.{◌≡◌, ◌≢◌, ℕ, ◌==◌, if◌then◌else◌, MatchOption, OnOk, OnErr};
ghost use Rattle.beam_queue.specs.RunQueues.{enqueues, takes, Steals};
ghost use Rattle.beam_sched.specs.RunQueues.{Dequeues};
ghost use Rattle.beam_sched.specs.QueueStates.{queue_state_of};
ghost use Rattle.beam_sched.specs.declared.queue_states.QueueState.TheVariants.{Free, Queued};

use crate::queue_states::{QueueState, QueueStates};
use beam_queue::{QueueBrand, RunQueue};
use beam_receipts::brand::NodeBrand;
use beam_receipts::seat::SeatReceipt;

/// What a thread has at a node: a seat, for its commands, and a run queue.
pub struct ThreadContext<B: NodeBrand + QueueBrand> {
    pub seat: SeatReceipt<B>,
    pub run_queue: RunQueue<B>,
    /// How many processes are in the run queue's own queue, at most.
    queued: usize,
}

impl<B: NodeBrand + QueueBrand> Drop for ThreadContext<B> {
    fn drop(self) {
        let ThreadContext {
            seat: _seat,
            run_queue: _run_queue,
            queued: _queued,
        } = self;
    }
}

/// A process can't be enqueued: its queue or its queue state can't grow.
#[derive(Clone, Copy, Debug)]
pub struct NotEnqueued;

impl<B: NodeBrand + QueueBrand> ThreadContext<B> {
    /// A thread context with a seat and with a run queue whose own queue is empty.
    pub fn new(seat: SeatReceipt<B>, run_queue: RunQueue<B>) -> ThreadContext<B>
        ensures seat { result.seat ≡ seat }
        ensures run_queue { result.run_queue ≡ run_queue }
    {
        ThreadContext {
            seat,
            run_queue,
            queued: 0,
        }
    }

    /// The seat, and the run queue.
    pub fn into_parts(self) -> (SeatReceipt<B>, RunQueue<B>)
        ensures seat { result.0 ≡ self.seat }
        ensures run_queue { result.1 ≡ self.run_queue }
    {
        let ThreadContext {
            seat,
            run_queue,
            queued: _queued,
        } = self;
        (seat, run_queue)
    }

    /// How many processes are in its own queue, at most: other threads may have taken some.
    pub fn queued(&self) -> usize {
        self.queued
    }

    /// Enqueues a process, unless it is in some queue or checked out already: puts it into the thread context's own queue, and sets its
    /// queue state. If memory is refused it isn't enqueued.
    pub fn enqueue(&mut self, queue_states: &mut QueueStates, pid: u32) -> Result<(), NotEnqueued>
        ensures seat { self.new.seat ≡ self.old.seat }
        ensures not_free { queue_state_of queue_states.old pid ≢ Free → (self.new.run_queue ≡ self.old.run_queue) × (queue_states.new ≡ queue_states.old) }
        ensures ok { OnOk result (queue_state_of queue_states.old pid ≡ Free
            → (self.new.run_queue ≡ record self.old.run_queue { queue = enqueues pid self.old.run_queue.queue }) × (queue_state_of queue_states.new pid ≡ Queued)) }
        ensures err { OnErr result ((self.new.run_queue ≡ self.old.run_queue) × (queue_state_of queue_states.new pid ≡ Free)) }
        ensures others { (other : ℕ) → other ≢ pid → queue_state_of queue_states.new other ≡ queue_state_of queue_states.old other }
    {
        if queue_states.of(pid) != QueueState::Free {
            return Ok(());
        }
        if queue_states.reserve(pid).is_err() || self.run_queue.push(pid).is_err() {
            return Err(NotEnqueued);
        }
        queue_states.put(pid, QueueState::Queued);
        self.queued = self.queued.saturating_add(1);
        Ok(())
    }

    /// Takes the oldest process of its own queue.
    fn pop(&mut self) -> Option<u32>
        ensures seat { self.new.seat ≡ self.old.seat }
        ensures taken { MatchOption result (self.new.run_queue ≡ self.old.run_queue)
            (λ pid. self.new.run_queue ≡ record self.old.run_queue { queue = takes pid self.old.run_queue.queue }) }
    {
        let pid = self.run_queue.pop();
        self.queued = match pid {
            Some(_) => self.queued.saturating_sub(1),
            None => 0,
        };
        pid
    }

    /// Takes the oldest process of another queue. `None` if nothing is found.
    pub fn steal(&mut self) -> Option<u32>
        ensures seat { self.new.seat ≡ self.old.seat }
        ensures taken { MatchOption result (self.new.run_queue ≡ self.old.run_queue) (λ pid. Steals pid self.old.run_queue self.new.run_queue) }
    {
        self.run_queue.steal()
    }

    /// Takes a process that was enqueued: the oldest of its own queue or, if that is empty, the oldest of another queue. `None` if nothing is
    /// found.
    pub fn dequeue(&mut self) -> Option<u32>
        ensures seat { self.new.seat ≡ self.old.seat }
        ensures taken { MatchOption result (self.new.run_queue ≡ self.old.run_queue) (λ pid. Dequeues pid self.old.run_queue self.new.run_queue) }
    {
        match self.pop() {
            Some(pid) => Some(pid),
            None => self.steal(),
        }
    }
}
