//! A queue, for the thread that owns it.
ghost use Rattle.std.specs.Prelude.{◌≡◌, ◌+◌, ◌<◌, ℕ, Some, slice_get, IfOk, IfErr, OnErr, MatchOption};
ghost use Rattle.crossbeam_deque.specs.Handles.{worker_deque};
ghost use Rattle.beam_queue.specs.Counting.{times};
ghost use Rattle.beam_queue.specs.RunQueues.{new_own_queue, new_stealer, enqueues, takes, lends, takes_back};
ghost use Rattle.beam_queue.specs.Rule.{IsFresh};

use crate::brand::QueueBrand;
use crate::deque::{Deque, drain, join_pass, put, split_pass, take};
use crate::stealer::Stealer;
use std::alloc::AllocError;
use std::marker::{Model, PhantomData};

/// A thread's own queue, with its number and the count of the stealers that it has lent.
pub(crate) struct OwnQueue<Q: QueueBrand> {
    number: usize,
    lent: u32,
    deque: Deque,
    queues: PhantomData<Q>,
}

impl<Q: QueueBrand> Drop for OwnQueue<Q> {
    fn drop(self) {
        let OwnQueue {
            number: _number,
            lent: _lent,
            deque: _deque,
            queues: _queues,
        } = self;
    }
}

impl<Q: QueueBrand> Model for OwnQueue<Q> {
    ghost use Rattle.std.specs.Prelude.{◌≡◌, ◌+◌, ◌<◌, Some, slice_get};
    ghost use Rattle.crossbeam_deque.specs.Handles.{worker_deque, worker_view, worker_flavor};
    ghost use Rattle.beam_queue.specs.RunQueues.{OwnQueue};

    ghost Value = { OwnQueue };

    ghost view = { λ q. record { number = q.number; lent = q.lent; enqueued = (worker_view q.deque).put; taken = (worker_view q.deque).taken } };

    ghost invariant = { λ q. (slice_get Q.deques q.number ≡ Some (worker_deque q.deque)) × ((worker_view q.deque).parts + q.lent ≡ 1024)
        × (q.lent < 1000) × (worker_flavor q.deque ≡ 0) };
}

impl<Q: QueueBrand> OwnQueue<Q> {
    /// A queue in which nothing was enqueued.
    pub(crate) fn new(number: usize, deque: Deque) -> OwnQueue<Q>
        requires here { slice_get Q.deques number ≡ Some (worker_deque deque) }
        requires fresh { IsFresh deque }
        ensures { result ≡ new_own_queue number }
    {
        OwnQueue {
            number,
            lent: 0,
            deque,
            queues: PhantomData,
        }
    }

    /// The queue's number.
    pub(crate) fn number(&self) -> usize
        ensures { result ≡ self.now.number }
    {
        self.number
    }

    /// How many stealers of it are lent.
    pub(crate) fn lent(&self) -> u32
        ensures { result ≡ self.now.lent }
    {
        self.lent
    }

    /// Enqueues a process. The pid comes back if the queue can't grow.
    pub(crate) fn push(&mut self, pid: u32) -> Result<(), u32>
        ensures enqueued { IfOk result (λ _. self.new ≡ enqueues pid self.old) }
        ensures refused { IfErr result (λ p. (p ≡ pid) × (self.new ≡ self.old)) }
    {
        put(&mut self.deque, pid)
    }

    /// Takes the oldest pid of the queue. It takes no memory.
    pub(crate) fn pop(&mut self) -> Option<u32>
        ensures { MatchOption result (self.new ≡ self.old) (λ pid. self.new ≡ takes pid self.old) }
    {
        take(&mut self.deque)
    }

    /// Lends a stealer of this queue.
    pub(crate) fn lend_stealer(&mut self) -> Result<Stealer<Q>, AllocError>
        requires few { self.old.lent < 999 }
        ensures lent { IfOk result (λ t. (t ≡ new_stealer self.old.number) × (self.new ≡ lends self.old)) }
        ensures err { OnErr result (self.new ≡ self.old) }
    {
        let deque_stealer = self.deque.stealer()?;
        let pass = split_pass(&mut self.deque);
        self.lent += 1;
        Ok(Stealer::new(self.number, deque_stealer, pass))
    }

    /// Takes a stealer back, with what it took.
    pub(crate) fn take_back(&mut self, stealer: Stealer<Q>)
        requires own { stealer.of ≡ self.old.number }
        requires lent { 0 < self.old.lent }
        ensures { self.new ≡ takes_back stealer self.old }
    {
        join_pass(&mut self.deque, stealer.into_pass());
        self.lent -= 1;
    }

    /// Appends the pids that are left in the queue to `left`.
    pub(crate) fn drain(self, left: Vec<u32>) -> Result<Vec<u32>, AllocError>
        requires back { self.lent ≡ 0 }
        ensures { IfOk result (λ all. (pid : ℕ) → times pid self.taken + times pid all.items ≡ times pid self.enqueued + times pid left.items) }
    {
        let OwnQueue {
            number: _number,
            lent: _lent,
            deque,
            queues: _queues,
        } = self;
        drain(deque, left)
    }
}
