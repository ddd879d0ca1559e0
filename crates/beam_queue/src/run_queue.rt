//! A thread's handles: a queue of its own, and a stealer of each of the others.
ghost use Rattle.std.specs.Prelude.{◌≡◌, ◌+◌, ◌<◌, ◌≤◌, ℕ, [], ◌∷◌, ◌++◌, IfOk, IfErr, IfSome, IfNone, OnOk, IsErrOf, MatchOption};
ghost use Rattle.crossbeam_deque.specs.Steals.{MatchSteal};
ghost use Rattle.beam_queue.specs.Closing.{stealer_count, lent};
ghost use Rattle.beam_queue.specs.Counting.{times};
ghost use Rattle.beam_queue.specs.RunQueues.{new_stealer, enqueues, takes, lends, takes_back, enqueued_by, taken_by, lent_of, OneStole, Steals};
ghost use Rattle.beam_queue.specs.declared.making.NotMade.TheVariants.{TooMany};

use crate::brand::QueueBrand;
use crate::making::NotMade;
use crate::own_queue::OwnQueue;
use crate::stealer::Stealer;
use crossbeam_deque::Steal;
use std::alloc::AllocError;
use std::marker::Model;

/// A thread's own queue, and its stealers of the others; the run queue of a thread that only enqueues has no stealers. Contracts see the
/// pids that it enqueued, and those that it took from each queue.
pub struct RunQueue<Q: QueueBrand> {
    pub(crate) queue: OwnQueue<Q>,
    pub(crate) stealers: Vec<Stealer<Q>>,
    // the index of the stealer that is asked first
    next: usize,
}

impl<Q: QueueBrand> Drop for RunQueue<Q> {
    fn drop(self) {
        let RunQueue {
            queue: _queue,
            stealers: _stealers,
            next: _next,
        } = self;
    }
}

impl<Q: QueueBrand> Model for RunQueue<Q> {
    ghost use Rattle.beam_queue.specs.RunQueues.{RunQueue};

    ghost Value = { RunQueue };

    ghost view = { λ l. record { queue = l.queue; stealers = l.stealers.items } };
}

impl<Q: QueueBrand> RunQueue<Q> {
    /// A run queue that first asks its first stealer.
    pub(crate) fn new(queue: OwnQueue<Q>, stealers: Vec<Stealer<Q>>) -> RunQueue<Q>
        ensures { result ≡ record { queue = queue; stealers = stealers.items } }
    {
        RunQueue {
            queue,
            stealers,
            next: 0,
        }
    }

    /// Enqueues a process: puts its pid into the run queue's queue. If the queue can't grow, or has had 2^62 pids, the pid comes back and
    /// isn't enqueued.
    pub fn push(&mut self, pid: u32) -> Result<(), u32>
        ensures enqueued { IfOk result (λ _. self.new ≡ record self.old { queue = enqueues pid self.old.queue }) }
        ensures refused { IfErr result (λ p. (p ≡ pid) × (self.new ≡ self.old)) }
    {
        self.queue.push(pid)
    }

    /// Takes the oldest pid of the run queue's own queue; none if it is empty. It takes no memory.
    pub fn pop(&mut self) -> Option<u32>
        ensures { MatchOption result (self.new ≡ self.old) (λ pid. self.new ≡ record self.old { queue = takes pid self.old.queue }) }
    {
        self.queue.pop()
    }

    /// Takes the oldest pid of another queue: all are asked in turn, beginning after the one that was asked last, and once more if
    /// another thread was faster at one of them. None if all are empty, or others were faster again. It takes no memory.
    pub fn steal(&mut self) -> Option<u32>
        ensures { MatchOption result (self.new ≡ self.old) (λ pid. Steals pid self.old self.new) }
    {
        let asked = match steal_from_any(&mut self.stealers, &mut self.next) {
            Steal::Retry => steal_from_any(&mut self.stealers, &mut self.next),
            asked => asked,
        };
        match asked {
            Steal::Success(pid) => Some(pid),
            Steal::Empty | Steal::Retry => None,
        }
    }

    /// How many stealers its queue has lent.
    pub(crate) fn lent(&self) -> u32
        ensures { result ≡ lent self.now }
    {
        self.queue.lent()
    }

    /// How many stealers the queue with this number has lent, if it is this run queue's; else 0.
    pub(crate) fn lent_by(&self, number: usize) -> u32
        ensures { result ≡ lent_of number self.now }
    {
        if self.queue.number() == number {
            self.queue.lent()
        } else {
            0
        }
    }

    /// Lends a stealer of its queue; at most 999 are lent.
    pub(crate) fn lend_stealer(&mut self) -> Result<Stealer<Q>, NotMade>
        ensures lent { IfOk result (λ t. (t ≡ new_stealer self.old.queue.number) × (self.new ≡ record self.old { queue = lends self.old.queue })) }
        ensures many { IsErrOf result TooMany → 999 ≤ self.old.queue.lent }
    {
        if self.queue.lent() >= 999 {
            return Err(NotMade::TooMany);
        }
        Ok(self.queue.lend_stealer()?)
    }

    /// Adds a stealer of another queue.
    pub(crate) fn add_stealer(&mut self, stealer: Stealer<Q>) -> Result<(), AllocError>
        ensures { OnOk result (self.new ≡ record self.old { stealers = self.old.stealers ++ stealer ∷ [] }) }
    {
        self.stealers.reserve(1)?;
        self.stealers.push_reserved(stealer);
        Ok(())
    }

    /// Removes one of its stealers.
    pub(crate) fn remove_stealer(&mut self) -> Option<Stealer<Q>>
        ensures some { IfSome result (λ t. (self.new.queue ≡ self.old.queue) × (self.old.stealers ≡ self.new.stealers ++ t ∷ [])) }
        ensures none { IfNone result ((self.new ≡ self.old) × (stealer_count self.old ≡ 0)) }
    {
        self.stealers.pop()
    }

    /// Takes a stealer of its queue back, with what it took.
    pub(crate) fn take_back(&mut self, stealer: Stealer<Q>)
        requires lent { 0 < lent_of stealer.of self.old }
        ensures { self.new ≡ record self.old { queue = takes_back stealer self.old.queue } }
    {
        self.queue.take_back(stealer)
    }

    /// Appends the pids that are left in its queue to `left`.
    pub(crate) fn drain(self, left: Vec<u32>) -> Result<Vec<u32>, AllocError>
        requires no_stealers { (stealer_count self ≡ 0) × (lent self ≡ 0) }
        ensures { IfOk result (λ all. (pid : ℕ) → taken_by pid self + times pid all.items ≡ enqueued_by pid self + times pid left.items) }
    {
        let RunQueue {
            queue,
            stealers: _stealers,
            next: _next,
        } = self;
        queue.drain(left)
    }
}

/// The index, or 0 if it is past the last one.
fn wrapped(next: usize, len: usize) -> usize
    requires { 0 < len }
    ensures { result < len }
{
    if next < len { next } else { 0 }
}

/// Asks the stealers in turn, beginning at an index, until one has a pid. `Retry` if none has one, and another thread was faster at one.
fn steal_from_any<Q: QueueBrand>(stealers: &mut Vec<Stealer<Q>>, next: &mut usize) -> Steal<u32>
    ensures { MatchSteal result (stealers.new.items ≡ stealers.old.items) (stealers.new.items ≡ stealers.old.items)
        (λ pid. OneStole pid stealers.old.items stealers.new.items) }
{
    let mut lost = false;
    for _ in 0..stealers.len() {
        let at = wrapped(*next, stealers.len());
        *next = at + 1;
        match stealers[at].steal() {
            Steal::Success(pid) => return Steal::Success(pid),
            Steal::Retry => lost = true,
            Steal::Empty => {}
        }
    }
    if lost { Steal::Retry } else { Steal::Empty }
}
