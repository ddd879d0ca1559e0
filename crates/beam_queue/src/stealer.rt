//! A thread's handle on another's queue.
ghost use Rattle.std.specs.Prelude.{◌≡◌, [], Some, slice_get};
ghost use Rattle.crossbeam_deque.specs.Handles.{view, IsPassOf, stealer_deque};
ghost use Rattle.crossbeam_deque.specs.Steals.{MatchSteal};
ghost use Rattle.beam_queue.specs.RunQueues.{new_stealer, stealer_takes};
ghost use Rattle.beam_queue.specs.Rule.{contribution};

use crate::brand::QueueBrand;
use crate::deque::{DequePass, DequeStealer, steal};
use crossbeam_deque::Steal;
use std::marker::{Model, PhantomData};

/// A stealer of the queue with a number, and the pids that it took.
pub(crate) struct Stealer<Q: QueueBrand> {
    of: usize,
    deque_stealer: DequeStealer,
    pass: DequePass,
    queues: PhantomData<Q>,
}

impl<Q: QueueBrand> Drop for Stealer<Q> {
    fn drop(self) {
        let Stealer {
            of: _of,
            deque_stealer: _deque_stealer,
            pass: _pass,
            queues: _queues,
        } = self;
    }
}

impl<Q: QueueBrand> Model for Stealer<Q> {
    ghost use Rattle.std.specs.Prelude.{◌≡◌, [], Some, slice_get};
    ghost use Rattle.crossbeam_deque.specs.Handles.{IsPassOf, stealer_deque};
    ghost use Rattle.beam_queue.specs.Rule.{contribution_of};
    ghost use Rattle.beam_queue.specs.RunQueues.{Stealer};

    ghost Value = { Stealer };

    ghost view = { λ t. record { of = t.of; taken = (contribution_of t.pass).taken } };

    ghost invariant = { λ t. (slice_get Q.deques t.of ≡ Some (stealer_deque t.deque_stealer)) × IsPassOf (stealer_deque t.deque_stealer) t.pass
        × ((contribution_of t.pass).parts ≡ 1) × ((contribution_of t.pass).put ≡ []) };
}

impl<Q: QueueBrand> Stealer<Q> {
    /// A stealer that has taken nothing.
    pub(crate) fn new(of: usize, deque_stealer: DequeStealer, pass: DequePass) -> Stealer<Q>
        requires here { slice_get Q.deques of ≡ Some (stealer_deque deque_stealer) }
        requires pass { IsPassOf (stealer_deque deque_stealer) pass × (view pass ≡ contribution 1 [] []) }
        ensures { result ≡ new_stealer of }
    {
        Stealer {
            of,
            deque_stealer,
            pass,
            queues: PhantomData,
        }
    }

    /// The number of its queue.
    pub(crate) fn of(&self) -> usize
        ensures { result ≡ self.now.of }
    {
        self.of
    }

    /// Takes the oldest pid of the queue. `Empty` if there is none, `Retry` if another thread was faster. It takes no memory.
    pub(crate) fn steal(&mut self) -> Steal<u32>
        ensures { MatchSteal result (self.new ≡ self.old) (self.new ≡ self.old) (λ pid. self.new ≡ stealer_takes pid self.old) }
    {
        steal(&self.deque_stealer, &mut self.pass)
    }

    /// Its pass, with the pids that it took.
    pub(crate) fn into_pass(self) -> DequePass
        ensures here { (deque : _) → slice_get Q.deques self.of ≡ Some deque → IsPassOf deque result }
        ensures view { view result ≡ contribution 1 [] self.taken }
    {
        let Stealer {
            of: _of,
            deque_stealer: _deque_stealer,
            pass,
            queues: _queues,
        } = self;
        pass
    }
}
